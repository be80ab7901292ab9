// Turning a job: its bytes mirrored, their order reversed, or both. The table of mirrored bytes is
// made once in a call and lent down to each byte; each function on the way asks that it is right.
#![tactic(auto)]

ghost use Rattle.std.specs.Prelude.{◌≡◌, ◌<◌, ◌≤◌, false, length, take};
ghost use Rattle.answers.specs.Buffers.{in_front};
ghost use Rattle.answers.specs.Reasons.{number_of, status_of};
ghost use Rattle.turn_mirror.specs.Mirrored.{MirrorTable};
ghost use Rattle.turn.specs.Turn.{turn_status, TurnOutcome, refused_answer};
ghost use Rattle.turn.specs.Turned.{mirrors, reverses, turned_byte, turned, turned_index};
ghost use Rattle.turn.specs.Ways.{way_number, WayRead, turn_read};

use answers::{Answer, Reason};

// What turning answers.
#[repr(C)]
#[derive(Clone, Copy, Debug, Default, PartialEq, Eq)]
pub struct TurnAnswer {
    pub answer: Answer,
    // the turned hold offset (hold place)
    pub q: u32,
}

// What a refused call answers: the hold offset 0.
impl From<Reason> for TurnAnswer {
    ghost from_gives = { λ reason answer. answer ≡ refused_answer (number_of reason) };

    fn from(reason: Reason) -> TurnAnswer {
        TurnAnswer {
            answer: Answer::from(reason),
            q: 0,
        }
    }
}

// The ways of turning: C passes 0 to 3.
#[derive(Clone, Copy, Debug, PartialEq, Eq)]
pub enum Way {
    AsDrawn = 0,
    Mirrored = 1,
    Reversed = 2,
    Both = 3,
}

// The way of a number; 8 above 3.
impl TryFrom<u32> for Way {
    type Error = Reason;

    ghost try_from_gives = { λ number way. WayRead number way };

    fn try_from(number: u32) -> Result<Way, Reason> {
        match number {
            0 => Ok(Way::AsDrawn),
            1 => Ok(Way::Mirrored),
            2 => Ok(Way::Reversed),
            3 => Ok(Way::Both),
            _ => Err(Reason::Way),
        }
    }
}

impl Way {
    // Whether it mirrors each byte (card).
    pub fn mirrors(self) -> bool
        ensures { result ≡ mirrors (way_number self) }
    {
        matches!(self, Way::Mirrored | Way::Both)
    }

    // Whether it reverses the order.
    pub fn reverses(self) -> bool
        ensures { result ≡ reverses (way_number self) }
    {
        matches!(self, Way::Reversed | Way::Both)
    }
}

// Where turning moves an index of `len` entries: in the ways that reverse the order, to the same
// one counted from the end.
fn turned_index(way: Way, len: usize, index: usize) -> usize
    requires { index < len }
    ensures { result ≡ turned_index (way_number way) len index }
{
    if way.reverses() {
        len - 1 - index
    } else {
        index
    }
}

// A byte turned: mirrored, by a table of mirrored bytes, in the ways that mirror.
fn turned_byte(way: Way, byte: u8, table: &[u8; 256]) -> u8
    requires { MirrorTable table.now }
    ensures { result ≡ turned_byte (way_number way) byte }
{
    if way.mirrors() {
        table[usize::from(byte)]
    } else {
        byte
    }
}

// Copies what a way leaves as it is to the front of a buffer, and returns how many bytes that are:
// as drawn all, in the other ways none.
fn copy_unturned(way: Way, bytes: &[u8], out: &mut [u8]) -> usize
    requires { length bytes.now ≤ length out.old }
    ensures inside { result ≤ length bytes.now }
    ensures copied { out.new ≡ in_front (take result (turned (way_number way) bytes.now))
        out.old }
{
    match way {
        Way::AsDrawn => copy_blocks::copy_blocks(bytes, out),
        _ => 0,
    }
}

// Writes bytes turned to the front of a buffer, in the ways that keep their order.
fn write_in_order(way: Way, bytes: &[u8], table: &[u8; 256], out: &mut [u8])
    requires mirrored { MirrorTable table.now }
    requires in_order { reverses (way_number way) ≡ false }
    requires room { length bytes.now ≤ length out.old }
    ensures { out.new ≡ in_front (turned (way_number way) bytes.now) out.old }
{
    let copied = copy_unturned(way, bytes, out);
    for (i, &byte) in bytes[copied..].iter().enumerate() {
        out[copied + i] = turned_byte(way, byte, table);
    }
}

// Writes bytes turned to the front of a buffer, from the last place back: for the ways that reverse
// the order. So the stores go by a pointer; going up they would go by an index, and way 3 would
// take a third longer.
fn write_reversed(way: Way, bytes: &[u8], table: &[u8; 256], out: &mut [u8])
    requires mirrored { MirrorTable table.now }
    requires room { length bytes.now ≤ length out.old }
    ensures { out.new ≡ in_front (turned (way_number way) bytes.now) out.old }
{
    let len = bytes.len();
    // by index: of iter_mut().rev() the check does not know the entries
    for i in (0..len).rev() {
        out[i] = turned_byte(way, bytes[turned_index(way, len, i)], table);
    }
}

// Writes bytes turned to the front of a buffer, by a table of mirrored bytes.
fn write_turned(way: Way, bytes: &[u8], table: &[u8; 256], out: &mut [u8])
    requires mirrored { MirrorTable table.now }
    requires room { length bytes.now ≤ length out.old }
    ensures { out.new ≡ in_front (turned (way_number way) bytes.now) out.old }
{
    if way.reverses() {
        write_reversed(way, bytes, table, out);
    } else {
        write_in_order(way, bytes, table, out);
    }
}

// The way of its number in C, where a call that turns by it is done; decided before anything is
// written.
fn check_turn(
    way: u32,
    m: usize,
    hold_offset: u32,
    n: usize,
    turned_pattern_len: usize,
    turned_text_len: usize,
) -> Result<Way, Reason>
    ensures status { status_of result ≡ turn_status way m hold_offset n
        turned_pattern_len turned_text_len }
    ensures read { turn_read way result }
{
    let way = Way::try_from(way)?;
    answers::check_job(m, hold_offset as usize, n)?;
    if (turned_pattern_len < m) | (turned_text_len < n) {
        return Err(Reason::ShortBuffer);
    }
    Ok(way)
}

// Turns a job: its pattern (motif), its text (chain) and its hold offset (hold place). The way is
// the number that C passes.
pub fn turn(
    way: u32,
    hold_offset: u32,
    pattern: &[u8],
    text: &[u8],
    turned_pattern: &mut [u8],
    turned_text: &mut [u8],
) -> TurnAnswer
    ensures { TurnOutcome way hold_offset pattern.now text.now
        turned_pattern.old turned_pattern.new
        turned_text.old turned_text.new result }
{
    let m = pattern.len();
    let checked = check_turn(
        way,
        m,
        hold_offset,
        text.len(),
        turned_pattern.len(),
        turned_text.len(),
    );
    let way = match checked {
        Ok(way) => way,
        Err(reason) => return TurnAnswer::from(reason),
    };
    let table = turn_mirror::mirrored_bytes();
    write_turned(way, pattern, &table, turned_pattern);
    write_turned(way, text, &table, turned_text);
    TurnAnswer {
        answer: Answer::default(),
        q: turned_index(way, m, hold_offset as usize) as u32,
    }
}
