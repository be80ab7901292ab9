// Reading a job file: all of it is checked before anything is written to the caller's buffers.
#![tactic(auto)]

ghost use Rattle.std.specs.Prelude.{true, IfOk, ◌&&◌, ◌≡◌, ◌+◌, ◌*◌, ◌≤◌, ◌<◌, eqb, length};
ghost use Rattle.answers.specs.Reasons.{status_of};
ghost use Rattle.hex_digits.specs.Hex.{is_digit, digit_value, all_digits, number};
ghost use Rattle.hex_digits.specs.Parsed.{ParsedOutcome};
ghost use Rattle.job.specs.Job.{good_lines, bytes_in};
ghost use Rattle.job.specs.Read.{read_status, ReadOutcome};
ghost use Rattle.hex_lines.specs.Lines.{line_end};
ghost use Rattle.job_reader.specs.FirstLine.{FirstLineOutcome, FirstLineRead, FieldsTaken};

use answers::{Answer, Reason};
use hex_lines::LINE_END;
use job::ReadAnswer;

// What a job's first line gives: the edition, m, q and n.
#[derive(Clone, Copy, Debug, PartialEq, Eq)]
pub struct Fields {
    pub edition: usize,
    pub m: usize,
    pub q: usize,
    pub n: usize,
}

// The number that two digits give; none where one is no digit, which is refusal 2.
fn pair(high: u8, low: u8) -> Option<u8>
    ensures { ParsedOutcome (is_digit high && is_digit low)
        (digit_value high * 16 + digit_value low) result }
{
    let sixteens = hex_digits::digit_value(high)?;
    let units = hex_digits::digit_value(low)?;
    Some(sixteens * 16 + units)
}

// The number that two digits at a place of the file give.
fn pair_at(file: &[u8], at: usize) -> Option<u8>
    requires { at + 2 ≤ length file.now }
    ensures { ParsedOutcome (all_digits 2 at file.now) (number 2 at file.now)
        result }
{
    pair(file[at], file[at + 1])
}

// The fields of the first line; none where a byte is not the digit or line end due there, which is
// refusal 2.
fn first_line(file: &[u8]) -> Option<Fields>
    requires { 11 ≤ length file.now }
    ensures { FirstLineOutcome file.now result }
{
    let edition = pair_at(file, 0)?;
    let m = pair_at(file, 2)?;
    let hold_offset = pair_at(file, 4)?;
    let high = pair_at(file, 6)?;
    let low = pair_at(file, 8)?;
    if file[10] != LINE_END {
        return None;
    }
    Some(Fields {
        edition: edition as usize,
        m: m as usize,
        q: hold_offset as usize,
        n: high as usize * 256 + low as usize,
    })
}

// Whether three bytes are a line of two digits.
fn is_line(high: u8, low: u8, end: u8) -> bool
    ensures { result ≡ is_digit high && is_digit low && eqb end line_end }
{
    pair(high, low).is_some() && end == LINE_END
}

// Whether so many lines of two digits stand in the file from a place on. The good lines are
// counted, so that the sum has no way out before its end.
fn are_lines(file: &[u8], count: usize, from: usize) -> bool
    requires inside { from + 3 * count ≤ length file.now }
    requires few { count < 65536 }
    ensures { result ≡ good_lines count from file.now }
{
    let (lines, _) = file[from..from + 3 * count].as_chunks::<3>();
    let good: u16 = lines
        .iter()
        .map(|&[high, low, end]| u16::from(is_line(high, low, end)))
        .sum();
    good as usize == count
}

// What a file of these fields is refused for, read into buffers of these lengths.
fn check_fields(
    file: &[u8],
    fields: Fields,
    pattern_len: usize,
    text_len: usize,
) -> Result<(), Reason>
    requires { FirstLineRead file.now fields }
    ensures { status_of result ≡ read_status file.now pattern_len text_len }
{
    let m = fields.m;
    let n = fields.n;
    if fields.edition != 1 {
        return Err(Reason::Edition);
    }
    answers::check_job(m, fields.q, n)?;
    if file.len() != 11 + 3 * m + 3 * n {
        return Err(Reason::FileLength);
    }
    if !are_lines(file, m + n, 11) {
        return Err(Reason::WrongByte);
    }
    if pattern_len < m || text_len < n {
        return Err(Reason::ShortBuffer);
    }
    Ok(())
}

// The fields of a file that is taken, read into buffers of these lengths.
fn check_file(file: &[u8], pattern_len: usize, text_len: usize) -> Result<Fields, Reason>
    ensures status { status_of result ≡ read_status file.now pattern_len text_len }
    ensures fields { IfOk result (λ fields. FieldsTaken file.now pattern_len text_len fields) }
{
    if file.len() < 11 {
        return Err(Reason::FileLength);
    }
    let fields = first_line(file).ok_or(Reason::WrongByte)?;
    check_fields(file, fields, pattern_len, text_len)?;
    Ok(fields)
}

// Reads the bytes of the lines from a place of the file on, until the buffer is full.
fn read_lines(file: &[u8], from: usize, out: &mut [u8])
    requires inside { from + 3 * length out.old ≤ length file.now }
    requires good { good_lines (length out.old) from file.now ≡ true }
    ensures { out.new ≡ bytes_in (length out.old) from file.now }
{
    for (i, byte) in out.iter_mut().enumerate() {
        let at = from + 3 * i;
        *byte = hex_digits::value_of(file[at]) * 16 + hex_digits::value_of(file[at + 1]);
    }
}

// Reads a job file into the caller's buffers for pattern (motif) and text (chain).
pub fn read_job(file: &[u8], pattern: &mut [u8], text: &mut [u8]) -> ReadAnswer
    ensures { ReadOutcome file.now pattern.old pattern.new
        text.old text.new result }
{
    let fields = match check_file(file, pattern.len(), text.len()) {
        Ok(fields) => fields,
        Err(reason) => return ReadAnswer::from(reason),
    };
    let m = fields.m;
    let n = fields.n;
    read_lines(file, 11, &mut pattern[..m]);
    read_lines(file, 11 + 3 * m, &mut text[..n]);
    ReadAnswer {
        answer: Answer::default(),
        m: m as u32,
        q: fields.q as u32,
        n: n as u32,
    }
}
