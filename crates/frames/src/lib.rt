// Frames: a move for each byte of a text, and the holds.
#![tactic(auto)]

ghost use Rattle.std.specs.Prelude.{◌≡◌, ◌≤◌, length};
ghost use Rattle.answers.specs.Buffers.{in_front};
ghost use Rattle.answers.specs.Refusals.{longest_pattern};
ghost use Rattle.frames.specs.Frames.{holds, with_holds};

// The frame of a hold by one pattern (motif).
pub const HOLD: u16 = 256;

// Copies each byte of a text to a move.
pub fn write_moves(text: &[u8], frames: &mut [u16])
    requires { length text.now ≤ length frames.old }
    ensures { frames.new ≡ in_front text.now frames.old }
{
    for (at, &byte) in text.iter().enumerate() {
        frames[at] = u16::from(byte);
    }
}

// Sets frame (b + q) modulo n to `hold` for every entry b, q being the hold offset (hold place) and
// n the number of bytes (cards) in the ring.
pub fn mark_holds(hold: u16, found: &[u16], hold_offset: usize, n: usize, frames: &mut [u16])
    requires few { length found.now ≤ n }
    requires room { n ≤ length frames.old }
    requires offset { hold_offset ≤ longest_pattern }
    ensures { frames.new ≡ with_holds hold (holds n hold_offset found.now)
        frames.old }
{
    for &b in found {
        frames[ring::wrapped(usize::from(b) + hold_offset, n)] = hold;
    }
}
