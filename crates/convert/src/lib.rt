// Conversion to frames: the search, then the moves and the holds. The buffers stand apart, as C
// lends them.
#![tactic(auto)]

ghost use Rattle.convert.specs.Convert.{ConvertOutcome};
ghost use Rattle.convert.specs.Within.{FramesReady, FramesWritten};
ghost use Rattle.tables.specs.Buffers.{tables};

use answers::Answer;

// Writes the frames of a text that has been searched: a move for each byte, and a hold for each
// occurrence (find).
pub fn write_frames(
    searched: Answer,
    hold_offset: usize,
    text: &[u8],
    found: &[u16],
    frames: &mut [u16],
) -> Answer
    requires { FramesReady searched.occurrences hold_offset text.now found.now
        frames.old }
    ensures { FramesWritten searched hold_offset text.now found.now
        frames.old frames.new result }
{
    let h = searched.occurrences as usize;
    frames::write_moves(text, frames);
    frames::mark_holds(frames::HOLD, &found[..h], hold_offset, text.len(), frames);
    answers::converted(searched, ones::ones_of(text))
}

// Converts a text (chain) to frames, by a pattern (motif) and a hold offset (hold place).
pub fn convert(
    hold_offset: u32,
    pattern: &[u8],
    text: &[u8],
    order: &mut [i16],
    delta2: &mut [u16],
    delta1: &mut [u16],
    delta3: &mut [u16],
    found: &mut [u16],
    frames: &mut [u16],
) -> Answer
    ensures { ConvertOutcome hold_offset pattern.now text.now
        (tables order.old delta2.old delta1.old delta3.old)
        (tables order.new delta2.new delta1.new delta3.new)
        found.old found.new frames.old frames.new result }
{
    let lengths = tables::lengths(order, delta2, delta1, delta3);
    let hold_offset = hold_offset as usize;
    let n = text.len();
    let short = (found.len() < n) | (frames.len() < n);
    if let Err(reason) = tables::check(pattern.len(), hold_offset, n, lengths, short) {
        return Answer::from(reason);
    }
    let searched = search::search_within(pattern, text, order, delta2, delta1, delta3, found);
    write_frames(searched, hold_offset, text, found, frames)
}
