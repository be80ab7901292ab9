// Frames put back to the bytes that they were converted from.
#![tactic(auto)]

ghost use Rattle.std.specs.Prelude.{◌≡◌, ◌≤◌, length};
ghost use Rattle.answers.specs.Buffers.{in_front};
ghost use Rattle.answers.specs.Reasons.{status_of};
ghost use Rattle.restore_conversions.specs.Restored.{all_restored};
ghost use Rattle.restore_conversions.specs.Walk.{AllFrames};
ghost use Rattle.restore.specs.Restore.{restore_status, RestoreOutcome};

use answers::{Answer, Reason};

// Puts frames back into the first entries of a buffer, `held` being the bytes that the rules hold.
pub fn write_restored(held: &[u8], frames: &[u16], text: &mut [u8])
    requires frames { AllFrames (length held.now) frames.now }
    requires room { length frames.now ≤ length text.old }
    ensures { text.new ≡ in_front (all_restored held.now frames.now)
        text.old }
{
    for (at, &frame) in frames.iter().enumerate() {
        text[at] = restore_conversions::restored_byte(held, frame);
    }
}

// The refusals of putting back, decided before anything is written.
fn check_restore(
    hold_offset: u32,
    pattern: &[u8],
    frames: &[u16],
    text_len: usize,
) -> Result<(), Reason>
    ensures { status_of result ≡ restore_status hold_offset pattern.now frames.now
        text_len }
{
    let hold_offset = hold_offset as usize;
    let n = frames.len();
    answers::check_job(pattern.len(), hold_offset, n)?;
    if text_len < n {
        return Err(Reason::ShortBuffer);
    }
    if !restore_conversions::is_conversion(hold_offset, pattern, frames) {
        return Err(Reason::NoConversion);
    }
    Ok(())
}

// Puts the frames of a conversion back to the text (chain) that was converted, by its pattern
// (motif) and hold offset (hold place).
pub fn restore(hold_offset: u32, pattern: &[u8], frames: &[u16], text: &mut [u8]) -> Answer
    ensures { RestoreOutcome hold_offset pattern.now frames.now
        text.old text.new result }
{
    if let Err(reason) = check_restore(hold_offset, pattern, frames, text.len()) {
        return Answer::from(reason);
    }
    let held = [pattern[hold_offset as usize]];
    write_restored(&held, frames, text);
    Answer::default()
}
