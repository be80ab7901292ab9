// Which frames are a conversion: the walk over the bytes that they are put back to.
#![tactic(auto)]

ghost use Rattle.std.specs.Prelude.{ℕ, ◌≡◌, true, ◌+◌, ◌-◌, ◌<◌, ◌≤◌, length, get_or};
ghost use Rattle.answers.specs.Refusals.{longest_pattern};
ghost use Rattle.restore_conversions.specs.Restored.{is_frame, restored_byte, all_restored};
ghost use Rattle.restore_conversions.specs.Restored.{is_conversion};
ghost use Rattle.restore_conversions.specs.Walk.{AllFrames, frame_at, behind, ZeroFirst};
ghost use Rattle.restore_conversions.specs.Walk.{WalkReady, Walked, WalkTold, rule_right};
ghost use Rattle.restore_prefixes.specs.Prefixes.{longest_prefix};
ghost use Rattle.steps.specs.Text.{shown};
ghost use Rattle.tables.specs.Least.{all_from};

use frames::HOLD;

// The byte that a frame is put back to, `held` being the bytes that the rules hold. One rule's is a
// choice between two values, with no index.
pub fn restored_byte(held: &[u8], frame: u16) -> u8
    requires { is_frame (length held.now) frame ≡ true }
    ensures { result ≡ restored_byte held.now frame }
{
    if held.len() == 1 {
        if frame == HOLD { held[0] } else { frame as u8 }
    } else if frame < HOLD {
        frame as u8
    } else {
        held[usize::from(frame / HOLD) - 1]
    }
}

// Whether a number is a frame, a move or a hold of one of `count` rules. One rule's are those up to
// its hold.
fn is_frame(count: u16, frame: u16) -> bool
    ensures { result ≡ is_frame count frame }
{
    if count == 1 {
        frame <= HOLD
    } else {
        (frame < HOLD) | ((frame % HOLD == 0) & (frame / HOLD <= count))
    }
}

// Whether each entry is a frame by `count` rules. All are tested, so that the loop has no way out
// before its end.
pub fn all_frames(count: u16, frames: &[u16]) -> bool
    ensures { result ≡ all_from (length frames.now) 0
        (λ i. is_frame count (get_or frames.now i 0)) }
{
    let mut all = true;
    for &frame in frames {
        all &= is_frame(count, frame);
    }
    all
}

// The walk of one rule over frames: the frame of its holds, its hold offset, its pattern with all
// its links, and a 0 and then the bytes that all rules hold. Nothing compares or copies it.
#[derive(Drop)]
struct Walk<'a> {
    hold: u16,
    hold_offset: usize,
    pattern: &'a [u8],
    links: &'a [u8],
    bytes: &'a [u8],
    frames: &'a [u16],
    ghost ready: { WalkReady bytes.now pattern.now links.now frames.now },
    ghost some: { 1 ≤ length frames.now },
    ghost offset: { hold_offset < length pattern.now },
}

impl<'a> Walk<'a> {
    // The byte that a frame is put back to, with no jump: a hold of rule k finds its byte at k, and
    // a move, which is its own byte, the 0.
    fn numbered_byte(&self, frame: u16) -> u8
        requires { is_frame (length (behind self.now.bytes.now)) frame ≡ true }
        ensures { result ≡ restored_byte (behind self.now.bytes.now) frame }
    {
        (frame % HOLD) as u8 + self.bytes[usize::from(frame / HOLD)]
    }

    // The frame at position x of the ring.
    fn frame_at(&self, x: usize) -> u16
        ensures { result ≡ frame_at self.now.frames.now x }
    {
        self.frames[ring::wrapped(x, self.frames.len())]
    }

    // The longest prefix of the pattern that ends after the first `count` positions of the ring, by
    // the bytes put back.
    fn prefix_after(&self, count: usize) -> usize
        ensures { result ≡ longest_prefix
            (shown (all_restored (behind self.now.bytes.now) self.now.frames.now))
            self.now.pattern.now count }
    {
        restore_prefixes::prefix_after(self.pattern, self.links, count, |x| {
            self.numbered_byte(self.frame_at(x))
        })
    }

    // Walks over the positions b from `start` to `end`, `prefix` being the length of the longest
    // prefix that ends before start + m - 1: frame b + q, q being the hold offset (hold place), is
    // `hold` just where the whole pattern, which is longer than its last position, ends before
    // b + m. The length of the longest prefix that ends then, or none where a hold is not right.
    // `read` reads the frames.
    fn walked<F: Fn(usize) -> u16>(
        &self,
        start: usize,
        end: usize,
        prefix: usize,
        read: F,
    ) -> Option<usize>
        requires forward { start ≤ end }
        requires inside { end ≤ length self.now.frames.now }
        requires walked { Walked self.now.hold self.now.hold_offset self.now.pattern.now
            (behind self.now.bytes.now) self.now.frames.now start prefix }
        requires reads { (b j : ℕ) → b < end → j < length self.now.pattern.now
            → F.pre read (b + j) }
        requires frames { (b j frame : ℕ) → b < end → j < length self.now.pattern.now
            → F.post read (b + j) frame → frame ≡ frame_at self.now.frames.now (b + j) }
        ensures { WalkTold self.now.hold self.now.hold_offset self.now.pattern.now
            (behind self.now.bytes.now) self.now.frames.now end result }
    {
        let last = self.pattern.len() - 1;
        let mut prefix = prefix;
        for b in start..end {
            let is_hold = read(b + self.hold_offset) == self.hold;
            let byte = self.numbered_byte(read(b + last));
            prefix = restore_prefixes::extended(self.pattern, self.links, prefix, byte);
            if is_hold != (last < prefix) {
                return None;
            }
        }
        Some(prefix)
    }

    // Whether the holds of the rule are right: frame (b + q) modulo n is `hold` just where the
    // whole pattern ends before b + m, for each b below n. The first m - 1 positions, in which it
    // does not end, are walked before. For the first `inside` b, nearly all, it ends inside the
    // frames, which are read as they stand, with no remainder, and then around the ring. Of six
    // frames and a pattern of three bytes it ends inside for b from 0 to 3, and around for 4 and 5.
    fn holds_match(&self) -> bool
        ensures { result ≡ rule_right self.now.hold self.now.hold_offset self.now.pattern.now
            (behind self.now.bytes.now) self.now.frames.now }
    {
        let last = self.pattern.len() - 1;
        let n = self.frames.len();
        let inside = n.saturating_sub(last);
        let prefix = self.prefix_after(last);
        let Some(prefix) = self.walked(0, inside, prefix, |x| self.frames[x]) else {
            return false;
        };
        self.walked(inside, n, prefix, |x| self.frame_at(x))
            .is_some()
    }
}

// Whether the holds of one of some rules are right in frames by them; `hold` is the frame of its
// holds, and `bytes` is a 0 and then the bytes that all of them hold.
pub fn rule_matches(
    hold: u16,
    hold_offset: usize,
    pattern: &[u8],
    bytes: &[u8],
    frames: &[u16],
) -> bool
    requires offset { hold_offset < length pattern.now }
    requires short_pattern { length pattern.now ≤ longest_pattern }
    requires zero { ZeroFirst bytes.now }
    requires frames { AllFrames (length (behind bytes.now)) frames.now }
    ensures { result ≡ rule_right hold hold_offset pattern.now (behind bytes.now)
        frames.now }
{
    if frames.is_empty() {
        return true;
    }
    let links = restore_prefixes::links(pattern);
    let walk = Walk {
        hold,
        hold_offset,
        pattern,
        links: &links,
        bytes,
        frames,
    };
    walk.holds_match()
}

// Whether frames are a conversion by one pattern; no frames are that of an empty text.
pub fn is_conversion(hold_offset: usize, pattern: &[u8], frames: &[u16]) -> bool
    requires offset { hold_offset < length pattern.now }
    requires short_pattern { length pattern.now ≤ longest_pattern }
    ensures { result ≡ is_conversion hold_offset pattern.now frames.now }
{
    if !all_frames(1, frames) {
        return false;
    }
    let bytes = [0, pattern[hold_offset]];
    rule_matches(HOLD, hold_offset, pattern, &bytes, frames)
}
