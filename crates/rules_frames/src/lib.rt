// Frames by a table of rules: a move for each byte of a text, and the holds of each rule.
#![tactic(auto)]

ghost use Rattle.std.specs.Prelude.{◌≡◌};
ghost use Rattle.answers.specs.Buffers.{in_front};
ghost use Rattle.rules.specs.Rules.{rules_of};
ghost use Rattle.rules_frames.specs.RuleFrames.{rule_frames};
ghost use Rattle.rules_frames.specs.Within.{RuleFramesReady};

use rules::RuleTable;
use rules_answers::RuleAnswer;

// Writes the frames of a text (chain) that has been searched by each rule: a move for each byte
// (card), and 256 times the rule's number for each occurrence (find).
pub fn write_frames(
    rules: &RuleTable,
    answers: [RuleAnswer; 16],
    text: &[u8],
    found: &[u16],
    frames: &mut [u16],
)
    requires { RuleFramesReady rules.now text.now answers found.now frames.old }
    ensures { frames.new ≡ in_front (rule_frames (rules_of rules.now) text.now)
        frames.old }
{
    frames::write_moves(text, frames);
    // where a rule's occurrences begin, which go on by their number: `split_at` is no plainer
    let mut at = 0;
    for (i, answer) in answers[..rules.count()].iter().enumerate() {
        let hold = frames::HOLD * (i as u16 + 1);
        let end = at + answer.occurrences as usize;
        let q = rules.hold_offset(i);
        frames::mark_holds(hold, &found[at..end], q, text.len(), frames);
        at = end;
    }
}
