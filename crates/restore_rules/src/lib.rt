// Frames put back to the bytes that they were converted from, by a table of rules.
#![tactic(auto)]

ghost use Rattle.std.specs.Prelude.{cond, IfOk, ◌≡◌, ◌≤◌, length};
ghost use Rattle.answers.specs.Buffers.{in_front};
ghost use Rattle.answers.specs.Reasons.{status_of};
ghost use Rattle.answers.specs.Refusals.{first_of};
ghost use Rattle.rules.specs.Rules.{rules_of};
ghost use Rattle.rules_conversions.specs.Conversions.{restored, is_conversion};
ghost use Rattle.restore_rules.specs.RestoreRules.{measured, RestoreRulesOutcome};

use answers::{Answer, Reason};
use rules::RuleTable;

// 11, 4 and 5 of each rule, 6 and 7: all that is measured before the frames are read.
fn check_measured<'a>(
    rules: &'a [u8; 2081],
    n: usize,
    text_len: usize,
) -> Result<RuleTable<'a>, Reason>
    ensures status { status_of result ≡ first_of (measured rules.now n text_len) }
    ensures table { IfOk result (λ table. table ≡ rules.now) }
{
    let table = RuleTable::checked(rules)?;
    answers::check_text(n)?;
    if text_len < n {
        return Err(Reason::ShortBuffer);
    }
    Ok(table)
}

// Puts frames back, or refuses them with 9 where they are no conversion and leaves the buffer.
fn restore_measured(rules: &RuleTable, frames: &[u16], text: &mut [u8]) -> Result<(), Reason>
    requires { length frames.now ≤ length text.old }
    ensures status { status_of result ≡ cond
        (is_conversion (rules_of rules.now) frames.now) 0 9 }
    ensures text { text.new ≡ cond
        (is_conversion (rules_of rules.now) frames.now)
        (in_front (restored (rules_of rules.now) frames.now) text.old)
        text.old }
{
    let count = rules.count();
    let entries = rules_conversions::held_bytes(rules);
    let bytes = &entries[..count + 1];
    if !rules_conversions::is_conversion(rules, bytes, frames) {
        return Err(Reason::NoConversion);
    }
    restore::write_restored(&bytes[1..], frames, text);
    Ok(())
}

// Puts the frames of a conversion by a table of rules back to the text (chain) that was converted.
pub fn restore_rules(rules: &[u8; 2081], frames: &[u16], text: &mut [u8]) -> Answer
    ensures { RestoreRulesOutcome rules.now frames.now text.old
        text.new result }
{
    let table = match check_measured(rules, frames.len(), text.len()) {
        Ok(table) => table,
        Err(reason) => return Answer::from(reason),
    };
    match restore_measured(&table, frames, text) {
        Ok(()) => Answer::default(),
        Err(reason) => Answer::from(reason),
    }
}
