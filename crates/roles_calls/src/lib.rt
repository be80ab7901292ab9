// The jobs behind a role: each is the call with a table of rules, behind the test of the role. A
// role is the number that C passes, and the buffers stand apart, as C lends them.
#![tactic(auto)]

ghost use Rattle.roles_calls.specs.Calls.{ConvertAsOutcome, RestoreAsOutcome};
ghost use Rattle.roles_calls.specs.Calls.{ExplainAsOutcome, PriceAsOutcome};
ghost use Rattle.roles_calls.specs.Calls.{EditAsOutcome};
ghost use Rattle.tables.specs.Buffers.{tables};

use answers::Answer;
use explain_answers::ExplainAnswer;
use price::PriceAnswer;
use roles::Job;
use rules_answers::RulesAnswer;

// Converts a text (chain) to frames by a table of rules, where the role may.
pub fn convert_as(
    role: u32,
    rules: &[u8; 2081],
    text: &[u8],
    order: &mut [i16],
    delta2: &mut [u16],
    delta1: &mut [u16],
    delta3: &mut [u16],
    found: &mut [u16],
    frames: &mut [u16],
) -> RulesAnswer
    ensures { ConvertAsOutcome role rules.now text.now
        (tables order.old delta2.old delta1.old delta3.old)
        (tables order.new delta2.new delta1.new delta3.new)
        found.old found.new frames.old frames.new result }
{
    if let Err(reason) = roles::check_role(role, Job::Convert) {
        return RulesAnswer::from(reason);
    }
    convert_rules::convert_rules(rules, text, order, delta2, delta1, delta3, found, frames)
}

// Puts the frames of a conversion by a table of rules back to the text (chain), where the role may.
pub fn restore_as(role: u32, rules: &[u8; 2081], frames: &[u16], text: &mut [u8]) -> Answer
    ensures { RestoreAsOutcome role rules.now frames.now text.old
        text.new result }
{
    if let Err(reason) = roles::check_role(role, Job::Restore) {
        return Answer::from(reason);
    }
    restore_rules::restore_rules(rules, frames, text)
}

// Explains why a position of the text (place of the chain) has no hold of one rule, where the role
// may.
pub fn explain_as(
    role: u32,
    number: u32,
    position: u32,
    rules: &[u8; 2081],
    text: &[u8],
    order: &mut [i16],
    delta2: &mut [u16],
    delta1: &mut [u16],
    delta3: &mut [u16],
) -> ExplainAnswer
    ensures { ExplainAsOutcome role number position rules.now text.now
        (tables order.old delta2.old delta1.old delta3.old)
        (tables order.new delta2.new delta1.new delta3.new) result }
{
    if let Err(reason) = roles::check_role(role, Job::Explain) {
        return ExplainAnswer::from(reason);
    }
    explain_rule::explain_rule(number, position, rules, text, order, delta2, delta1, delta3)
}

// Prices a text (chain) that is converted by a table of rules, where the role may.
pub fn price_as(
    role: u32,
    rules: &[u8; 2081],
    text: &[u8],
    order: &mut [i16],
    delta2: &mut [u16],
    delta1: &mut [u16],
    delta3: &mut [u16],
    found: &mut [u16],
) -> PriceAnswer
    ensures { PriceAsOutcome role rules.now text.now
        (tables order.old delta2.old delta1.old delta3.old)
        (tables order.new delta2.new delta1.new delta3.new)
        found.old found.new result }
{
    if let Err(reason) = roles::check_role(role, Job::Price) {
        return PriceAnswer::from(reason);
    }
    price_rules::price_rules(rules, text, order, delta2, delta1, delta3, found)
}

// Puts a new pattern (motif) and hold offset (hold place) in one rule of a table, where the role
// may.
pub fn edit_as(
    role: u32,
    number: u32,
    hold_offset: u32,
    pattern: &[u8],
    rules: &mut [u8; 2081],
) -> Answer
    ensures { EditAsOutcome role number hold_offset pattern.now rules.old
        rules.new result }
{
    if let Err(reason) = roles::check_role(role, Job::Edit) {
        return Answer::from(reason);
    }
    edit_rule::edit_rule(number, hold_offset, pattern, rules)
}
