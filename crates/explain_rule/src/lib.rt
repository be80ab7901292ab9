// Why a position has no hold, by one rule of a table: the rule is named by its number, and the
// position is explained by its pattern (motif). The buffers stand apart, as C lends them.
#![tactic(auto)]

ghost use Rattle.tables.specs.Buffers.{tables};
ghost use Rattle.explain_rule.specs.ExplainRule.{ExplainRuleOutcome};

use explain_answers::ExplainAnswer;
use rules::RuleTable;

// Explains why a position of the text (place of the chain) has no hold by the rule of this number.
// The caller's buffers need that rule's sizes only.
pub fn explain_rule(
    number: u32,
    position: u32,
    rules: &[u8; 2081],
    text: &[u8],
    order: &mut [i16],
    delta2: &mut [u16],
    delta1: &mut [u16],
    delta3: &mut [u16],
) -> ExplainAnswer
    ensures { ExplainRuleOutcome number position rules.now text.now
        (tables order.old delta2.old delta1.old delta3.old)
        (tables order.new delta2.new delta1.new delta3.new) result }
{
    match RuleTable::naming(rules, number) {
        Ok(table) => {
            let pattern = table.pattern(number as usize - 1);
            explain::explain(position, pattern, text, order, delta2, delta1, delta3)
        }
        Err(reason) => ExplainAnswer::from(reason),
    }
}
