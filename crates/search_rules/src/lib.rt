// A search with a table of rules as one call: measured first, then each rule, one after another.
#![tactic(auto)]

ghost use Rattle.search_rules.specs.SearchRules.{SearchRulesOutcome};
ghost use Rattle.tables.specs.Buffers.{tables};

use rules_answers::RulesAnswer;

// Lists every occurrence (find) of each rule's pattern (motif) in the text (chain), one rule's
// after another's, and answers for each rule what a search for it alone answers, and whether it
// found nothing. Nothing is written before all is measured.
// The buffers stand apart, as C lends them.
pub fn search_rules(
    rules: &[u8; 2081],
    text: &[u8],
    order: &mut [i16],
    delta2: &mut [u16],
    delta1: &mut [u16],
    delta3: &mut [u16],
    found: &mut [u16],
) -> RulesAnswer
    ensures { SearchRulesOutcome rules.now text.now
        (tables order.old delta2.old delta1.old delta3.old)
        (tables order.new delta2.new delta1.new delta3.new)
        found.old found.new result }
{
    let lengths = tables::lengths(order, delta2, delta1, delta3);
    match rules_status::check(rules, text, lengths, found.len() < text.len()) {
        Ok(rules) => RulesAnswer {
            status: 0,
            ones: 0,
            rules: rules_searches::search_all(&rules, text, order, delta2, delta1, delta3, found),
        },
        Err(reason) => RulesAnswer::from(reason),
    }
}
