// The price of a job by a table of rules: the searches, and then the tariff.
#![tactic(auto)]

ghost use Rattle.std.specs.Prelude.{◌≡◌, ◌≤◌};
ghost use Rattle.answers.specs.Refusals.{longest_text};
ghost use Rattle.price_rules.specs.PriceRules.{occurrences_told, PriceRulesOutcome};
ghost use Rattle.tables.specs.Buffers.{tables};

use price::PriceAnswer;
use rules_answers::RuleAnswer;

// The occurrences (finds) that are told of the rules, summed up.
fn occurrences_told(answers: &[RuleAnswer]) -> u32
    requires { occurrences_told answers.now ≤ longest_text }
    ensures { result ≡ occurrences_told answers.now }
{
    answers.iter().map(|answer| answer.occurrences).sum()
}

// Prices a text (chain) that is converted by a table of rules. Each occurrence (find) of each rule
// has a hold of its own, so that the holds need not be written to be counted.
// The buffers stand apart, as C lends them.
pub fn price_rules(
    rules: &[u8; 2081],
    text: &[u8],
    order: &mut [i16],
    delta2: &mut [u16],
    delta1: &mut [u16],
    delta3: &mut [u16],
    found: &mut [u16],
) -> PriceAnswer
    ensures { PriceRulesOutcome rules.now text.now
        (tables order.old delta2.old delta1.old delta3.old)
        (tables order.new delta2.new delta1.new delta3.new)
        found.old found.new result }
{
    let lengths = tables::lengths(order, delta2, delta1, delta3);
    let rules = match rules_status::check(rules, text, lengths, found.len() < text.len()) {
        Ok(rules) => rules,
        Err(reason) => return PriceAnswer::from(reason),
    };
    let told = rules_searches::search_all(&rules, text, order, delta2, delta1, delta3, found);
    PriceAnswer {
        pence: price_tariff::cost_by_holds(text, occurrences_told(&told)),
        ..PriceAnswer::default()
    }
}
