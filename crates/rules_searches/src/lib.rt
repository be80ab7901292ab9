// A search for each rule of a table, one after another in the caller's buffers.
#![tactic(auto)]

ghost use Rattle.rules_searches.specs.Parts.{PartFit, PartSearched};
ghost use Rattle.rules_searches.specs.Searches.{RulesFit, RulesSearched};
ghost use Rattle.tables.specs.Buffers.{tables};

use answers::Answer;
use rules::RuleTable;
use rules_answers::RuleAnswer;

// What the rules before one take: its tables and its occurrences stand after theirs.
#[derive(Clone, Copy, Debug, Default, PartialEq, Eq)]
struct Before {
    // how many they are
    rules: usize,
    // the bytes of their patterns
    bytes: usize,
    // their occurrences (finds)
    occurrences: usize,
}

// Searches for the rule with this pattern, after those before it.
// The buffers stand apart, as C lends them.
fn search_part(
    pattern: &[u8],
    text: &[u8],
    before: Before,
    order: &mut [i16],
    delta2: &mut [u16],
    delta1: &mut [u16],
    delta3: &mut [u16],
    found: &mut [u16],
) -> Answer
    requires { PartFit pattern.now text.now before
        (tables order.old delta2.old delta1.old delta3.old) found.old }
    ensures { PartSearched pattern.now text.now before
        (tables order.old delta2.old delta1.old delta3.old)
        (tables order.new delta2.new delta1.new delta3.new)
        found.old found.new result }
{
    let at = before.bytes + before.rules;
    let at1 = 256 * before.bytes;
    search::search_within(
        pattern,
        text,
        &mut order[at..],
        &mut delta2[at..],
        &mut delta1[at1..],
        &mut delta3[before.bytes..],
        &mut found[before.occurrences..],
    )
}

// Searches for each rule, one after another, where nothing is left to measure.
// The buffers stand apart, as C lends them.
pub fn search_all(
    rules: &RuleTable,
    text: &[u8],
    order: &mut [i16],
    delta2: &mut [u16],
    delta1: &mut [u16],
    delta3: &mut [u16],
    found: &mut [u16],
) -> [RuleAnswer; 16]
    requires { RulesFit rules.now text.now
        (tables order.old delta2.old delta1.old delta3.old) found.old }
    ensures { RulesSearched rules.now text.now
        (tables order.old delta2.old delta1.old delta3.old)
        (tables order.new delta2.new delta1.new delta3.new)
        found.old found.new result }
{
    let mut answers = rules_answers::none_told();
    let mut before = Before::default();
    for (i, answer) in answers[..rules.count()].iter_mut().enumerate() {
        let pattern = rules.pattern(i);
        let searched = search_part(pattern, text, before, order, delta2, delta1, delta3, found);
        before.rules += 1;
        before.bytes += pattern.len();
        before.occurrences += searched.occurrences as usize;
        *answer = RuleAnswer::from(searched);
    }
    answers
}
