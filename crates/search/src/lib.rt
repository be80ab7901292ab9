// Colussi's search as one call: the tables worked out anew, then the steps, then the bound.
#![tactic(auto)]

ghost use Rattle.search.specs.Search.{SearchFit, SearchOutcomeOf, SearchOutcome};
ghost use Rattle.tables.specs.Buffers.{tables};

use alignment::Prepared;
use answers::Answer;

// Searches where nothing is left to measure.
// The buffers stand apart, as C lends them: a struct of `&mut` would be named in every clause.
pub fn search_within(
    pattern: &[u8],
    text: &[u8],
    order: &mut [i16],
    delta2: &mut [u16],
    delta1: &mut [u16],
    delta3: &mut [u16],
    found: &mut [u16],
) -> Answer
    requires { SearchFit pattern.now text.now
        (tables order.old delta2.old delta1.old delta3.old) found.old }
    ensures { SearchOutcomeOf 0 pattern.now text.now
        (tables order.old delta2.old delta1.old delta3.old)
        (tables order.new delta2.new delta1.new delta3.new)
        found.old found.new result }
{
    let period = prepare::write_tables(pattern, order, delta2, delta1, delta3);
    let job = Prepared {
        pattern,
        text,
        order,
        delta2,
        delta1,
        delta3,
    };
    let counts = run_steps::run_steps(&job, found);
    let h = counts.occurrences;
    let span = ring::span(pattern, text);
    let bound = run_bound::comparison_bound(pattern.len() as u32, span as u32, h, period);
    answers::searched(h, counts.comparisons, period, bound)
}

// Lists every occurrence (find) of the pattern (motif) in the text (chain), counts the comparisons
// (looks), and answers the pattern's period and the bound beside them. Tables that stand in the
// caller's buffers are not trusted: they are worked out anew.
pub fn search(
    pattern: &[u8],
    text: &[u8],
    order: &mut [i16],
    delta2: &mut [u16],
    delta1: &mut [u16],
    delta3: &mut [u16],
    found: &mut [u16],
) -> Answer
    ensures { SearchOutcome pattern.now text.now
        (tables order.old delta2.old delta1.old delta3.old)
        (tables order.new delta2.new delta1.new delta3.new)
        found.old found.new result }
{
    let lengths = tables::lengths(order, delta2, delta1, delta3);
    let n = text.len();
    if let Err(reason) = tables::check(pattern.len(), 0, n, lengths, found.len() < n) {
        return Answer::from(reason);
    }
    search_within(pattern, text, order, delta2, delta1, delta3, found)
}
