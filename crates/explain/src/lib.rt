// Why a position has no hold, as one call: the tables worked out anew, and the position explained
// by them. The tables' buffers stand apart, as C lends them.
#![tactic(auto)]

ghost use Rattle.std.specs.Prelude.{◌≡◌};
ghost use Rattle.answers.specs.Reasons.{status_of};
ghost use Rattle.tables.specs.Buffers.{tables};
ghost use Rattle.explain.specs.Explain.{explain_status, explain_status_of, ExplainOutcome};

use alignment::Prepared;
use answers::Reason;
use explain_answers::ExplainAnswer;
use tables::TableLengths;

// What is measured before a position is explained: 4, 6 and 7, then 10.
fn check(m: usize, n: usize, position: u32, lengths: TableLengths) -> Result<(), Reason>
    ensures { status_of result ≡ explain_status m n position lengths }
{
    tables::check(m, 0, n, lengths, false)?;
    if n <= position as usize {
        return Err(Reason::Position);
    }
    Ok(())
}

// Explains a position where nothing is left to measure.
pub fn explain_within(
    position: u32,
    pattern: &[u8],
    text: &[u8],
    order: &mut [i16],
    delta2: &mut [u16],
    delta1: &mut [u16],
    delta3: &mut [u16],
) -> ExplainAnswer
    requires { explain_status_of position pattern.now text.now
        (tables order.old delta2.old delta1.old delta3.old) ≡ 0 }
    ensures { ExplainOutcome position pattern.now text.now
        (tables order.old delta2.old delta1.old delta3.old)
        (tables order.new delta2.new delta1.new delta3.new) result }
{
    let p = prepare::write_tables(pattern, order, delta2, delta1, delta3) as usize;
    let job = Prepared {
        pattern,
        text,
        order,
        delta2,
        delta1,
        delta3,
    };
    let told = explain_position::explain_at(&job, p, position as usize);
    ExplainAnswer::from(told)
}

// Explains why a position of the text (place of the chain) has no hold. Tables that stand in the
// caller's buffers are not trusted: they are worked out anew.
pub fn explain(
    position: u32,
    pattern: &[u8],
    text: &[u8],
    order: &mut [i16],
    delta2: &mut [u16],
    delta1: &mut [u16],
    delta3: &mut [u16],
) -> ExplainAnswer
    ensures { ExplainOutcome position pattern.now text.now
        (tables order.old delta2.old delta1.old delta3.old)
        (tables order.new delta2.new delta1.new delta3.new) result }
{
    let lengths = tables::lengths(order, delta2, delta1, delta3);
    if let Err(reason) = check(pattern.len(), text.len(), position, lengths) {
        return ExplainAnswer::from(reason);
    }
    explain_within(position, pattern, text, order, delta2, delta1, delta3)
}
