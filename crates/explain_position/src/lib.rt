// A position explained by the tables of a pattern: a walk to the alignment that reaches it, and
// what that tells.
#![tactic(auto)]

ghost use Rattle.std.specs.Prelude.{◌≡◌};
ghost use Rattle.explain_meaning.specs.Explanation.{kind_by, explanation_in};
ghost use Rattle.explain_walk.specs.Reach.{ReachReady};

use alignment::Prepared;
use explain_answers::{Explanation, ShiftKind};

// The kind of an alignment's shift, by whether it is a repeat and how many of its row's positions
// agreed.
fn kind_of(repeat: bool, agreed: usize, count: usize) -> ShiftKind
    ensures { result ≡ kind_by repeat agreed count }
{
    if agreed == count {
        return ShiftKind::AfterOccurrence;
    }
    if repeat {
        return ShiftKind::LongRepeat;
    }
    if agreed == 0 {
        return ShiftKind::LastByte;
    }
    ShiftKind::Order
}

// Explains position b by the alignment that reaches it.
pub fn explain_at(job: &Prepared, p: usize, b: usize) -> Explanation
    requires { ReachReady job.now.pattern.now job.now.text.now job.now.order.now
        job.now.delta2.now job.now.delta1.now job.now.delta3.now p b }
    ensures { result ≡ explanation_in b job.now.pattern.now job.now.text.now }
{
    let reached = explain_walk::reach(job, p, b);
    let repeat = reached.laid.repeat;
    let agreed = reached.agreed;
    let count = alignment::row_length(job.pattern, p, repeat);
    if reached.laid.position < b {
        return Explanation::PassedOver {
            from: reached.laid.position as u32,
            spoilt: reached.spoilt as u32,
            kind: kind_of(repeat, agreed, count),
        };
    }
    if agreed == count {
        return Explanation::Listed;
    }
    Explanation::Tried(alignment::row_entry(job.pattern, job.order, repeat, agreed) as u32)
}
