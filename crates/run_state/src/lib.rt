// Where the steps stand, and how they go on past the alignments whose first comparison differs.
#![tactic(auto)]

ghost use Rattle.tables.specs.Tables.{stored_Δ1};
ghost use Rattle.alignment.specs.Ready.{Begins, Taken};
ghost use Rattle.run_state.specs.Progress.{Standing, Followed, PassedDiffering};

use alignment::{Inside, Laid, Prepared};

// Where the steps stand: how the pattern is laid next, and what they have counted so far.
// It holds numbers alone: clauses say `Standing` of it and of a job, and `occurrences` is also
// where the next goes in `found`, which C lends.
#[derive(Clone, Copy, Debug, PartialEq, Eq)]
pub struct Progress {
    pub laid: Laid,
    pub occurrences: usize,
    pub comparisons: usize,
}

// Passes over the alignments that end inside the text, as long as their first comparison, that of
// the last position, differs. The next alignment is a repeat only where it ends past the text;
// then none is passed.
pub fn pass_differing(job: &Prepared, begin: Progress) -> Progress
    requires shifts { Begins (stored_Δ1 job.now.pattern.now) job.now.delta1.now }
    requires taken { Taken job.now.pattern.now job.now.text.now }
    requires standing { Standing job.now.pattern.now job.now.text.now begin }
    requires followed { Followed job.now.pattern.now job.now.text.now begin.laid }
    ensures { PassedDiffering job.now.pattern.now job.now.text.now begin result }
{
    let Prepared { pattern, text, .. } = *job;
    let last = pattern.len() - 1;
    let mut b = begin.laid.position;
    let mut s = begin.laid.shift;
    let mut comparisons = begin.comparisons;
    // it moves by shifts, which no range has; that of explain_walk does not count, and has its own
    // invariant: no twin
    while b + last < text.len() && text[b + last] != pattern[last] {
        s = alignment::first_shift::<Inside>(job, b, s);
        b += s;
        comparisons += 1;
    }
    Progress {
        laid: Laid {
            position: b,
            shift: s,
            ..begin.laid
        },
        comparisons,
        ..begin
    }
}
