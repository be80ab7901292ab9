// The steps of a search, run by the pattern's tables: first the alignments that end inside the
// text, then those that wrap around.
#![tactic(auto)]

ghost use Rattle.std.specs.Prelude.{false, ◌≡◌, ◌≤◌, ◌<◌};
ghost use Rattle.alignment.specs.Laid.{laid_first, ComparedSo};
ghost use Rattle.run_state.specs.Progress.{at, Standing, Followed, Moved};
ghost use Rattle.run_state.specs.Ready.{ShiftsReady, RunReady};
ghost use Rattle.run_steps.specs.Run.{RunOutcome};

use alignment::{Laid, Prepared};
use run_state::Progress;

// What the steps come to.
#[derive(Clone, Copy, Debug, PartialEq, Eq)]
pub struct Counts {
    pub occurrences: u32,
    pub comparisons: u32,
}

// Moves on from an alignment by the order of which so many comparisons agreed: by Δ2, and after an
// occurrence, which it lists, by the repeats where the pattern repeats.
fn move_on(job: &Prepared, here: Progress, agreed: usize, found: &mut [u16]) -> Progress
    requires ready { ShiftsReady job.now.pattern.now job.now.text.now
        job.now.delta2.now job.now.delta1.now job.now.delta3.now found.old }
    requires standing { Standing job.now.pattern.now job.now.text.now here }
    requires by_order { here.laid.repeat ≡ false }
    requires compared { ComparedSo job.now.pattern.now job.now.text.now here.laid agreed }
    requires some { 1 ≤ agreed }
    ensures forward { here.laid.position < result.laid.position }
    ensures followed { Followed job.now.pattern.now job.now.text.now result.laid }
    ensures moved { Moved job.now.pattern.now job.now.text.now here result found.old found.new }
{
    let m = job.pattern.len();
    let occurrences = here.occurrences;
    let s = usize::from(job.delta2[agreed]);
    if agreed < m {
        return Progress {
            laid: here.laid.after(s, false),
            comparisons: here.comparisons + agreed + 1,
            ..here
        };
    }
    found[occurrences] = here.laid.position as u16;
    let repeat = 3 * s <= m;
    let next = Progress {
        laid: here.laid.after(s, repeat),
        occurrences: occurrences + 1,
        comparisons: here.comparisons + m,
    };
    if !repeat {
        return next;
    }
    run_repeats::follow_repeats(job, s, next, found)
}

// Every alignment that ends inside the text: lists the occurrences, counts, and tells where the
// steps stand then. The text's end ends both loops, and the order's -1 the comparisons of an
// occurrence.
fn run_inside(job: &Prepared, found: &mut [u16]) -> Progress
    requires { RunReady job.now.pattern.now job.now.text.now job.now.order.now
        job.now.delta2.now job.now.delta1.now job.now.delta3.now found.old }
    ensures { Moved job.now.pattern.now job.now.text.now
        (at (laid_first job.now.pattern.now) 0 0) result found.old found.new }
{
    let Prepared {
        pattern,
        text,
        order,
        ..
    } = *job;
    let m = pattern.len();
    let mut run = Progress {
        laid: Laid {
            position: 0,
            shift: m,
            repeat: false,
        },
        occurrences: 0,
        comparisons: 0,
    };
    'alignments: loop {
        run = run_state::pass_differing(job, run);
        let b = run.laid.position;
        // Document 01's form, a labelled loop with a labelled break: the index is counted by hand.
        let mut i = 1;
        let agreed = loop {
            if text.len() < b + m {
                break 'alignments;
            }
            let h = order[i];
            if h < 0 {
                break i;
            }
            let at = h as usize;
            if pattern[at] != text[b + at] {
                break i;
            }
            i += 1;
        };
        run = move_on(job, run, agreed, found);
    }
    run
}

// Every alignment of the pattern: lists the occurrences and counts.
pub fn run_steps(job: &Prepared, found: &mut [u16]) -> Counts
    requires { RunReady job.now.pattern.now job.now.text.now job.now.order.now
        job.now.delta2.now job.now.delta1.now job.now.delta3.now found.old }
    ensures { RunOutcome job.now.pattern.now job.now.text.now found.old found.new result }
{
    let seam = run_inside(job, found);
    let run = run_wrapping::run_wrapping(job, seam, found);
    Counts {
        occurrences: run.occurrences as u32,
        comparisons: run.comparisons as u32,
    }
}
