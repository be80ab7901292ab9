// The alignments that go past the text's end and around to its first bytes, one at a time.
#![tactic(auto)]

ghost use Rattle.std.specs.Prelude.{◌≤◌, ◌<◌, length};
ghost use Rattle.steps.specs.Occurrences.{occurrences};
ghost use Rattle.alignment.specs.Ready.{ShiftTablesReady};
ghost use Rattle.alignment.specs.Laid.{ComparedSo};
ghost use Rattle.run_state.specs.Progress.{Standing, Moved};
ghost use Rattle.run_state.specs.Ready.{RunReady};

use alignment::Prepared;
use run_state::Progress;

// Moves on from an alignment of which so many comparisons agreed, p the pattern's period: counts,
// lists an occurrence, and lays the pattern anew.
fn move_around(
    job: &Prepared,
    p: usize,
    here: Progress,
    agreed: usize,
    found: &mut [u16],
) -> Progress
    requires ready { ShiftTablesReady job.now.pattern.now job.now.text.now
        job.now.delta2.now job.now.delta1.now job.now.delta3.now p }
    requires room { length (occurrences job.now.pattern.now job.now.text.now) ≤ length found.old }
    requires standing { Standing job.now.pattern.now job.now.text.now here }
    requires compared { ComparedSo job.now.pattern.now job.now.text.now here.laid agreed }
    ensures forward { here.laid.position < result.laid.position }
    ensures moved { Moved job.now.pattern.now job.now.text.now here result found.old found.new }
{
    let laid = alignment::laid_after(job, p, here.laid, agreed);
    let mut occurrences = here.occurrences;
    let mut comparisons = here.comparisons + agreed;
    if agreed == alignment::row_length(job.pattern, p, here.laid.repeat) {
        found[occurrences] = here.laid.position as u16;
        occurrences += 1;
    } else {
        comparisons += 1;
    }
    Progress {
        laid,
        occurrences,
        comparisons,
    }
}

// Goes by every alignment from where the steps stand up to the text's last byte: lists the
// occurrences and counts. Past that byte the pattern would go past what is shown, which ends both
// loops. The period stands in Δ2 after its last entry for a position.
pub fn run_wrapping(job: &Prepared, begin: Progress, found: &mut [u16]) -> Progress
    requires ready { RunReady job.now.pattern.now job.now.text.now job.now.order.now
        job.now.delta2.now job.now.delta1.now job.now.delta3.now found.old }
    requires standing { Standing job.now.pattern.now job.now.text.now begin }
    ensures past { length job.now.text.now ≤ result.laid.position }
    ensures moved { Moved job.now.pattern.now job.now.text.now begin result found.old found.new }
{
    let Prepared {
        pattern,
        text,
        order,
        delta2,
        ..
    } = *job;
    let p = usize::from(delta2[pattern.len()]);
    let mut run = begin;
    'alignments: loop {
        let b = run.laid.position;
        let repeat = run.laid.repeat;
        let count = alignment::row_length(pattern, p, repeat);
        // Document 01's form, a labelled loop with a labelled break: the index is counted by hand.
        let mut i = 0;
        let agreed = loop {
            if i == count {
                break i;
            }
            if text.len() <= b {
                break 'alignments;
            }
            let at = alignment::row_entry(pattern, order, repeat, i);
            if pattern[at] != ring::byte_at(text, b + at) {
                break i;
            }
            i += 1;
        };
        run = move_around(job, p, run, agreed, found);
    }
    run
}
