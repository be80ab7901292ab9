// The repeats after an occurrence, where the pattern repeats.
#![tactic(auto)]

ghost use Rattle.std.specs.Prelude.{true, ◌≡◌, ◌≤◌, length};
ghost use Rattle.steps.specs.Occurrences.{occurrences};
ghost use Rattle.alignment.specs.Ready.{RepeatsReady};
ghost use Rattle.run_state.specs.Progress.{Standing, Followed, Moved};

use alignment::Prepared;
use run_state::Progress;

// Goes by the repeats after an occurrence that end inside the text, p the pattern's period: lists
// those that are occurrences, and moves on from the first that is not.
pub fn follow_repeats(job: &Prepared, p: usize, begin: Progress, found: &mut [u16]) -> Progress
    requires ready { RepeatsReady job.now.pattern.now job.now.text.now
        job.now.delta1.now job.now.delta3.now p }
    requires standing { Standing job.now.pattern.now job.now.text.now begin }
    requires shift { begin.laid.shift ≡ p }
    requires repeat { begin.laid.repeat ≡ true }
    requires room { length (occurrences job.now.pattern.now job.now.text.now) ≤ length found.old }
    ensures followed { Followed job.now.pattern.now job.now.text.now result.laid }
    ensures moved { Moved job.now.pattern.now job.now.text.now begin result found.old found.new }
{
    let Prepared { pattern, text, .. } = *job;
    let m = pattern.len();
    let mut run = begin;
    'repeats: loop {
        let b = run.laid.position;
        let occurrences = run.occurrences;
        // Document 01's form, a labelled loop with a labelled break: the index is counted by hand.
        let mut i = 0;
        let agreed = loop {
            if text.len() < b + m {
                break 'repeats;
            }
            let at = m - 1 - i;
            if pattern[at] != text[b + at] {
                break i;
            }
            i += 1;
            if i == p {
                break i;
            }
        };
        if agreed < p {
            let s = alignment::repeat_shift(job, p, b, agreed);
            return Progress {
                laid: run.laid.after(s, false),
                comparisons: run.comparisons + agreed + 1,
                ..run
            };
        }
        found[occurrences] = b as u16;
        run = Progress {
            laid: run.laid.after(p, true),
            occurrences: occurrences + 1,
            comparisons: run.comparisons + p,
        };
    }
    run
}
