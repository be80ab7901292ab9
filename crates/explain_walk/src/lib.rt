// The walk along the alignments of a search to the one that reaches a position b: it is laid there
// or shifts past it.
#![tactic(auto)]

ghost use Rattle.std.specs.Prelude.{false, ◌≡◌, ◌+◌, ◌≤◌, ◌<◌, length};
ghost use Rattle.tables.specs.Tables.{stored_Δ1, repeats};
ghost use Rattle.steps.specs.Steps.{compared};
ghost use Rattle.steps.specs.Text.{shown, span};
ghost use Rattle.alignment.specs.Ready.{Begins, Taken, RowReady};
ghost use Rattle.alignment.specs.Laid.{ComparedSo, alignment};
ghost use Rattle.explain_meaning.specs.Explanation.{first_spoilt};
ghost use Rattle.explain_walk.specs.Reach.{ReachReady, Reaching, ReachedAt};

use alignment::{Around, Inside, Laid, Prepared};

// The alignment that reaches a position.
#[derive(Clone, Copy, Debug, PartialEq, Eq)]
pub struct Reached {
    pub laid: Laid,
    // how many of its comparisons agreed
    pub agreed: usize,
    // the pattern position at which the earliest comparison up to it spoils the position; m, and
    // not an Option, where none does: so is the definition `first_spoilt`
    pub spoilt: usize,
}

// Passes over the alignments that end before b, as long as their first comparison, that of the last
// position, differs. That of `run_state` counts besides, and has its own invariant: no twin.
fn pass_differing(job: &Prepared, here: Laid, b: usize) -> Laid
    requires shifts { Begins (stored_Δ1 job.now.pattern.now) job.now.delta1.now }
    requires taken { Taken job.now.pattern.now job.now.text.now }
    requires inside { b + length job.now.pattern.now ≤ span job.now.pattern.now job.now.text.now }
    requires reaching { Reaching job.now.pattern.now job.now.text.now b here
        (length job.now.pattern.now) }
    ensures forward { here.position ≤ result.position }
    ensures reaching { Reaching job.now.pattern.now job.now.text.now b result
        (length job.now.pattern.now) }
{
    let Prepared { pattern, text, .. } = *job;
    let m = pattern.len();
    let last = m - 1;
    let mut next = here;
    // it moves by shifts, which no range has
    while next.position + m <= b && text[next.position + last] != pattern[last] {
        let shift = alignment::first_shift::<Inside>(job, next.position, next.shift);
        next = next.after(shift, false);
    }
    next
}

// Passes over the alignments after an occurrence that end before b, as long as all of their
// comparisons agree: each is p further on, p the pattern's period.
fn pass_occurrences(job: &Prepared, p: usize, here: Laid, b: usize) -> Laid
    requires ready { RowReady job.now.pattern.now job.now.text.now job.now.order.now p }
    requires inside { b + length job.now.pattern.now ≤ span job.now.pattern.now job.now.text.now }
    requires after_occurrence { here.repeat ≡ repeats job.now.pattern.now }
    requires reaching { Reaching job.now.pattern.now job.now.text.now b here
        (length job.now.pattern.now) }
    ensures forward { here.position ≤ result.position }
    ensures reaching { Reaching job.now.pattern.now job.now.text.now b result
        (length job.now.pattern.now) }
{
    let m = job.pattern.len();
    let repeat = here.repeat;
    let count = alignment::row_length(job.pattern, p, repeat);
    let mut next = here;
    // `next` is an alignment, from which the walk goes on: no range has it
    while next.position + m <= b && alignment::agreeing::<Inside>(job, p, next) == count {
        next = next.after(p, repeat);
    }
    next
}

// Walks to the first alignment that ends past b: none before it makes a comparison at b or after
// it.
fn approach(job: &Prepared, p: usize, b: usize) -> Laid
    requires { ReachReady job.now.pattern.now job.now.text.now job.now.order.now
        job.now.delta2.now job.now.delta1.now job.now.delta3.now p b }
    ensures { Reaching job.now.pattern.now job.now.text.now b result (length job.now.pattern.now) }
{
    let m = job.pattern.len();
    let mut here = Laid {
        position: 0,
        shift: m,
        repeat: false,
    };
    // it moves by shifts, which no range has
    while here.position + m <= b {
        let agreed = alignment::agreeing::<Inside>(job, p, here);
        let next = alignment::laid_after(job, p, here, agreed);
        here = if agreed == alignment::row_length(job.pattern, p, here.repeat) {
            pass_occurrences(job, p, next, b)
        } else {
            pass_differing(job, next, b)
        };
    }
    here
}

// The pattern position at which the first comparison of an alignment that spoils b spoils it, where
// so many of them agreed; m if none does.
fn spoilt_by(job: &Prepared, p: usize, here: Laid, agreed: usize, b: usize) -> usize
    requires ready { RowReady job.now.pattern.now job.now.text.now job.now.order.now p }
    requires compared { ComparedSo job.now.pattern.now job.now.text.now here agreed }
    requires not_past { here.position ≤ b }
    ensures { result ≡ first_spoilt (shown job.now.text.now) job.now.pattern.now b
        (compared (alignment job.now.pattern.now job.now.text.now here)) }
{
    let Prepared {
        pattern,
        text,
        order,
        ..
    } = *job;
    let count = alignment::row_length(pattern, p, here.repeat);
    // those that agreed, and the one that differed; an index of the row, which is no slice
    for i in 0..count.min(agreed + 1) {
        let x = here.position + alignment::row_entry(pattern, order, here.repeat, i);
        if b <= x && ring::byte_at(text, x) != pattern[x - b] {
            return x - b;
        }
    }
    pattern.len()
}

// Walks to the alignment that reaches b.
pub fn reach(job: &Prepared, p: usize, b: usize) -> Reached
    requires { ReachReady job.now.pattern.now job.now.text.now job.now.order.now
        job.now.delta2.now job.now.delta1.now job.now.delta3.now p b }
    ensures { ReachedAt job.now.pattern.now job.now.text.now b result }
{
    let m = job.pattern.len();
    let mut here = approach(job, p, b);
    let mut spoilt = m;
    // it moves by shifts, which no range has
    loop {
        let agreed = alignment::agreeing::<Around>(job, p, here);
        if spoilt == m {
            spoilt = spoilt_by(job, p, here, agreed, b);
        }
        let next = alignment::laid_after(job, p, here, agreed);
        if b < next.position {
            return Reached {
                laid: here,
                agreed,
                spoilt,
            };
        }
        here = next;
    }
}
