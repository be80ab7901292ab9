// One alignment: how many of its comparisons agree, its shift as the tables have it, and how the
// pattern is laid after it.
#![tactic(auto)]

ghost use Rattle.std.specs.Prelude.{true, List, ℕ, ◌≡◌, ◌+◌, ◌-◌, ◌^◌, ◌≤◌, ◌<◌, length, get_or};
ghost use Rattle.answers.specs.Refusals.{longest_pattern};
ghost use Rattle.tables.specs.Buffers.{PatternTaken};
ghost use Rattle.tables.specs.Tables.{Δ1, stored_order, stored_Δ1, period};
ghost use Rattle.steps.specs.Steps.{row};
ghost use Rattle.steps.specs.Text.{shown, span};
ghost use Rattle.alignment.specs.Ready.{Begins, Taken, RowReady, ShiftTablesReady};
ghost use Rattle.alignment.specs.Ready.{RepeatsReady};
ghost use Rattle.alignment.specs.Laid.{laid_at, LaidRight, ComparedSo, alignment};
ghost use Rattle.alignment.specs.Laid.{laid_after};
ghost use Rattle.steps.proofs.Text.{span_covers};
ghost use Rattle.std.proofs.Common.{rules};

// A pattern, its tables, and the text that it is laid along. It has no invariant: its functions
// need different tables, each says which, and none asks for more. The period is passed beside it:
// those that run the steps take a job of which no period is known. Nothing compares or prints it.
#[derive(Clone, Copy)]
pub struct Prepared<'a> {
    pub pattern: &'a [u8],
    pub text: &'a [u8],
    pub order: &'a [i16],
    pub delta2: &'a [u16],
    pub delta1: &'a [u16],
    pub delta3: &'a [u16],
}

// The pattern laid at a position: the position, the shift before it, and whether it is a repeat,
// which says which row is compared; the other two are there either way.
#[derive(Clone, Copy, Debug, PartialEq, Eq)]
pub struct Laid {
    pub position: usize,
    pub shift: usize,
    pub repeat: bool,
}

impl Laid {
    // The pattern laid further on, after this shift, as a repeat or not.
    pub fn after(self, shift: usize, repeat: bool) -> Laid
        requires { self.position + shift < 2 ^ 32 }
        ensures { result ≡ laid_at (self.position + shift) shift repeat }
    {
        Laid {
            position: self.position + shift,
            shift,
            repeat,
        }
    }
}

// How the text under an alignment is read. `byte_at` takes the pattern for `reach` alone.
pub trait Reading {
    // the first position past those that are read
    ghost reach: { List ℕ → List ℕ → ℕ };

    fn byte_at(pattern: &[u8], text: &[u8], x: usize) -> u8
        requires some { 1 ≤ length pattern.now }
        requires inside { x < reach pattern.now text.now }
        ensures { result ≡ shown text.now x };

    // what is read is shown
    ghost within: { (w t : List ℕ) → 1 ≤ length w → reach w t ≤ span w t };
}

// As it stands, up to its end.
pub struct Inside;

impl Reading for Inside {
    ghost reach = { λ w t. length t };

    ghost within = { span_covers };

    fn byte_at(_pattern: &[u8], text: &[u8], x: usize) -> u8 {
        text[x]
    }
}

// Also around its end.
pub struct Around;

impl Reading for Around {
    ghost reach = { λ w t. span w t };

    ghost within = { λ w t some. Prim.search rules };

    fn byte_at(_pattern: &[u8], text: &[u8], x: usize) -> u8 {
        ring::byte_at(text, x)
    }
}

// How many positions the row of an alignment has, p the pattern's period.
pub fn row_length(pattern: &[u8], p: usize, repeat: bool) -> usize
    requires taken { PatternTaken pattern.now }
    requires period { p ≡ period pattern.now }
    ensures { result ≡ length (row pattern.now repeat) }
{
    if repeat {
        return p;
    }
    pattern.len()
}

// The pattern position at an index of the row.
pub fn row_entry(pattern: &[u8], order: &[i16], repeat: bool, i: usize) -> usize
    requires taken { PatternTaken pattern.now }
    requires ordered { Begins (stored_order pattern.now) order.now }
    requires in_row { i < length (row pattern.now repeat) }
    ensures { result ≡ get_or (row pattern.now repeat) i 0 }
{
    if repeat {
        return pattern.len() - 1 - i;
    }
    order[i] as usize
}

// How many comparisons of an alignment agree until one differs or all do, as the text is read. The
// first is that of the last position.
pub fn agreeing<R: Reading>(job: &Prepared, p: usize, here: Laid) -> usize
    requires ready { RowReady job.now.pattern.now job.now.text.now job.now.order.now p }
    requires inside { here.position + length job.now.pattern.now
        ≤ R.reach job.now.pattern.now job.now.text.now }
    ensures { ComparedSo job.now.pattern.now job.now.text.now here result }
{
    let Prepared {
        pattern,
        text,
        order,
        ..
    } = *job;
    let b = here.position;
    let last = pattern.len() - 1;
    if pattern[last] != R::byte_at(pattern, text, b + last) {
        return 0;
    }
    let count = row_length(pattern, p, here.repeat);
    // an index of the row, which is no slice
    for i in 1..count {
        let at = row_entry(pattern, order, here.repeat, i);
        if pattern[at] != R::byte_at(pattern, text, b + at) {
            return i;
        }
    }
    count
}

// Δ1 of the byte seen at the last position and the shift s before.
fn shift_by(pattern: &[u8], delta1: &[u16], seen: u8, s: usize) -> usize
    requires shifts { Begins (stored_Δ1 pattern.now) delta1.now }
    requires short_pattern { length pattern.now ≤ longest_pattern }
    requires positive { 1 ≤ s }
    requires within { s ≤ length pattern.now }
    ensures { result ≡ Δ1 pattern.now seen s }
{
    let m = pattern.len();
    usize::from(delta1[usize::from(seen) * m + s - 1])
}

// The shift of an alignment at b whose first comparison differs, s the shift before it, as the text
// is read.
pub fn first_shift<R: Reading>(job: &Prepared, b: usize, s: usize) -> usize
    requires shifts { Begins (stored_Δ1 job.now.pattern.now) job.now.delta1.now }
    requires taken { Taken job.now.pattern.now job.now.text.now }
    requires inside { b + length job.now.pattern.now
        ≤ R.reach job.now.pattern.now job.now.text.now }
    requires positive { 1 ≤ s }
    requires within { s ≤ length job.now.pattern.now }
    ensures { result ≡ Δ1 job.now.pattern.now
        (shown job.now.text.now (b + (length job.now.pattern.now - 1))) s }
{
    let seen = R::byte_at(job.pattern, job.text, b + job.pattern.len() - 1);
    shift_by(job.pattern, job.delta1, seen, s)
}

// The shift of a repeat at b of which so many comparisons agreed, fewer than p, the pattern's
// period.
pub fn repeat_shift(job: &Prepared, p: usize, b: usize, agreed: usize) -> usize
    requires ready { RepeatsReady job.now.pattern.now job.now.text.now
        job.now.delta1.now job.now.delta3.now p }
    requires compared { ComparedSo job.now.pattern.now job.now.text.now (laid_at b p true) agreed }
    requires differs { agreed < p }
    ensures { result ≡ (alignment job.now.pattern.now job.now.text.now (laid_at b p true)).shift }
{
    if agreed == 0 {
        first_shift::<Around>(job, b, p)
    } else {
        usize::from(job.delta3[job.pattern.len() - 1 - agreed])
    }
}

// The shift of an alignment of which so many comparisons agreed.
fn shift_of(job: &Prepared, p: usize, here: Laid, agreed: usize) -> usize
    requires ready { ShiftTablesReady job.now.pattern.now job.now.text.now
        job.now.delta2.now job.now.delta1.now job.now.delta3.now p }
    requires right { LaidRight job.now.pattern.now here }
    requires compared { ComparedSo job.now.pattern.now job.now.text.now here agreed }
    ensures { result ≡ (alignment job.now.pattern.now job.now.text.now here).shift }
{
    if here.repeat {
        if agreed == p {
            return p;
        }
        return repeat_shift(job, p, here.position, agreed);
    }
    if agreed == 0 {
        return first_shift::<Around>(job, here.position, here.shift);
    }
    usize::from(job.delta2[agreed])
}

// How the pattern is laid after an alignment of which so many comparisons agreed.
pub fn laid_after(job: &Prepared, p: usize, here: Laid, agreed: usize) -> Laid
    requires ready { ShiftTablesReady job.now.pattern.now job.now.text.now
        job.now.delta2.now job.now.delta1.now job.now.delta3.now p }
    requires right { LaidRight job.now.pattern.now here }
    requires compared { ComparedSo job.now.pattern.now job.now.text.now here agreed }
    ensures { result ≡ laid_after job.now.pattern.now job.now.text.now here }
{
    let shift = shift_of(job, p, here, agreed);
    let all = agreed == row_length(job.pattern, p, here.repeat);
    here.after(shift, all & (3 * p <= job.pattern.len()))
}
