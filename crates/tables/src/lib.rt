// The tables of a pattern: their definitions are in specs/, and the laws of each in proofs/. The
// code that works them out is in the crates whose names begin with tables, and in prepare.
#![tactic(auto)]

ghost use Rattle.std.specs.Prelude.{◌≡◌, ◌≤◌};
ghost use Rattle.answers.specs.Reasons.{status_of};
ghost use Rattle.answers.specs.Refusals.{longest_pattern};
ghost use Rattle.tables.specs.Buffers.{tables, lengths, needed, short_of, measured_status};

use answers::Reason;

// How many entries buffers for the tables have, or need.
#[derive(Clone, Copy, Debug, PartialEq, Eq)]
pub struct TableLengths {
    pub order: usize,
    pub delta2: usize,
    pub delta1: usize,
    pub delta3: usize,
}

impl TableLengths {
    // What the tables of a pattern of m bytes need.
    pub fn needed(m: usize) -> TableLengths
        requires { m ≤ longest_pattern }
        ensures { result ≡ needed m }
    {
        TableLengths {
            order: m + 1,
            delta2: m + 1,
            delta1: 256 * m,
            delta3: m,
        }
    }

    // Whether one of these lengths is less than what is needed. All are tested, so that it is one
    // expression.
    pub fn short_of(self, needed: TableLengths) -> bool
        ensures { result ≡ short_of needed self }
    {
        (self.order < needed.order)
            | (self.delta2 < needed.delta2)
            | (self.delta1 < needed.delta1)
            | (self.delta3 < needed.delta3)
    }
}

// The lengths of the caller's buffers for the tables, which stand apart, as C lends them.
pub fn lengths(order: &[i16], delta2: &[u16], delta1: &[u16], delta3: &[u16]) -> TableLengths
    ensures { result ≡ lengths (tables order.now delta2.now delta1.now delta3.now) }
{
    TableLengths {
        order: order.len(),
        delta2: delta2.len(),
        delta1: delta1.len(),
        delta3: delta3.len(),
    }
}

// What a call that works the tables out measures before anything is written: 4, 5 and 6, in this
// order; then 7 where the buffers for the tables are too short or, as `short` says, those that the
// call has besides. A call that takes no hold offset (hold place) passes 0 for it, and one that
// takes no text (chain) passes 0 for n.
pub fn check(
    m: usize,
    hold_offset: usize,
    n: usize,
    lengths: TableLengths,
    short: bool,
) -> Result<(), Reason>
    ensures { status_of result ≡ measured_status m hold_offset n lengths short }
{
    answers::check_job(m, hold_offset, n)?;
    if lengths.short_of(TableLengths::needed(m)) | short {
        return Err(Reason::ShortBuffer);
    }
    Ok(())
}
