// Preparing a pattern: its tables in the caller's buffers. These stay apart, as C lends them: a
// struct of `&mut` is no plainer, since every clause would name each buffer through it.
#![tactic(auto)]

ghost use Rattle.std.specs.Prelude.{◌≡◌, ◌+◌, ◌≤◌, length};
ghost use Rattle.answers.specs.Buffers.{in_front};
ghost use Rattle.tables.specs.Buffers.{tables, PatternTaken, TablesFit, TablesWritten};
ghost use Rattle.tables.specs.Prepare.{PrepareOutcome};
ghost use Rattle.tables.specs.Tables.{stored_order, stored_Δ2, stored_Δ3, period};

use answers::{Answer, LONGEST_PATTERN};

// Works h_min, k_min and r_min out, and by them writes the order, Δ2 beside it and Δ3, for a
// pattern that is taken, in buffers that are long enough.
fn write_order_and_shifts(pattern: &[u8], order: &mut [i16], delta2: &mut [u16], delta3: &mut [u16])
    requires taken { PatternTaken pattern.now }
    requires order_room { length pattern.now + 1 ≤ length order.old }
    requires delta2_room { length pattern.now + 1 ≤ length delta2.old }
    requires delta3_room { length pattern.now ≤ length delta3.old }
    ensures order_left { order.new ≡ in_front (stored_order pattern.now)
        order.old }
    ensures delta2_left { delta2.new ≡ in_front (stored_Δ2 pattern.now)
        delta2.old }
    ensures delta3_left { delta3.new ≡ in_front (stored_Δ3 pattern.now)
        delta3.old }
{
    let mut h_min: [i16; LONGEST_PATTERN + 1] = [0; LONGEST_PATTERN + 1];
    let mut k_min: [u16; LONGEST_PATTERN + 1] = [0; LONGEST_PATTERN + 1];
    let mut r_min: [u16; LONGEST_PATTERN + 1] = [0; LONGEST_PATTERN + 1];
    tables_minima::h_min_table(pattern, &mut h_min);
    tables_minima::k_min_table(pattern, &h_min, &mut k_min);
    tables_minima::r_min_table(pattern, &h_min, &mut r_min);
    tables_order::write_order(pattern, &h_min, &k_min, order);
    tables_delta2::write_delta2(pattern, order, &k_min, &r_min, delta2);
    tables_delta3::write_delta3(pattern, &h_min, &r_min, delta3);
}

// Works the tables out for a pattern that is taken, in buffers that are long enough, and returns
// its period: where all agree, Δ2 has it.
pub fn write_tables(
    pattern: &[u8],
    order: &mut [i16],
    delta2: &mut [u16],
    delta1: &mut [u16],
    delta3: &mut [u16],
) -> u32
    requires { TablesFit pattern.now
        (tables order.old delta2.old delta1.old delta3.old) }
    ensures period { result ≡ period pattern.now }
    ensures written { TablesWritten pattern.now
        (tables order.old delta2.old delta1.old delta3.old)
        (tables order.new delta2.new delta1.new delta3.new) }
{
    write_order_and_shifts(pattern, order, delta2, delta3);
    tables_delta1::write_delta1(pattern, delta1);
    let m = pattern.len();
    delta2[m] as u32
}

// Prepares a pattern (motif): works its order, Δ2, Δ1 and Δ3 out into the caller's buffers, and
// answers its period.
pub fn prepare(
    pattern: &[u8],
    order: &mut [i16],
    delta2: &mut [u16],
    delta1: &mut [u16],
    delta3: &mut [u16],
) -> Answer
    ensures { PrepareOutcome pattern.now
        (tables order.old delta2.old delta1.old delta3.old)
        (tables order.new delta2.new delta1.new delta3.new) result }
{
    let lengths = tables::lengths(order, delta2, delta1, delta3);
    if let Err(reason) = tables::check(pattern.len(), 0, 0, lengths, false) {
        return Answer::from(reason);
    }
    let period = write_tables(pattern, order, delta2, delta1, delta3);
    answers::prepared(period)
}
