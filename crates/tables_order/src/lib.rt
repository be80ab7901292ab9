// The order in which an alignment compares, in the caller's buffer, by h_min and k_min in tables of
// 129 entries. They stay arrays, passed each by itself: document 01's form.
#![tactic(auto)]

ghost use Rattle.std.specs.Prelude.{map, ◌≡◌, ◌+◌, ◌≤◌, pos, length};
ghost use Rattle.answers.specs.Buffers.{from_entry, in_front};
ghost use Rattle.tables_minima.specs.Minima.{HMinTable, KMinTable};
ghost use Rattle.tables_order.specs.Groups.{SecondGroupWritten};
ghost use Rattle.tables.specs.Buffers.{PatternTaken};
ghost use Rattle.tables.specs.Tables.{third_group, stored_order};

use answers::LONGEST_PATTERN;

// Writes the second group after the first entry: the h below m - 1 with k_min(h) not 0, by rising
// k_min. Returns the index at which the third group begins. Several k may have one h_min; h is
// written at the least of them, which is k_min(h).
fn write_second_group(
    pattern: &[u8],
    h_min: &[i16; LONGEST_PATTERN + 1],
    k_min: &[u16; LONGEST_PATTERN + 1],
    order: &mut [i16],
) -> usize
    requires h_min { HMinTable pattern.now h_min.now }
    requires k_min { KMinTable pattern.now k_min.now }
    requires room { length pattern.now ≤ length order.old }
    ensures { SecondGroupWritten pattern.now order.old order.new result }
{
    let m = pattern.len();
    let last = m as i16 - 1;
    let mut next = 1;
    // a shift as well as an index: enumerate and skip are no plainer
    for k in 1..=m {
        let h = h_min[k];
        if h < last && k_min[h as usize] == k as u16 {
            order[next] = h;
            next += 1;
        }
    }
    next
}

// Writes the third group from index `begin` on: the h below m - 1 with k_min(h) = 0, rising.
fn write_third_group(
    pattern: &[u8],
    k_min: &[u16; LONGEST_PATTERN + 1],
    begin: usize,
    order: &mut [i16],
)
    requires taken { PatternTaken pattern.now }
    requires k_min { KMinTable pattern.now k_min.now }
    requires room { begin + length (third_group pattern.now) ≤ length order.old }
    ensures { order.new ≡ from_entry begin (map pos (third_group pattern.now))
        order.old }
{
    let m = pattern.len();
    let mut next = begin;
    for (h, &k) in k_min[..m - 1].iter().enumerate() {
        if k == 0 {
            order[next] = h as i16;
            next += 1;
        }
    }
}

// Writes the order: h(1) = m - 1, the two groups, and -1 after the last.
pub fn write_order(
    pattern: &[u8],
    h_min: &[i16; LONGEST_PATTERN + 1],
    k_min: &[u16; LONGEST_PATTERN + 1],
    order: &mut [i16],
)
    requires h_min { HMinTable pattern.now h_min.now }
    requires k_min { KMinTable pattern.now k_min.now }
    requires room { length pattern.now + 1 ≤ length order.old }
    ensures { order.new ≡ in_front (stored_order pattern.now) order.old }
{
    let m = pattern.len();
    order[0] = m as i16 - 1;
    let begin = write_second_group(pattern, h_min, k_min, order);
    write_third_group(pattern, k_min, begin, order);
    // -1, and no Option: C lends the buffer, and `stored_order` has it so
    order[m] = -1;
}
