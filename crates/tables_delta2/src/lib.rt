// Δ2 beside the order, in the caller's buffer. In the third group it is r_min(h), the least period
// above h. For the second group the shifts that are no period are linked, and each entry unlinks
// those that do not keep what it shows. k_min and r_min stay arrays of 129 entries, passed each by
// itself: document 01's form.
#![tactic(auto)]

ghost use Rattle.std.specs.Prelude.{◌≡◌, ◌+◌, ◌≤◌, ◌<◌, length};
ghost use Rattle.answers.specs.Buffers.{in_front};
ghost use Rattle.answers.specs.Refusals.{longest_pattern};
ghost use Rattle.tables_delta2.specs.Links.{OrderStored, ShiftsLinked, LeastLeft};
ghost use Rattle.tables_minima.specs.Minima.{KMinTable, RMinTable};
ghost use Rattle.tables.specs.Buffers.{PatternTaken};
ghost use Rattle.tables.specs.Tables.{stored_Δ2};

use answers::LONGEST_PATTERN;

// Links the shifts that are no period, and m: entry k, for k below m, is the least of them above k.
// A number k is a period just where r_min(k - 1), the least period above k - 1, is k.
fn link_shifts(
    pattern: &[u8],
    r_min: &[u16; LONGEST_PATTERN + 1],
    next: &mut [u16; LONGEST_PATTERN + 1],
)
    requires taken { PatternTaken pattern.now }
    requires r_min { RMinTable pattern.now r_min.now }
    requires size { length next.old ≡ longest_pattern + 1 }
    ensures { ShiftsLinked pattern.now 0 next.new }
{
    let m = pattern.len();
    // m is linked, though it is a period
    let mut after = m;
    // a shift as well as an index: enumerate, skip and rev together are no plainer
    for k in (1..=m).rev() {
        if r_min[k - 1] as usize != k {
            after = k;
        }
        next[k - 1] = after as u16;
    }
}

// Unlinks the shifts that do not keep what entry i of the order shows where it agrees, and returns
// the least linked one that is allowed where it differs: the least that was unlinked, or else the
// first beyond the entry's position h.
//
// Of abaababa the shifts 1, 2, 3, 4, 6 and 8 are linked at first. Entry 0 of the order is position
// 7: 1, 3 and 6 are unlinked, and 1 is returned. Entry 1 is position 4: 2 and 4 are unlinked, and
// 2 is returned. Entry 2 is position 6: none up to it is left, and 8 is returned.
fn narrow(pattern: &[u8], order: &[i16], i: usize, next: &mut [u16; LONGEST_PATTERN + 1]) -> u16
    requires ordered { OrderStored pattern.now order.now }
    requires inside { i < length pattern.now }
    requires linked { ShiftsLinked pattern.now i next.old }
    ensures least { LeastLeft pattern.now i result }
    ensures linked { ShiftsLinked pattern.now (i + 1) next.new }
{
    let h = order[i] as usize;
    let mut k = next[0];
    // the last shift that stays linked, 0 before the first
    let mut before = 0;
    // the least one that was unlinked
    let mut least = None;
    // it follows the links, which no range has
    while k as usize <= h {
        let after = next[k as usize];
        if pattern[h - k as usize] == pattern[h] {
            before = k as usize;
        } else {
            next[before] = after;
            least = least.or(Some(k));
        }
        k = after;
    }
    least.unwrap_or(k)
}

// Writes Δ2 beside the order: 0 for the first entry, and after the last the period, r_min(0).
pub fn write_delta2(
    pattern: &[u8],
    order: &[i16],
    k_min: &[u16; LONGEST_PATTERN + 1],
    r_min: &[u16; LONGEST_PATTERN + 1],
    delta2: &mut [u16],
)
    requires ordered { OrderStored pattern.now order.now }
    requires k_min { KMinTable pattern.now k_min.now }
    requires r_min { RMinTable pattern.now r_min.now }
    requires room { length pattern.now + 1 ≤ length delta2.old }
    ensures { delta2.new ≡ in_front (stored_Δ2 pattern.now) delta2.old }
{
    let m = pattern.len();
    let mut next: [u16; LONGEST_PATTERN + 1] = [0; LONGEST_PATTERN + 1];
    link_shifts(pattern, r_min, &mut next);
    // where the first entry differs, the shift is Δ1's
    narrow(pattern, order, 0, &mut next);
    delta2[0] = 0;
    // by index: an iterator that skips entry 0 is no plainer, since `narrow` and Δ2 take i too
    for i in 1..m {
        let h = order[i] as usize;
        // the shift is from k_min(h) to r_min(h); in the third group, where k_min(h) is 0, only
        // periods are left
        let lower = k_min[h];
        let upper = r_min[h];
        let k = if lower > 0 {
            narrow(pattern, order, i, &mut next)
        } else {
            upper
        };
        delta2[i] = k.min(upper);
    }
    delta2[m] = r_min[0];
}
