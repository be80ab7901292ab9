// Colussi's h_min, k_min and r_min, each in a table of 129 entries that are all 0 to begin with.
// They stay arrays, filled in place and passed each by itself: document 01's form.
#![tactic(auto)]

ghost use Rattle.std.specs.Prelude.{◌≡◌, ◌+◌, pos, length, replicate};
ghost use Rattle.answers.specs.Refusals.{longest_pattern};
ghost use Rattle.tables.specs.Tables.{h_min};
ghost use Rattle.tables_minima.specs.Minima.{HMinBegun, HMinTable, KMinTable};
ghost use Rattle.tables_minima.specs.Minima.{RMinTable};
ghost use Rattle.tables.specs.Buffers.{PatternTaken};

use answers::LONGEST_PATTERN;

// h_min(k), where every position above `from` is known to agree with the one k below it: compares
// from there down.
fn h_min_from(pattern: &[u8], k: usize, from: usize) -> i16
    requires { HMinBegun pattern.now k from }
    ensures { result ≡ pos (h_min pattern.now k) }
{
    // the position k below the one that is compared, -1 once the pattern's front is passed
    let mut below = from as i16 - k as i16;
    // document 01's form, which stays: compared around zero in signed numbers, which no range has
    while below >= 0 && pattern[below as usize] == pattern[below as usize + k] {
        below -= 1;
    }
    below + k as i16
}

// Entry k is h_min(k), for k from 1 to m, in linear time: the Z-algorithm, from the pattern's end.
//
// Of abaabaaba, h_min(3) = 2 is found by comparing. So what is above position 2 + 1 agrees 4 below
// as it does 1 below, and h_min(4) is h_min(1), 8. In the same way h_min(5) is h_min(2), 7. Above
// position 2 + 3 all agrees 6 below, and it is compared from there down; nothing stands 6 below 5,
// so that h_min(6) is 5.
pub fn h_min_table(pattern: &[u8], h_min: &mut [i16; LONGEST_PATTERN + 1])
    requires taken { PatternTaken pattern.now }
    requires size { length h_min.old ≡ longest_pattern + 1 }
    ensures { HMinTable pattern.now h_min.new }
{
    let m = pattern.len();
    h_min[1] = h_min_from(pattern, 1, m - 1);
    // the last entry that was found by comparing
    let mut base = 1;
    // a shift as well as an index: enumerate, skip and rev together are no plainer
    for k in 2..=m {
        // above h_min(base) + d, what agrees d below agrees k below
        let d = k - base;
        let low = h_min[base];
        let h = h_min[d];
        if h - d as i16 > low {
            h_min[k] = h;
        } else {
            let from = (low as usize + d).min(m - 1);
            h_min[k] = h_min_from(pattern, k, from);
            base = k;
        }
    }
}

// Entry h is k_min(h), for h from 0 to m - 1, and 0 where there is none, as the definition has it:
// k falls, so the least is stored last.
pub fn k_min_table(
    pattern: &[u8],
    h_min: &[i16; LONGEST_PATTERN + 1],
    k_min: &mut [u16; LONGEST_PATTERN + 1],
)
    requires h_min { HMinTable pattern.now h_min.now }
    requires zeros { k_min.old ≡ replicate (longest_pattern + 1) 0 }
    ensures { KMinTable pattern.now k_min.new }
{
    // a shift as well as an index: enumerate, skip and rev together are no plainer
    for k in (1..=pattern.len()).rev() {
        let h = h_min[k];
        if h - k as i16 >= 0 {
            k_min[h as usize] = k as u16;
        }
    }
}

// Entry h is r_min(h), for h from 0 to m - 1: the least r above it with h_min(r) = r - 1.
pub fn r_min_table(
    pattern: &[u8],
    h_min: &[i16; LONGEST_PATTERN + 1],
    r_min: &mut [u16; LONGEST_PATTERN + 1],
)
    requires h_min { HMinTable pattern.now h_min.now }
    requires size { length r_min.old ≡ longest_pattern + 1 }
    ensures { RMinTable pattern.now r_min.new }
{
    let m = pattern.len();
    // m is such an r
    let mut least = m;
    // a shift as well as an index: enumerate, skip and rev together are no plainer
    for r in (1..=m).rev() {
        if h_min[r] - (r as i16) < 0 {
            least = r;
        }
        r_min[r - 1] = least as u16;
    }
}
