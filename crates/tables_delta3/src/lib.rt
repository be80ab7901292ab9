// Δ3, the shifts of a pattern that repeats, in the caller's buffer, by h_min and r_min in tables of
// 129 entries. They stay arrays, passed each by itself: document 01's form.
#![tactic(auto)]

ghost use Rattle.std.specs.Prelude.{◌≡◌, ◌+◌, ◌*◌, ◌-◌, ◌≤◌, length};
ghost use Rattle.answers.specs.Buffers.{in_front};
ghost use Rattle.answers.specs.Refusals.{longest_pattern};
ghost use Rattle.tables_delta3.specs.Values.{ValuesFrom};
ghost use Rattle.tables_minima.specs.Minima.{HMinTable, RMinTable};
ghost use Rattle.tables.specs.Tables.{r_min, period, Δ3, stored_Δ3};

use answers::LONGEST_PATTERN;

// Lowers each of the last p entries i from r_min(i) to the least k at most i with h_min(k) = i for
// which k + p is a period or at least m, if there is one. k falls, so the least is stored last;
// where k + 2 × p is at most m there are no more.
//
// Of abaabaaba, p = 3, the last three entries begin as 8, 8 and 9, and k falls from 8 to 4. At 7,
// h_min is 8 and 7 + 3 at least 9, so that entry 8 becomes 7; at 5, h_min is 7 and 5 + 3 is a
// period, so that entry 7 becomes 5. At 4, h_min is 8 but 4 + 3 is no period. 8, 5 and 7 are left.
fn lower_last(pattern: &[u8], h_min: &[i16; LONGEST_PATTERN + 1], p: usize, table: &mut [u16])
    requires h_min { HMinTable pattern.now h_min.now }
    requires period { p ≡ period pattern.now }
    requires twice { 2 * p ≤ length pattern.now }
    requires size { length table.old ≡ length pattern.now }
    requires values { ValuesFrom (length pattern.now - p) (r_min pattern.now) table.old }
    ensures { ValuesFrom (length pattern.now - p) (Δ3 pattern.now)
        table.new }
{
    let m = pattern.len();
    // a shift as well as an index: enumerate, skip and rev together are no plainer
    for k in (m - 2 * p + 1..m).rev() {
        let h = h_min[k];
        let far = k + p;
        if h - k as i16 >= 0 && (far >= m || h_min[far] - (far as i16) < 0) {
            table[h as usize] = k as u16;
        }
    }
}

// Writes a table of m entries. The period p is r_min(0). Entry m - 1, for which Δ3 is not defined,
// is filled with the others and then set to 0.
fn write_table(
    pattern: &[u8],
    h_min: &[i16; LONGEST_PATTERN + 1],
    r_min: &[u16; LONGEST_PATTERN + 1],
    table: &mut [u16],
)
    requires h_min { HMinTable pattern.now h_min.now }
    requires r_min { RMinTable pattern.now r_min.now }
    requires size { length table.old ≡ length pattern.now }
    ensures { table.new ≡ stored_Δ3 pattern.now }
{
    let m = pattern.len();
    let p = r_min[0] as usize;
    table.fill(0);
    if 3 * p <= m {
        table[m - p..].copy_from_slice(&r_min[m - p..m]);
        lower_last(pattern, h_min, p, table);
        table[m - 1] = 0;
    }
}

// Writes Δ3(i) at i where it is defined, and 0 at each other i below m.
pub fn write_delta3(
    pattern: &[u8],
    h_min: &[i16; LONGEST_PATTERN + 1],
    r_min: &[u16; LONGEST_PATTERN + 1],
    delta3: &mut [u16],
)
    requires h_min { HMinTable pattern.now h_min.now }
    requires r_min { RMinTable pattern.now r_min.now }
    requires room { length pattern.now ≤ length delta3.old }
    ensures { delta3.new ≡ in_front (stored_Δ3 pattern.now) delta3.old }
{
    let m = pattern.len();
    write_table(pattern, h_min, r_min, &mut delta3[..m]);
}
