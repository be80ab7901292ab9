// Δ1 of a pattern (motif), a row of m entries for each byte. Every entry starts as m; then each
// position below m - 1 lowers the row of its own byte to its shift, the distance from m - 1,
// wherever the last shift allows that.
#![tactic(auto)]

ghost use Rattle.std.specs.Prelude.{◌≡◌, ◌*◌, ◌-◌, ◌≤◌, ◌<◌, length};
ghost use Rattle.answers.specs.Buffers.{in_front};
ghost use Rattle.answers.specs.Refusals.{longest_pattern};
ghost use Rattle.tables_delta1.specs.Rows.{Filled, Reversed, Lowered};
ghost use Rattle.tables_delta1.specs.Rows.{Linked, Sizes, RowEnds, RowBegun, RightRow};
ghost use Rattle.tables_delta1.specs.Rows.{RowsBegun, RightTable};
ghost use Rattle.tables.specs.Sets.{byte};
ghost use Rattle.tables.specs.Tables.{stored_Δ1};

use answers::LONGEST_PATTERN;

// What stands past the end of the reversed pattern. No byte has this value: a number, and no
// Option, so that a sweep is one loop over the whole row.
const PAST: u16 = 256;

// Copies the pattern backwards, its last byte first, in front of what the table is filled with.
fn reverse(pattern: &[u8], reversed: &mut [u16])
    requires room { length pattern.now ≤ length reversed.old }
    requires filled { Filled 256 reversed.old }
    ensures { Reversed pattern.now reversed.new }
{
    let m = pattern.len();
    for (i, &b) in pattern.iter().enumerate() {
        reversed[m - 1 - i] = b as u16;
    }
}

// Links each position below m - 1 to the nearest one before it that has the same byte, and leaves
// Δ1(c, m) at the end of each row. A link is a position plus one, so that 0 is none; the link of
// position i is entry i + 1 of `last`.
//
// Of abaab the links of positions 0 to 3 are 0, 0, 1 and 3: 2 leads to position 0, and 3 to
// position 2. The row of a ends with 1, and that of b with 3.
fn link(pattern: &[u8], last: &mut [u8], table: &mut [u16])
    requires sizes { Sizes pattern.now last.old table.old }
    requires ends { RowEnds pattern.now 0 table.old }
    ensures linked { Linked pattern.now (length pattern.now - 1) last.new }
    ensures ends { RowEnds pattern.now (length pattern.now - 1) table.new }
{
    let m = pattern.len();
    for (i, &b) in pattern[..m - 1].iter().enumerate() {
        let end = b as usize * m + m - 1;
        last[i + 1] = (m - table[end] as usize) as u8;
        table[end] = (m - 1 - i) as u16;
    }
}

// Lowers each entry that is larger than `shift` to `shift`, if at its index `moved` has the byte of
// `known` or is past the pattern.
fn lower(known: &[u16], moved: &[u16], shift: u16, row: &mut [u16])
    requires known { length known.now ≡ length row.old }
    requires moved { length moved.now ≡ length row.old }
    ensures { Lowered known.now moved.now shift row.old row.new }
{
    for (i, entry) in row.iter_mut().enumerate() {
        let allowed = (moved[i] == PAST) | (moved[i] == known[i]);
        *entry = if allowed & (shift < *entry) {
            shift
        } else {
            *entry
        };
    }
}

// Writes the row of the byte at `position`, which is the last position below m - 1 that has it:
// this one and each that the links lead to lower the row to their shifts, wherever the last shift
// allows that. Entry x is for a last shift of x + 1: the reversed pattern must have equal bytes at
// x + 1 and at x + 1 + shift, if it is long enough.
//
// Of abaab the row of a goes by positions 3, 2 and 0, whose shifts are 1, 2 and 4.
fn write_row(pattern: &[u8], reversed: &[u16], last: &[u8], position: usize, row: &mut [u16])
    requires { RowBegun pattern.now reversed.now last.now position row.old }
    ensures { RightRow pattern.now (byte pattern.now position) row.new }
{
    let m = pattern.len();
    let known = &reversed[1..m + 1];
    let mut at = position + 1;
    // it follows the links, which no range has
    while at > 0 {
        let shift = m - at;
        let moved = &reversed[shift + 1..shift + 1 + m];
        lower(known, moved, shift as u16, row);
        at = last[at] as usize;
    }
}

// Writes the row of each byte that the pattern has below m - 1, once, at the last position that has
// it: the row's end tells which that is.
fn write_rows(pattern: &[u8], reversed: &[u16], last: &[u8], table: &mut [u16])
    requires { RowsBegun pattern.now reversed.now last.now table.old }
    ensures { RightTable pattern.now table.new }
{
    let m = pattern.len();
    for (i, &b) in pattern[..m - 1].iter().enumerate() {
        let start = b as usize * m;
        let end = start + m;
        if table[end - 1] as usize == m - 1 - i {
            write_row(pattern, reversed, last, i, &mut table[start..end]);
        }
    }
}

// Writes the table of 256 rows.
fn write_table(pattern: &[u8], table: &mut [u16])
    requires some { 1 ≤ length pattern.now }
    requires short_pattern { length pattern.now ≤ longest_pattern }
    requires size { length table.old ≡ 256 * length pattern.now }
    ensures { table.new ≡ stored_Δ1 pattern.now }
{
    let mut reversed: [u16; 256] = [PAST; 256];
    // the last occurrences stay numbers in an array of 129 entries, 0 for none: document 01's form
    let mut last: [u8; LONGEST_PATTERN + 1] = [0; LONGEST_PATTERN + 1];
    reverse(pattern, &mut reversed);
    table.fill(pattern.len() as u16);
    link(pattern, &mut last, table);
    write_rows(pattern, &reversed, &last, table);
}

// Writes Δ1(c, s) at c × m + s - 1 and keeps what stands past those entries.
pub fn write_delta1(pattern: &[u8], delta1: &mut [u16])
    requires some { 1 ≤ length pattern.now }
    requires short_pattern { length pattern.now ≤ longest_pattern }
    requires room { 256 * length pattern.now ≤ length delta1.old }
    ensures { delta1.new ≡ in_front (stored_Δ1 pattern.now) delta1.old }
{
    let count = 256 * pattern.len();
    write_table(pattern, &mut delta1[..count]);
}
