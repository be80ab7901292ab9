// What every search with a whole table of rules measures before anything is written.
#![tactic(auto)]

ghost use Rattle.std.specs.Prelude.{IfOk, ◌≡◌, ◌≤◌, length};
ghost use Rattle.answers.specs.Reasons.{status_of};
ghost use Rattle.rules.specs.Buffers.{all_needed};
ghost use Rattle.rules.specs.Rules.{table_size, rules_of};
ghost use Rattle.rules_status.specs.Lengths.{bytes_of, most_bytes};
ghost use Rattle.rules_status.specs.Measured.{measured_status};

use answers::Reason;
use rules::RuleTable;
use tables::TableLengths;

// The bytes of all patterns.
fn all_bytes(rules: &RuleTable) -> usize
    ensures sum { result ≡ bytes_of (rules_of rules.now) }
    ensures few { result ≤ most_bytes }
{
    // a loop: of a sum over a range the check finds neither the value nor the bound
    let mut sum = 0;
    for i in 0..rules.count() {
        sum += rules.length(i);
    }
    sum
}

// What the tables of all rules need. Order and Δ2 have an entry more for each rule than its pattern
// has bytes.
fn needed(rules: &RuleTable) -> TableLengths
    ensures { result ≡ all_needed (rules_of rules.now) }
{
    let count = rules.count();
    let bytes = all_bytes(rules);
    TableLengths {
        order: bytes + count,
        delta2: bytes + count,
        delta1: 256 * bytes,
        delta3: bytes,
    }
}

// The table that a search with all of its rules goes by, where it is measured before anything is
// written: 11, 4 and 5 of the table, 6, 7 where the buffers for the tables are too short or, as
// `short` says, those that the call has besides, and 12, in this order.
pub fn check<'a>(
    rules: &'a [u8; 2081],
    text: &[u8],
    lengths: TableLengths,
    short: bool,
) -> Result<RuleTable<'a>, Reason>
    ensures status { status_of result ≡ measured_status rules.now text.now lengths short }
    ensures table { IfOk result (λ table. table ≡ rules.now) }
    ensures size { length rules.now ≡ table_size }
{
    let table = RuleTable::checked(rules)?;
    answers::check_text(text.len())?;
    if lengths.short_of(needed(&table)) | short {
        return Err(Reason::ShortBuffer);
    }
    if rules_marks::claimed_twice(&table, text) {
        return Err(Reason::ClaimedTwice);
    }
    Ok(table)
}
