// An edit of a rule table: a new rule is put in the place of a numbered one.
#![tactic(auto)]

ghost use Rattle.std.specs.Prelude.{◌≡◌, length};
ghost use Rattle.answers.specs.Reasons.{status_of};
ghost use Rattle.rules.specs.Rules.{table_size};
ghost use Rattle.edit_rule.specs.Edit.{edit_status, EditOutcome};

use answers::{Answer, Reason};
use rules::RuleTable;

// 11, 4 and 5 of the table and the number, then 4 and 5 of a new rule of length m.
fn check_edit(number: u32, hold_offset: u32, m: usize, rules: &[u8; 2081]) -> Result<(), Reason>
    ensures status { status_of result ≡ edit_status rules.now number m hold_offset }
    ensures size { length rules.now ≡ table_size }
{
    RuleTable::naming(rules, number)?;
    answers::check_rule(m, hold_offset as usize)
}

// Puts a new rule in the place of a numbered one and keeps every other, and the bytes of its slot
// past its pattern (motif). A refused edit leaves the table as it was.
pub fn edit_rule(number: u32, hold_offset: u32, pattern: &[u8], rules: &mut [u8; 2081]) -> Answer
    ensures { EditOutcome number hold_offset pattern.now rules.old
        rules.new result }
{
    if let Err(reason) = check_edit(number, hold_offset, pattern.len(), rules) {
        return Answer::from(reason);
    }
    let at = rules::SLOT_SIZE * (number as usize - 1) + 1;
    rules[at] = pattern.len() as u8;
    rules[at + 1] = hold_offset as u8;
    copy_blocks::write_block(pattern, at + 2, rules);
    Answer::default()
}
