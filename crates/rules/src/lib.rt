// The rule table: 1 to 16 rules, each a pattern (motif) and a hold offset (hold place), in 2,081
// bytes that the caller lends. Byte 0 is the number of rules; then come 16 slots of 130 bytes, each
// a length, a hold offset and room for a pattern of 128.
#![tactic(auto)]

ghost use Rattle.std.specs.Prelude.{List, ℕ, IfOk, ◌≡◌, [], ◌∷◌, ◌≤◌, ◌<◌, length};
ghost use Rattle.answers.specs.Reasons.{status_of};
ghost use Rattle.answers.specs.Refusals.{first_of, longest_pattern};
ghost use Rattle.rules.specs.Rules.{most_rules, table_size, count_of, length_at, offset_at};
ghost use Rattle.rules.specs.Rules.{rule_at, held, count_refusal, number_refusal};
ghost use Rattle.rules.specs.Rules.{TableTaken, slot_refusals, table_refusals, named_refusals};

use answers::Reason;
use std::marker::Model;

// The most rules of a table.
pub const MOST_RULES: usize = 16;

// The bytes of a slot. Slot i begins with byte SLOT_SIZE * i + 1.
pub const SLOT_SIZE: usize = 130;

// The number of rules, of bytes that nothing has tested.
pub fn count(rules: &[u8; 2081]) -> usize
    ensures answer { result ≡ count_of rules.now }
    ensures size { length rules.now ≡ table_size }
{
    usize::from(rules[0])
}

// The length m of the rule in slot i.
// This and the next three ask for one slot alone, where `RuleTable` asks for all.
pub fn length_of(rules: &[u8; 2081], i: usize) -> usize
    requires { i < most_rules }
    ensures { result ≡ length_at rules.now i }
{
    usize::from(rules[SLOT_SIZE * i + 1])
}

// Its hold offset q.
pub fn hold_offset_of(rules: &[u8; 2081], i: usize) -> usize
    requires { i < most_rules }
    ensures { result ≡ offset_at rules.now i }
{
    usize::from(rules[SLOT_SIZE * i + 2])
}

// Its pattern, lent on.
pub fn pattern_of(rules: &[u8; 2081], i: usize) -> &[u8]
    requires slot { i < most_rules }
    requires short { length_at rules.now i ≤ longest_pattern }
    ensures answer { result.now ≡ (rule_at rules.now i).pattern }
    ensures measured { length result.now ≡ length_at rules.now i }
{
    let m = length_of(rules, i);
    let from = SLOT_SIZE * i + 3;
    &rules[from..from + m]
}

// The byte of its pattern that it holds.
pub fn held_of(rules: &[u8; 2081], i: usize) -> u8
    requires slot { i < most_rules }
    requires short { length_at rules.now i ≤ longest_pattern }
    requires inside { offset_at rules.now i < length_at rules.now i }
    ensures { result ≡ held (rule_at rules.now i) }
{
    rules[SLOT_SIZE * i + 3 + hold_offset_of(rules, i)]
}

// 4 and then 5 of each rule from the first on.
fn check_slots(rules: &[u8; 2081]) -> Result<(), Reason>
    requires { count_of rules.now ≤ most_rules }
    ensures { status_of result ≡ first_of (slot_refusals rules.now (count_of rules.now) 0) }
{
    // by slot: the rules stand in a table of bytes, which has no slice of them
    for i in 0..count(rules) {
        answers::check_rule(length_of(rules, i), hold_offset_of(rules, i))?;
    }
    Ok(())
}

// 11 of a number of rules and a rule's number, from 1 on.
fn check_number(count: usize, number: usize) -> Result<(), Reason>
    ensures { status_of result ≡ first_of (count_refusal count ∷ number_refusal count number ∷ []) }
{
    if count == 0 || MOST_RULES < count {
        return Err(Reason::RuleNumber);
    }
    if number == 0 || count < number {
        return Err(Reason::RuleNumber);
    }
    Ok(())
}

// A table of at most 16 rules, each of at most 128 bytes with its hold offset in it: one that 11, 4
// and 5 let pass, or one with no rules. A contract sees its bytes. A struct with a lifetime and a
// model cannot be `Copy`.
#[derive(Drop)]
pub struct RuleTable<'a> {
    bytes: &'a [u8; 2081],
}

impl<'a> Model for RuleTable<'a> {
    ghost Value = { List ℕ };

    ghost view = { λ table. table.bytes.now };

    ghost invariant = { λ table. TableTaken table.bytes.now };
}

impl<'a> RuleTable<'a> {
    // The table of bytes that meet `TableTaken`.
    pub fn of(rules: &'a [u8; 2081]) -> RuleTable<'a>
        requires { TableTaken rules.now }
        ensures { result ≡ rules.now }
    {
        RuleTable { bytes: rules }
    }

    // The table, where 11, 4 and 5 of a call that names a rule by its number let it pass.
    pub fn naming(rules: &'a [u8; 2081], number: u32) -> Result<RuleTable<'a>, Reason>
        ensures status { status_of result ≡ first_of (named_refusals rules.now number) }
        ensures table { IfOk result (λ table. table ≡ rules.now) }
        ensures size { length rules.now ≡ table_size }
    {
        check_number(count(rules), number as usize)?;
        check_slots(rules)?;
        Ok(RuleTable::of(rules))
    }

    // The table, where 11, 4 and 5 let it pass: a table that has rules has rule 1.
    pub fn checked(rules: &'a [u8; 2081]) -> Result<RuleTable<'a>, Reason>
        ensures status { status_of result ≡ first_of (table_refusals rules.now) }
        ensures table { IfOk result (λ table. table ≡ rules.now) }
        ensures size { length rules.now ≡ table_size }
    {
        RuleTable::naming(rules, 1)
    }

    // The number of rules.
    pub fn count(&self) -> usize
        ensures answer { result ≡ count_of self.now }
        ensures taken { TableTaken self.now }
    {
        count(self.bytes)
    }

    // The length m of the rule in slot i.
    pub fn length(&self, i: usize) -> usize
        requires { i < count_of self.now }
        ensures { result ≡ length_at self.now i }
    {
        length_of(self.bytes, i)
    }

    // Its hold offset q.
    pub fn hold_offset(&self, i: usize) -> usize
        requires { i < count_of self.now }
        ensures { result ≡ offset_at self.now i }
    {
        hold_offset_of(self.bytes, i)
    }

    // Its pattern, lent on.
    pub fn pattern(&self, i: usize) -> &'a [u8]
        requires { i < count_of self.now }
        ensures answer { result.now ≡ (rule_at self.now i).pattern }
        ensures measured { length result.now ≡ length_at self.now i }
        ensures short { length result.now ≤ longest_pattern }
        ensures inside { offset_at self.now i < length result.now }
    {
        pattern_of(self.bytes, i)
    }

    // The byte of its pattern that it holds.
    pub fn held(&self, i: usize) -> u8
        requires { i < count_of self.now }
        ensures { result ≡ held (rule_at self.now i) }
    {
        held_of(self.bytes, i)
    }
}
