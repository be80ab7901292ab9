// Whether rules of a table can meet: claim one byte of some ring.
#![tactic(auto)]

ghost use Rattle.std.specs.Prelude.{◌≡◌, ◌<◌, length};
ghost use Rattle.rules.specs.Rules.{count_of, rule_at};
ghost use Rattle.rules_meet.specs.Flags.{MeetingTold};
ghost use Rattle.rules_meet.specs.Meeting.{agree_at, can_meet};

use rules::RuleTable;
use std::marker::Model;

// A rule of a table, its pattern lent on. A contract sees the rule. Like `RuleTable` it cannot be
// `Copy`.
#[derive(Drop)]
struct Rule<'a> {
    pattern: &'a [u8],
    hold_offset: usize,
}

impl<'a> Model for Rule<'a> {
    ghost use Rattle.std.specs.Prelude.{◌≤◌, ◌<◌, length};
    ghost use Rattle.answers.specs.Refusals.{longest_pattern};
    ghost use Rattle.rules.specs.Rules as rules;

    ghost Value = { rules.Rule };

    ghost view = { λ rule. record { pattern = rule.pattern.now; hold_offset = rule.hold_offset } };

    ghost invariant = { λ rule. (rule.hold_offset < length rule.pattern.now) × (length rule.pattern.now ≤ longest_pattern) };
}

impl<'a> Rule<'a> {
    // The rule in slot i.
    fn of(rules: &RuleTable<'a>, i: usize) -> Rule<'a>
        requires { i < count_of rules.now }
        ensures { result ≡ rule_at rules.now i }
    {
        Rule {
            pattern: rules.pattern(i),
            hold_offset: rules.hold_offset(i),
        }
    }

    // Whether the two patterns, laid with their hold offsets (hold places) on one byte, agree at
    // position j of the first, where both cover it.
    fn agrees_at(&self, other: &Rule, j: usize) -> bool
        requires { j < length self.now.pattern }
        ensures { result ≡ agree_at self.now other.now j }
    {
        if self.hold_offset > j + other.hold_offset {
            return true;
        }
        let y = j + other.hold_offset - self.hold_offset;
        other.pattern.len() <= y || self.pattern[j] == other.pattern[y]
    }

    // Whether they agree everywhere. Most differ in the byte that they hold, which is compared
    // first.
    fn can_meet(&self, other: &Rule) -> bool
        ensures { result ≡ can_meet self.now other.now }
    {
        if self.pattern[self.hold_offset] != other.pattern[other.hold_offset] {
            return false;
        }
        // a loop: the check does not find that `all` over a range tells what `all_from` does
        for j in 0..self.pattern.len() {
            if !self.agrees_at(other, j) {
                return false;
            }
        }
        true
    }
}

// Whether rule i can meet another.
pub fn meets_another(rules: &RuleTable, i: usize) -> bool
    requires inside { i < count_of rules.now }
    ensures { MeetingTold rules.now i result }
{
    let rule = Rule::of(rules, i);
    // a loop: the check does not find what `any` over a range tells of each of the rules
    for j in 0..rules.count() {
        if j != i && rule.can_meet(&Rule::of(rules, j)) {
            return true;
        }
    }
    false
}
