// Whether two rules of a table claim the same byte of a ring (refusal 12).
#![tactic(auto)]

ghost use Rattle.std.specs.Prelude.{◌≡◌, ◌+◌, ◌<◌, ◌≤◌, length};
ghost use Rattle.answers.specs.Refusals.{longest_pattern, longest_text};
ghost use Rattle.rules.specs.Rules.{count_of, rules_of};
ghost use Rattle.rules_claims.specs.Claims.{rule, claimed_twice};
ghost use Rattle.rules_marks.specs.Marks.{Skips, block, Markable};
ghost use Rattle.rules_marks.specs.Marks.{MarkTold, BlockTold};

use rules::{MOST_RULES, RuleTable};

// So many bytes are gone through at a time.
const BLOCK: usize = 2048;

// Marks each byte from `first` on that the rule claims, as many as there are marks, up to the first
// that is marked already; tells whether there is one. The byte is claimed where the whole pattern
// ends m - 1 - q further on.
fn mark(pattern: &[u8], hold_offset: usize, text: &[u8], first: usize, marks: &mut [bool]) -> bool
    requires some { 1 ≤ length pattern.now }
    requires pattern { length pattern.now ≤ longest_pattern }
    requires markable { Markable text.now first (length marks.old) }
    ensures { MarkTold (rule pattern.now hold_offset) text.now first marks.old
        marks.new result }
{
    let links = restore_prefixes::links(pattern);
    let n = text.len();
    let last = pattern.len() - 1;
    let b = ring::wrapped(first + (n - hold_offset % n), n);
    let mut prefix = restore_prefixes::prefix_after(pattern, &links, last, |x| {
        ring::byte_at(text, b + x)
    });
    for (j, marked) in marks.iter_mut().enumerate() {
        let next = ring::byte_at(text, b + (last + j));
        prefix = restore_prefixes::extended(pattern, &links, prefix, next);
        if last < prefix {
            if *marked {
                return true;
            }
            *marked = true;
        }
    }
    false
}

// Whether one of `cards` bytes from `first` on is claimed twice: each rule that has a flag marks
// those that it claims.
fn block_twice(rules: &RuleTable, flags: &[bool], text: &[u8], first: usize, cards: usize) -> bool
    requires skips { Skips rules.now flags.now (count_of rules.now) }
    requires text { length text.now ≤ longest_text }
    requires some { first < length text.now }
    requires inside { first + cards ≤ length text.now }
    requires few { cards ≤ block }
    ensures { BlockTold rules.now text.now first cards result }
{
    let mut all = [false; BLOCK];
    let marks = &mut all[..cards];
    for (i, &flag) in flags[..rules.count()].iter().enumerate() {
        if flag && mark(rules.pattern(i), rules.hold_offset(i), text, first, marks) {
            return true;
        }
    }
    false
}

// Whether a byte of the ring is claimed twice, a block of bytes at a time.
fn ring_twice(rules: &RuleTable, flags: &[bool], text: &[u8]) -> bool
    requires skips { Skips rules.now flags.now (count_of rules.now) }
    requires text { length text.now ≤ longest_text }
    ensures { result ≡ claimed_twice (rules_of rules.now) text.now }
{
    let n = text.len();
    for first in (0..n).step_by(BLOCK) {
        let cards = BLOCK.min(n - first);
        if block_twice(rules, flags, text, first, cards) {
            return true;
        }
    }
    false
}

// Whether two rules claim the same byte. A rule that can meet no other is not looked for, and where
// none can the ring is not read.
pub fn claimed_twice(rules: &RuleTable, text: &[u8]) -> bool
    requires text { length text.now ≤ longest_text }
    ensures { result ≡ claimed_twice (rules_of rules.now) text.now }
{
    let mut flags = [false; MOST_RULES];
    let mut some = false;
    for (i, flag) in flags[..rules.count()].iter_mut().enumerate() {
        *flag = rules_meet::meets_another(rules, i);
        some |= *flag;
    }
    if !some {
        return false;
    }
    ring_twice(rules, &flags, text)
}
