// Which frames are a conversion by a table of rules: each is a move or a hold of one of them, and
// each rule's walk around the frames finds its holds right.
#![tactic(auto)]

ghost use Rattle.std.specs.Prelude.{◌∷◌, ◌≡◌, ◌+◌, length, take};
ghost use Rattle.rules.specs.Rules.{most_rules, count_of, rules_of};
ghost use Rattle.rules_conversions.specs.Conversions.{all_held, is_conversion};

use frames::HOLD;
use rules::RuleTable;

// The bytes that the rules of a table hold, by number: a 0, then the byte of rule k at k, and zeros
// behind them.
pub fn held_bytes(rules: &RuleTable) -> [u8; 17]
    ensures size { length result ≡ most_rules + 1 }
    ensures held { take (count_of rules.now + 1) result
        ≡ 0 ∷ all_held (rules_of rules.now) }
{
    let mut bytes = [0; 17];
    for (i, byte) in bytes[1..rules.count() + 1].iter_mut().enumerate() {
        *byte = rules.held(i);
    }
    bytes
}

// Whether frames are a conversion by the rules of a table, `bytes` being a 0 and then the bytes
// that they hold. Rule i + 1 stands in slot i, and the frame of its holds is 256 times its number.
pub fn is_conversion(rules: &RuleTable, bytes: &[u8], frames: &[u16]) -> bool
    requires held { bytes.now ≡ 0 ∷ all_held (rules_of rules.now) }
    ensures { result ≡ is_conversion (rules_of rules.now) frames.now }
{
    let count = rules.count();
    if !restore_conversions::all_frames(count as u16, frames) {
        return false;
    }
    // By slot: the rules stand in a table of bytes, which has no slice of them.
    for i in 0..count {
        let hold = HOLD * (i as u16 + 1);
        let hold_offset = rules.hold_offset(i);
        let pattern = rules.pattern(i);
        if !restore_conversions::rule_matches(hold, hold_offset, pattern, bytes, frames) {
            return false;
        }
    }
    true
}
