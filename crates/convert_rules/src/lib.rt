// Conversion to frames by a table of rules: the searches, then the moves and the holds.
#![tactic(auto)]

ghost use Rattle.convert_rules.specs.ConvertRules.{ConvertRulesOutcome};
ghost use Rattle.tables.specs.Buffers.{tables};

use rules_answers::RulesAnswer;

// Converts a text (chain) to frames by a table of rules, each a pattern (motif) and a hold offset
// (hold place).
// The buffers stand apart, as C lends them.
pub fn convert_rules(
    rules: &[u8; 2081],
    text: &[u8],
    order: &mut [i16],
    delta2: &mut [u16],
    delta1: &mut [u16],
    delta3: &mut [u16],
    found: &mut [u16],
    frames: &mut [u16],
) -> RulesAnswer
    ensures { ConvertRulesOutcome rules.now text.now
        (tables order.old delta2.old delta1.old delta3.old)
        (tables order.new delta2.new delta1.new delta3.new)
        found.old found.new frames.old frames.new result }
{
    let lengths = tables::lengths(order, delta2, delta1, delta3);
    let n = text.len();
    let short = (found.len() < n) | (frames.len() < n);
    let rules = match rules_status::check(rules, text, lengths, short) {
        Ok(rules) => rules,
        Err(reason) => return RulesAnswer::from(reason),
    };
    let answers = rules_searches::search_all(&rules, text, order, delta2, delta1, delta3, found);
    rules_frames::write_frames(&rules, answers, text, found, frames);
    RulesAnswer {
        status: 0,
        ones: ones::ones_of(text),
        rules: answers,
    }
}
