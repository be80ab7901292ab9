// The library as a Rust or C program links it: every public call, in one archive. Each takes any
// arguments, and promises what the call of the same name does in its own room. Names, parameters
// and numbers for a role or a way are those of the C interface.
#![tactic(auto)]

ghost use Rattle.std.specs.Prelude.{◌≡◌};
ghost use Rattle.convert.specs.Convert.{ConvertOutcome};
ghost use Rattle.convert_rules.specs.ConvertRules.{ConvertRulesOutcome};
ghost use Rattle.edit_rule.specs.Edit.{EditOutcome};
ghost use Rattle.explain.specs.Explain.{ExplainOutcome};
ghost use Rattle.explain_rule.specs.ExplainRule.{ExplainRuleOutcome};
ghost use Rattle.job.specs.Read.{ReadOutcome};
ghost use Rattle.job.specs.Write.{WriteOutcome};
ghost use Rattle.search.specs.Search.{SearchOutcome};
ghost use Rattle.ones.specs.Ones.{count_answer};
ghost use Rattle.price.specs.Price.{PriceOutcome};
ghost use Rattle.price_rules.specs.PriceRules.{PriceRulesOutcome};
ghost use Rattle.report.specs.Report.{ReportOutcome};
ghost use Rattle.restore.specs.Restore.{RestoreOutcome};
ghost use Rattle.restore_rules.specs.RestoreRules.{RestoreRulesOutcome};
ghost use Rattle.roles_calls.specs.Calls.{ConvertAsOutcome, RestoreAsOutcome};
ghost use Rattle.roles_calls.specs.Calls.{ExplainAsOutcome, PriceAsOutcome};
ghost use Rattle.roles_calls.specs.Calls.{EditAsOutcome};
ghost use Rattle.search_rules.specs.SearchRules.{SearchRulesOutcome};
ghost use Rattle.tables.specs.Buffers.{tables};
ghost use Rattle.tables.specs.Prepare.{PrepareOutcome};
ghost use Rattle.turn.specs.Turn.{TurnOutcome};

use answers::Answer;
use explain_answers::ExplainAnswer;
use job::{ReadAnswer, WriteAnswer};
use price::PriceAnswer;
use report_lines::ReportAnswer;
use rules_answers::RulesAnswer;
use turn::TurnAnswer;

// Reads a job file into the caller's buffers for pattern (motif) and text (chain).
#[unsafe(no_mangle)]
pub extern "C" fn read_job(file: &[u8], pattern: &mut [u8], text: &mut [u8]) -> ReadAnswer
    ensures { ReadOutcome file.now pattern.old pattern.new
        text.old text.new result }
{
    job_reader::read_job(file, pattern, text)
}

// Writes the job file of a hold offset (hold place), a pattern (motif) and a text (chain).
#[unsafe(no_mangle)]
pub extern "C" fn write_job(
    hold_offset: u32,
    pattern: &[u8],
    text: &[u8],
    file: &mut [u8],
) -> WriteAnswer
    ensures { WriteOutcome hold_offset pattern.now text.now
        file.old file.new result }
{
    job_writer::write_job(hold_offset, pattern, text, file)
}

// Prepares a pattern (motif): works its order, Δ2, Δ1 and Δ3 out into the caller's buffers, and
// answers its period.
#[unsafe(no_mangle)]
pub extern "C" fn prepare(
    pattern: &[u8],
    order: &mut [i16],
    delta2: &mut [u16],
    delta1: &mut [u16],
    delta3: &mut [u16],
) -> Answer
    ensures { PrepareOutcome pattern.now
        (tables order.old delta2.old delta1.old delta3.old)
        (tables order.new delta2.new delta1.new delta3.new) result }
{
    prepare::prepare(pattern, order, delta2, delta1, delta3)
}

// Lists every occurrence (find) of the pattern (motif) in the text (chain), counts the comparisons
// (looks), and answers the pattern's period and the bound beside them.
#[unsafe(no_mangle)]
pub extern "C" fn search(
    pattern: &[u8],
    text: &[u8],
    order: &mut [i16],
    delta2: &mut [u16],
    delta1: &mut [u16],
    delta3: &mut [u16],
    found: &mut [u16],
) -> Answer
    ensures { SearchOutcome pattern.now text.now
        (tables order.old delta2.old delta1.old delta3.old)
        (tables order.new delta2.new delta1.new delta3.new)
        found.old found.new result }
{
    search::search(pattern, text, order, delta2, delta1, delta3, found)
}

// Converts a text (chain) to frames, by a pattern (motif) and a hold offset (hold place).
#[unsafe(no_mangle)]
pub extern "C" fn convert(
    hold_offset: u32,
    pattern: &[u8],
    text: &[u8],
    order: &mut [i16],
    delta2: &mut [u16],
    delta1: &mut [u16],
    delta3: &mut [u16],
    found: &mut [u16],
    frames: &mut [u16],
) -> Answer
    ensures { ConvertOutcome hold_offset pattern.now text.now
        (tables order.old delta2.old delta1.old delta3.old)
        (tables order.new delta2.new delta1.new delta3.new)
        found.old found.new frames.old frames.new result }
{
    convert::convert(
        hold_offset,
        pattern,
        text,
        order,
        delta2,
        delta1,
        delta3,
        found,
        frames,
    )
}

// Counts the ones of a text (the holes of a chain).
#[unsafe(no_mangle)]
pub extern "C" fn count_ones(text: &[u8]) -> Answer
    ensures { result ≡ count_answer text.now }
{
    ones::count_ones(text)
}

// Turns a job in one of four ways: its pattern (motif) and text (chain) into the caller's buffers,
// its hold offset (hold place) in the answer.
#[unsafe(no_mangle)]
pub extern "C" fn turn(
    way: u32,
    hold_offset: u32,
    pattern: &[u8],
    text: &[u8],
    turned_pattern: &mut [u8],
    turned_text: &mut [u8],
) -> TurnAnswer
    ensures { TurnOutcome way hold_offset pattern.now text.now
        turned_pattern.old turned_pattern.new
        turned_text.old turned_text.new result }
{
    turn::turn(way, hold_offset, pattern, text, turned_pattern, turned_text)
}

// Puts frames back to the text (chain) that was converted, by its pattern (motif) and hold offset
// (hold place).
#[unsafe(no_mangle)]
pub extern "C" fn restore(
    hold_offset: u32,
    pattern: &[u8],
    frames: &[u16],
    text: &mut [u8],
) -> Answer
    ensures { RestoreOutcome hold_offset pattern.now frames.now
        text.old text.new result }
{
    restore::restore(hold_offset, pattern, frames, text)
}

// Prices a text (chain) that is converted by a pattern (motif) and a hold offset (hold place), in
// pence.
#[unsafe(no_mangle)]
pub extern "C" fn price(
    hold_offset: u32,
    pattern: &[u8],
    text: &[u8],
    order: &mut [i16],
    delta2: &mut [u16],
    delta1: &mut [u16],
    delta3: &mut [u16],
    found: &mut [u16],
) -> PriceAnswer
    ensures { PriceOutcome hold_offset pattern.now text.now
        (tables order.old delta2.old delta1.old delta3.old)
        (tables order.new delta2.new delta1.new delta3.new)
        found.old found.new result }
{
    price::price(
        hold_offset,
        pattern,
        text,
        order,
        delta2,
        delta1,
        delta3,
        found,
    )
}

// Explains why a position of the text (place of the chain) has no hold.
#[unsafe(no_mangle)]
pub extern "C" fn explain(
    position: u32,
    pattern: &[u8],
    text: &[u8],
    order: &mut [i16],
    delta2: &mut [u16],
    delta1: &mut [u16],
    delta3: &mut [u16],
) -> ExplainAnswer
    ensures { ExplainOutcome position pattern.now text.now
        (tables order.old delta2.old delta1.old delta3.old)
        (tables order.new delta2.new delta1.new delta3.new) result }
{
    explain::explain(position, pattern, text, order, delta2, delta1, delta3)
}

// Searches for every rule of a table, and answers rule by rule.
#[unsafe(no_mangle)]
pub extern "C" fn search_rules(
    rules: &[u8; 2081],
    text: &[u8],
    order: &mut [i16],
    delta2: &mut [u16],
    delta1: &mut [u16],
    delta3: &mut [u16],
    found: &mut [u16],
) -> RulesAnswer
    ensures { SearchRulesOutcome rules.now text.now
        (tables order.old delta2.old delta1.old delta3.old)
        (tables order.new delta2.new delta1.new delta3.new)
        found.old found.new result }
{
    search_rules::search_rules(rules, text, order, delta2, delta1, delta3, found)
}

// Converts a text (chain) to frames by a table of rules.
#[unsafe(no_mangle)]
pub extern "C" fn convert_rules(
    rules: &[u8; 2081],
    text: &[u8],
    order: &mut [i16],
    delta2: &mut [u16],
    delta1: &mut [u16],
    delta3: &mut [u16],
    found: &mut [u16],
    frames: &mut [u16],
) -> RulesAnswer
    ensures { ConvertRulesOutcome rules.now text.now
        (tables order.old delta2.old delta1.old delta3.old)
        (tables order.new delta2.new delta1.new delta3.new)
        found.old found.new frames.old frames.new result }
{
    convert_rules::convert_rules(rules, text, order, delta2, delta1, delta3, found, frames)
}

// Prices a text (chain) that is converted by a table of rules.
#[unsafe(no_mangle)]
pub extern "C" fn price_rules(
    rules: &[u8; 2081],
    text: &[u8],
    order: &mut [i16],
    delta2: &mut [u16],
    delta1: &mut [u16],
    delta3: &mut [u16],
    found: &mut [u16],
) -> PriceAnswer
    ensures { PriceRulesOutcome rules.now text.now
        (tables order.old delta2.old delta1.old delta3.old)
        (tables order.new delta2.new delta1.new delta3.new)
        found.old found.new result }
{
    price_rules::price_rules(rules, text, order, delta2, delta1, delta3, found)
}

// Puts the frames of a conversion by a table of rules back to the text (chain).
#[unsafe(no_mangle)]
pub extern "C" fn restore_rules(rules: &[u8; 2081], frames: &[u16], text: &mut [u8]) -> Answer
    ensures { RestoreRulesOutcome rules.now frames.now text.old
        text.new result }
{
    restore_rules::restore_rules(rules, frames, text)
}

// Explains why a position of the text (place of the chain) has no hold of one rule.
#[unsafe(no_mangle)]
pub extern "C" fn explain_rule(
    number: u32,
    position: u32,
    rules: &[u8; 2081],
    text: &[u8],
    order: &mut [i16],
    delta2: &mut [u16],
    delta1: &mut [u16],
    delta3: &mut [u16],
) -> ExplainAnswer
    ensures { ExplainRuleOutcome number position rules.now text.now
        (tables order.old delta2.old delta1.old delta3.old)
        (tables order.new delta2.new delta1.new delta3.new) result }
{
    explain_rule::explain_rule(number, position, rules, text, order, delta2, delta1, delta3)
}

// Puts a new pattern (motif) and hold offset (hold place) in one rule of a table.
#[unsafe(no_mangle)]
pub extern "C" fn edit_rule(
    number: u32,
    hold_offset: u32,
    pattern: &[u8],
    rules: &mut [u8; 2081],
) -> Answer
    ensures { EditOutcome number hold_offset pattern.now rules.old
        rules.new result }
{
    edit_rule::edit_rule(number, hold_offset, pattern, rules)
}

// The five calls that follow take a role: 0 draughtswoman, 1 mender, 2 minder. Where it may not do
// the job, they answer 13 and zeros and change nothing.

// Converts a text (chain) to frames by a table of rules, where the role may.
#[unsafe(no_mangle)]
pub extern "C" fn convert_as(
    role: u32,
    rules: &[u8; 2081],
    text: &[u8],
    order: &mut [i16],
    delta2: &mut [u16],
    delta1: &mut [u16],
    delta3: &mut [u16],
    found: &mut [u16],
    frames: &mut [u16],
) -> RulesAnswer
    ensures { ConvertAsOutcome role rules.now text.now
        (tables order.old delta2.old delta1.old delta3.old)
        (tables order.new delta2.new delta1.new delta3.new)
        found.old found.new frames.old frames.new result }
{
    roles_calls::convert_as(
        role, rules, text, order, delta2, delta1, delta3, found, frames,
    )
}

// Puts the frames of a conversion by a table of rules back to the text (chain), where the role may.
#[unsafe(no_mangle)]
pub extern "C" fn restore_as(
    role: u32,
    rules: &[u8; 2081],
    frames: &[u16],
    text: &mut [u8],
) -> Answer
    ensures { RestoreAsOutcome role rules.now frames.now text.old
        text.new result }
{
    roles_calls::restore_as(role, rules, frames, text)
}

// Explains why a position of the text (place of the chain) has no hold of one rule, where the role
// may.
#[unsafe(no_mangle)]
pub extern "C" fn explain_as(
    role: u32,
    number: u32,
    position: u32,
    rules: &[u8; 2081],
    text: &[u8],
    order: &mut [i16],
    delta2: &mut [u16],
    delta1: &mut [u16],
    delta3: &mut [u16],
) -> ExplainAnswer
    ensures { ExplainAsOutcome role number position rules.now text.now
        (tables order.old delta2.old delta1.old delta3.old)
        (tables order.new delta2.new delta1.new delta3.new) result }
{
    roles_calls::explain_as(
        role, number, position, rules, text, order, delta2, delta1, delta3,
    )
}

// Prices a text (chain) that is converted by a table of rules, where the role may.
#[unsafe(no_mangle)]
pub extern "C" fn price_as(
    role: u32,
    rules: &[u8; 2081],
    text: &[u8],
    order: &mut [i16],
    delta2: &mut [u16],
    delta1: &mut [u16],
    delta3: &mut [u16],
    found: &mut [u16],
) -> PriceAnswer
    ensures { PriceAsOutcome role rules.now text.now
        (tables order.old delta2.old delta1.old delta3.old)
        (tables order.new delta2.new delta1.new delta3.new)
        found.old found.new result }
{
    roles_calls::price_as(role, rules, text, order, delta2, delta1, delta3, found)
}

// Puts a new pattern (motif) and hold offset (hold place) in one rule of a table, where the role
// may.
#[unsafe(no_mangle)]
pub extern "C" fn edit_as(
    role: u32,
    number: u32,
    hold_offset: u32,
    pattern: &[u8],
    rules: &mut [u8; 2081],
) -> Answer
    ensures { EditAsOutcome role number hold_offset pattern.now rules.old
        rules.new result }
{
    roles_calls::edit_as(role, number, hold_offset, pattern, rules)
}

// Writes what SEEK prints for the job of a file. It keeps the job, its tables and its buffers on
// the stack: the thread that calls it needs 192 KiB.
#[unsafe(no_mangle)]
pub extern "C" fn seek_report(file: &[u8], out: &mut [u8]) -> ReportAnswer
    ensures { ReportOutcome file.now out.old out.new result }
{
    report::seek_report(file, out)
}
