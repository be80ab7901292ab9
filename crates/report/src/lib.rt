// What SEEK prints: from the bytes of a job file to the bytes of its report.
#![tactic(auto)]

ghost use Rattle.std.specs.Prelude.{◌≤◌, ◌<◌, length};
ghost use Rattle.answers.specs.Refusals.{longest_pattern, longest_text};
ghost use Rattle.report_lines.specs.Printed.{ReportWritten};
ghost use Rattle.report.specs.Report.{done_report, ReportOutcome};

use answers::{LONGEST_PATTERN, LONGEST_TEXT};
use report_lines::ReportAnswer;

// Converts a job that is taken, and writes its report.
fn report_taken(hold_offset: u32, pattern: &[u8], text: &[u8], out: &mut [u8]) -> ReportAnswer
    requires offset { hold_offset < length pattern.now }
    requires short_pattern { length pattern.now ≤ longest_pattern }
    requires short_text { length text.now ≤ longest_text }
    ensures { ReportWritten (done_report hold_offset pattern.now text.now)
        out.old out.new result }
{
    // Memory is fixed: each buffer has the size that the longest job needs.
    let mut order = [0i16; LONGEST_PATTERN + 1];
    let mut delta2 = [0u16; LONGEST_PATTERN + 1];
    let mut delta1 = [0u16; 256 * LONGEST_PATTERN];
    let mut delta3 = [0u16; LONGEST_PATTERN];
    let mut found = [0u16; LONGEST_TEXT];
    let mut frames = [0u16; LONGEST_TEXT];
    let searched = search::search_within(
        pattern,
        text,
        &mut order,
        &mut delta2,
        &mut delta1,
        &mut delta3,
        &mut found,
    );
    let converted = convert::write_frames(
        searched,
        hold_offset as usize,
        text,
        &found,
        &mut frames,
    );
    let h = converted.occurrences as usize;
    let n = text.len();
    report_lines::write_done(converted, &found[..h], &frames[..n], out)
}

// Writes what SEEK prints for the job of a file.
pub fn seek_report(file: &[u8], out: &mut [u8]) -> ReportAnswer
    ensures { ReportOutcome file.now out.old out.new result }
{
    let mut pattern = [0u8; LONGEST_PATTERN];
    let mut text = [0u8; LONGEST_TEXT];
    let read = job_reader::read_job(file, &mut pattern, &mut text);
    // The status is the C interface's number, which the report of a refused job prints.
    let status = read.answer.status;
    if status != 0 {
        return report_lines::write_refused(status, out);
    }
    let m = read.m as usize;
    let n = read.n as usize;
    report_taken(read.q, &pattern[..m], &text[..n], out)
}
