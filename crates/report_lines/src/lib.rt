// The lines of a report, written into a caller's buffer.
#![tactic(auto)]

ghost use Rattle.std.specs.Prelude.{◌≡◌, ◌+◌, ◌*◌, ◌≤◌, length};
ghost use Rattle.answers.specs.Answers.{status_only};
ghost use Rattle.answers.specs.Buffers.{from_entry};
ghost use Rattle.answers.specs.Reasons.{number_of};
ghost use Rattle.answers.specs.Refusals.{longest_text};
ghost use Rattle.hex_lines.specs.Lines.{lines};
ghost use Rattle.report_lines.specs.Printed.{numbers, number_lines, number_bytes};
ghost use Rattle.report_lines.specs.Printed.{report_lines, refused_report, ReportWritten};

use answers::{Answer, Reason};
use hex_digits::PairTable;

// The length of the report's lines of numbers: four digits, eight, eight, four and eight, and the
// end of each line.
const NUMBERS_LEN: usize = (4 + 1) + (8 + 1) + (8 + 1) + (4 + 1) + (8 + 1);

// The length of the longest report: its numbers, and a line of four digits for each of as many
// occurrences (finds) and as many frames as the longest text has bytes.
pub const LONGEST_REPORT: usize = NUMBERS_LEN
    + 5 * answers::LONGEST_TEXT
    + 5 * answers::LONGEST_TEXT;

// The length of the report of a job that is refused: FF, two digits and the line end.
const REFUSED_LEN: usize = 2 + 2 + 1;

// What writing a report answers.
#[repr(C)]
#[derive(Clone, Copy, Debug, Default, PartialEq, Eq)]
pub struct ReportAnswer {
    pub answer: Answer,
    // the report's length
    pub bytes: u32,
}

// The answer of a call that is refused.
impl From<Reason> for ReportAnswer {
    ghost from_gives = { λ reason written. written
        ≡ record { answer = status_only (number_of reason); bytes = 0 } };

    fn from(reason: Reason) -> ReportAnswer {
        ReportAnswer {
            answer: Answer::from(reason),
            ..ReportAnswer::default()
        }
    }
}

// Writes the lines of the answer's numbers, the first line at index 0, and returns the index after
// the last line.
fn write_numbers(converted: Answer, out: &mut [u8]) -> usize
    requires { number_bytes numbers ≤ length out.old }
    ensures end { result ≡ number_bytes numbers }
    ensures written { out.new ≡ from_entry 0 (number_lines numbers converted)
        out.old }
{
    let at = hex_lines::write_line(4, converted.occurrences, 0, out);
    let at = hex_lines::write_line(8, converted.comparisons, at, out);
    let at = hex_lines::write_line(8, converted.ones, at, out);
    let at = hex_lines::write_line(4, converted.period, at, out);
    hex_lines::write_line(8, converted.bound, at, out)
}

// Writes each number in four digits on a line of its own, the first line at index `at`, by the
// table of digit pairs, and returns the index after the last line.
fn write_lines(pairs: &PairTable, numbers: &[u16], at: usize, out: &mut [u8]) -> usize
    requires { at + 5 * length numbers.now ≤ length out.old }
    ensures end { result ≡ at + 5 * length numbers.now }
    ensures written { out.new ≡ from_entry at (lines 4 numbers.now) out.old }
{
    let mut next = at;
    for &number in numbers {
        next = hex_lines::write_four_digit_line(pairs, number, next, out);
    }
    next
}

// Writes the report of a job that is refused (turned away) by a status: the number that the C
// answer of `read_job` carries.
pub fn write_refused(status: u32, out: &mut [u8]) -> ReportAnswer
    ensures { ReportWritten (refused_report status) out.old out.new result }
{
    if out.len() < REFUSED_LEN {
        return ReportAnswer::from(Reason::ShortBuffer);
    }
    let at = hex_lines::write_digits(2, 0xFF, 0, out);
    let bytes = hex_lines::write_line(2, status, at, out);
    ReportAnswer {
        answer: Answer::default(),
        bytes: bytes as u32,
    }
}

// Writes the report of a job that is taken, from what it was converted to: the answer, the
// occurrences (finds) and the frames.
pub fn write_done(converted: Answer, found: &[u16], frames: &[u16], out: &mut [u8]) -> ReportAnswer
    requires few_found { length found.now ≤ longest_text }
    requires few_frames { length frames.now ≤ longest_text }
    ensures { ReportWritten (report_lines converted found.now frames.now)
        out.old out.new result }
{
    if out.len() < NUMBERS_LEN + 5 * found.len() + 5 * frames.len() {
        return ReportAnswer::from(Reason::ShortBuffer);
    }
    let at = write_numbers(converted, out);
    let pairs = PairTable::new();
    let at = write_lines(&pairs, found, at, out);
    let bytes = write_lines(&pairs, frames, at, out);
    ReportAnswer {
        answer: Answer::default(),
        bytes: bytes as u32,
    }
}
