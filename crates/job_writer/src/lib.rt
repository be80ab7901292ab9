// Writing a job file.
#![tactic(auto)]

ghost use Rattle.std.specs.Prelude.{IfOk, ◌≡◌, ◌+◌, ◌*◌, ◌≤◌, length};
ghost use Rattle.answers.specs.Buffers.{from_entry};
ghost use Rattle.answers.specs.Reasons.{status_of};
ghost use Rattle.answers.specs.Refusals.{WithinLimits};
ghost use Rattle.job.specs.Job.{first_line, file_length};
ghost use Rattle.hex_lines.specs.Lines.{lines};
ghost use Rattle.job.specs.Write.{write_status, WriteOutcome};

use answers::{Answer, Reason};
use job::WriteAnswer;

// What writing a job file is refused for, decided before anything is written.
fn check_write(m: usize, hold_offset: u32, n: usize, file_len: usize) -> Result<(), Reason>
    ensures status { status_of result ≡ write_status m hold_offset n file_len }
    ensures limits { IfOk result (λ _. WithinLimits m hold_offset n) }
    ensures room { IfOk result (λ _. file_length m n ≤ file_len) }
{
    answers::check_job(m, hold_offset as usize, n)?;
    if file_len < 11 + 3 * m + 3 * n {
        return Err(Reason::ShortBuffer);
    }
    Ok(())
}

// Writes the first line of a job file at the front of the buffer, and returns the index after it.
fn write_first_line(m: u32, hold_offset: u32, n: u32, out: &mut [u8]) -> usize
    requires { 11 ≤ length out.old }
    ensures end { result ≡ 11 }
    ensures written { out.new ≡ from_entry 0 (first_line m hold_offset n)
        out.old }
{
    let at = hex_lines::write_digits(2, 1, 0, out);
    let at = hex_lines::write_digits(2, m, at, out);
    let at = hex_lines::write_digits(2, hold_offset, at, out);
    hex_lines::write_line(4, n, at, out)
}

// Writes each byte on a line of its own, the first line at index `at`, and returns the index after
// the last line. That of report_lines writes four digits by a table: no twin. `at` stands beside
// `out` as in hex_lines.
fn write_lines(bytes: &[u8], at: usize, out: &mut [u8]) -> usize
    requires { at + 3 * length bytes.now ≤ length out.old }
    ensures end { result ≡ at + 3 * length bytes.now }
    ensures written { out.new ≡ from_entry at (lines 2 bytes.now) out.old }
{
    let mut next = at;
    for &byte in bytes {
        next = hex_lines::write_line(2, u32::from(byte), next, out);
    }
    next
}

// Writes the job file of a hold offset (hold place), a pattern (motif) and a text (chain).
pub fn write_job(hold_offset: u32, pattern: &[u8], text: &[u8], file: &mut [u8]) -> WriteAnswer
    ensures { WriteOutcome hold_offset pattern.now text.now
        file.old file.new result }
{
    let m = pattern.len();
    let n = text.len();
    if let Err(reason) = check_write(m, hold_offset, n, file.len()) {
        return WriteAnswer::from(reason);
    }
    let pattern_at = write_first_line(m as u32, hold_offset, n as u32, file);
    let text_at = write_lines(pattern, pattern_at, file);
    let bytes = write_lines(text, text_at, file);
    WriteAnswer {
        answer: Answer::default(),
        bytes: bytes as u32,
    }
}
