// SEEK: reads a job on standard input and prints its report.
#![tactic(auto)]

ghost use Rattle.std.specs.Prelude.{IfOk, IfErr, ◌≡◌, List, ℕ, ◌≤◌, ◌<◌, length, take};
ghost use Rattle.report.specs.Promises.{input_room, ReadFrom, longest_report};
ghost use Rattle.report.specs.Report.{seek_report};

use report_lines::LONGEST_REPORT;
use std::io::{Read, Write};

// One byte more than the longest job file has, so that a longer file is told from it.
const INPUT_ROOM: usize = 11 + 3 * (answers::LONGEST_PATTERN + answers::LONGEST_TEXT) + 1;

// A read failed, after so many bytes were put at the start of the buffer.
#[derive(Clone, Copy, Debug)]
struct ReadFailed {
    bytes: usize,
}

// Reads standard input to its end, or until the buffer is full, and returns how many bytes that
// were. Proved: they are entries of the buffer, and a full buffer is no failure. That these entries
// are the input's first bytes in their order, and that a failure tells of a read that failed, no
// contract says, since `read` promises a count alone: the listing and the tests hold it.
fn read_input<R: Read>(input: &mut R, buf: &mut [u8]) -> Result<usize, ReadFailed>
    ensures inside { IfOk result (λ bytes. bytes ≤ length buf.new) }
    ensures counts { IfOk result (λ bytes. bytes ≡ length (take bytes buf.new)) }
    ensures full { IfErr result (λ failure. failure.bytes < length buf.new) }
{
    let mut bytes = 0;
    // a read gives any number of bytes, which no range has
    while bytes < buf.len() {
        let more = input
            .read(&mut buf[bytes..])
            .map_err(|_| ReadFailed { bytes })?;
        if more == 0 {
            break;
        }
        bytes += more;
    }
    Ok(bytes)
}

// Writes the report of standard input to the front of `out` and returns its length. The first
// `bytes` entries of the buffer `read` came from standard input. Input that is longer than the
// buffer is longer than every job, and what was read of it is refused by the number that the whole
// gives. The buffer is passed whole beside the count, since `ReadFrom` speaks of its length.
fn report_of(read: &[u8], bytes: usize, out: &mut [u8]) -> usize
    requires size { length read.now ≡ input_room }
    requires inside { bytes ≤ length read.now }
    requires room { longest_report ≤ length out.old }
    ensures inside { result ≤ length out.new }
    ensures counts { result ≡ length (take result out.new) }
    ensures reported { (file : List ℕ) → ReadFrom read.now bytes file →
        take result out.new ≡ seek_report file }
{
    report::seek_report(&read[..bytes], out).bytes as usize
}

// Prints the report of standard input. Proved: it is safe and ends, and `report_of` writes the
// report of every file that the buffer was read from (`ReadFrom`). That standard input is such a
// file, and that the report is what goes out, no contract says: the listing and the tests hold it.
fn main(rt: HostRuntime) {
    let mut read: [u8; INPUT_ROOM] = [0; INPUT_ROOM];
    let Ok(bytes_read) = read_input(&mut rt.stdin(), &mut read) else {
        let _ = rt
            .stderr()
            .write_all(b"SEEK: standard input could not be read\n");
        return;
    };
    let mut out: [u8; LONGEST_REPORT] = [0; LONGEST_REPORT];
    let bytes = report_of(&read, bytes_read, &mut out);
    if rt.stdout().write_all(&out[..bytes]).is_err() {
        let _ = rt
            .stderr()
            .write_all(b"SEEK: the report could not be written\n");
    }
}
