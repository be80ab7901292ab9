// Numbers in capital hexadecimal, a line each, written into a caller's buffer.
#![tactic(auto)]

ghost use Rattle.std.specs.Prelude.{◌≡◌, ◌+◌, ◌≤◌, length};
ghost use Rattle.answers.specs.Buffers.{from_entry};
ghost use Rattle.hex_digits.specs.Hex.{digits};
ghost use Rattle.hex_lines.specs.Lines.{line};

use hex_digits::PairTable;

// The byte that ends each line.
pub const LINE_END: u8 = 0x0A;

// Writes a number in `count` digits, the first of them at index `at`, and returns the index after
// the last. A writer that holds `out` would be no plainer: each clause would name its two parts.
pub fn write_digits(count: usize, number: u32, at: usize, out: &mut [u8]) -> usize
    requires { at + count ≤ length out.old }
    ensures end { result ≡ at + count }
    ensures written { out.new ≡ from_entry at (digits count number) out.old }
{
    let mut rest = number;
    // by index: of iter_mut().rev() the check does not know the entries
    for i in (0..count).rev() {
        out[at + i] = hex_digits::digit_of((rest % 16) as u8);
        rest /= 16;
    }
    at + count
}

// Writes a number in `count` digits on a line that begins at index `at`, and returns the index at
// which the next line begins.
pub fn write_line(count: usize, number: u32, at: usize, out: &mut [u8]) -> usize
    requires { at + (count + 1) ≤ length out.old }
    ensures end { result ≡ at + (count + 1) }
    ensures written { out.new ≡ from_entry at (line count number) out.old }
{
    let end = write_digits(count, number, at, out);
    out[end] = LINE_END;
    end + 1
}

// Writes the two digits of a byte by the table of digit pairs, the first of them at index `at`, and
// returns the index after them.
fn write_pair(pairs: &PairTable, byte: u8, at: usize, out: &mut [u8]) -> usize
    requires { at + 2 ≤ length out.old }
    ensures end { result ≡ at + 2 }
    ensures written { out.new ≡ from_entry at (digits 2 byte) out.old }
{
    let [high, low] = pairs.digits_of(byte);
    // copy_from_slice is compiled with a test for overlap: a line takes 1.7 ns with it and 1.2
    // without.
    out[at] = high;
    out[at + 1] = low;
    at + 2
}

// Writes a number in four digits, as `write_line` does, by the table of digit pairs. It is apart
// from write_line for speed: a report has up to 32,768 such lines.
pub fn write_four_digit_line(pairs: &PairTable, number: u16, at: usize, out: &mut [u8]) -> usize
    requires { at + 5 ≤ length out.old }
    ensures end { result ≡ at + 5 }
    ensures written { out.new ≡ from_entry at (line 4 number) out.old }
{
    let middle = write_pair(pairs, (number / 256) as u8, at, out);
    let after = write_pair(pairs, (number % 256) as u8, middle, out);
    out[after] = LINE_END;
    after + 1
}
