// Capital hexadecimal digits: a byte read as a digit, the digit of a value, and a table of the two
// digits of each byte.
#![tactic(auto)]

ghost use Rattle.std.specs.Prelude.{◌≡◌, ◌%◌, ◌≤◌};
ghost use Rattle.hex_digits.specs.Parsed.{ParsedOutcome};
ghost use Rattle.hex_digits.specs.Hex.{is_digit, digit_value, digit, digits};
ghost use Rattle.hex_digits.specs.Pairs.{DigitPairs};

// The value of a byte that is known to be a digit. Once a file's lines are checked, their digits
// need no test for refusal 2 again.
pub fn value_of(digit: u8) -> u8
    requires { 0x30 ≤ digit }
    ensures { result ≡ digit_value digit }
{
    if digit <= 0x39 {
        digit - 0x30
    } else {
        digit - 0x37
    }
}

// A byte read as a digit: each range of digits has its value, and any other byte has none, which is
// refusal 2.
pub fn digit_value(byte: u8) -> Option<u8>
    ensures { ParsedOutcome (is_digit byte) (digit_value byte) result }
{
    match byte {
        0x30..=0x39 => Some(byte - 0x30),
        0x41..=0x46 => Some(byte - 0x37),
        _ => None,
    }
}

// The digit of a value below 16; of a larger one, of its last hexadecimal place.
pub fn digit_of(value: u8) -> u8
    ensures { result ≡ digit (value % 16) }
{
    let place = value % 16;
    if place < 10 {
        0x30 + place
    } else {
        0x37 + place
    }
}

// The two digits of each byte, those of byte b at 2 b and 2 b + 1. Nothing compares or copies it.
#[derive(Drop)]
pub struct PairTable {
    pairs: [u8; 512],
    ghost right: { DigitPairs pairs },
}

impl PairTable {
    // A table of pairs that are right.
    pub fn of(pairs: [u8; 512]) -> PairTable
        requires { DigitPairs pairs }
        ensures { result.pairs ≡ pairs }
    {
        PairTable { pairs }
    }

    // A report works the table out once and lends it for each line.
    pub fn new() -> PairTable {
        let mut pairs = [0; 512];
        // by index: what as_chunks_mut leaves in the flat table the check does not know
        for byte in 0..256 {
            pairs[2 * byte] = digit_of((byte / 16) as u8);
            pairs[2 * byte + 1] = digit_of(byte as u8);
        }
        PairTable::of(pairs)
    }

    // The two digits of a byte.
    pub fn digits_of(&self, byte: u8) -> [u8; 2]
        ensures { result ≡ digits 2 byte }
    {
        let place = 2 * byte as usize;
        [self.pairs[place], self.pairs[place + 1]]
    }
}
