// The ones of a text (the holes of a chain).
#![tactic(auto)]

ghost use Rattle.std.specs.Prelude.{◌≡◌, ◌<◌, ◌≤◌, length};
ghost use Rattle.answers.specs.Refusals.{longest_text};
ghost use Rattle.ones.specs.Ones.{ones_of, count_answer};
ghost use Rattle.ones.specs.Words.{word_of};

use answers::Answer;

// Eight bytes as one word, the first byte lowest.
fn word_of(bytes: &[u8; 8]) -> u64
    ensures { result ≡ word_of bytes.now }
{
    u64::from_le_bytes(*bytes)
}

// The ones of fewer than eight bytes, each counted by itself.
#[tactic(auto, using(crate::proofs::Sums::ones_summed))]
fn ones_by_bytes(text: &[u8]) -> u32
    requires { length text.now < 8 }
    ensures { result ≡ ones_of text.now }
{
    text.iter().map(|byte| byte.count_ones()).sum()
}

// The ones of the bytes of a text (the holes of a chain): eight bytes together where eight remain,
// and each of the rest by itself.
pub fn ones_of(text: &[u8]) -> u32
    requires { length text.now ≤ longest_text }
    ensures { result ≡ ones_of text.now }
{
    let (words, rest) = text.as_chunks::<8>();
    let ones: u32 = words.iter().map(|bytes| word_of(bytes).count_ones()).sum();
    ones + ones_by_bytes(rest)
}

// Counts the ones of a text (the holes of a chain).
pub fn count_ones(text: &[u8]) -> Answer
    ensures { result ≡ count_answer text.now }
{
    if let Err(reason) = answers::check_text(text.len()) {
        return Answer::from(reason);
    }
    answers::counted(ones_of(text))
}
