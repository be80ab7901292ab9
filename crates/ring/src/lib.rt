// A text as a ring: which byte a position shows, and how far a search goes.
#![tactic(auto)]

ghost use Rattle.std.specs.Prelude.{◌≡◌, ◌+◌, ◌%◌, ◌≤◌, length};
ghost use Rattle.steps.specs.Text.{shown, span};

// x modulo n. It is divided only from 2 × n on, where a text is shorter than the pattern.
pub fn wrapped(x: usize, n: usize) -> usize
    requires { 1 ≤ n }
    ensures { result ≡ x % n }
{
    if x < n {
        x
    } else if x - n < n {
        x - n
    } else {
        x % n
    }
}

// The byte (card) that a text (chain) shows at position x.
#[tactic(auto, using(steps::proofs::Text::shown_at))]
pub fn byte_at(text: &[u8], x: usize) -> u8
    requires { 1 ≤ length text.now }
    ensures { result ≡ shown text.now x }
{
    text[wrapped(x, text.len())]
}

// How far a search goes: the pattern (motif) can be laid at each byte of the text, and nothing of
// an empty text is shown.
#[tactic(auto, using(steps::proofs::Text::span_none, steps::proofs::Text::span_some))]
pub fn span(pattern: &[u8], text: &[u8]) -> usize
    requires { length pattern.now + length text.now ≤ 65535 }
    ensures { result ≡ span pattern.now text.now }
{
    let n = text.len();
    if n == 0 { 0 } else { n + pattern.len() - 1 }
}
