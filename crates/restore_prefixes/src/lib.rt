// The longest prefix of a pattern that ends at each position of a text, by Knuth, Morris and
// Pratt's links.
#![tactic(auto)]

ghost use Rattle.std.specs.Prelude.{ℕ, ◌≡◌, ◌+◌, ◌<◌, ◌≤◌, length};
ghost use Rattle.answers.specs.Refusals.{longest_pattern};
ghost use Rattle.restore_prefixes.specs.Links.{LinksTo};
ghost use Rattle.restore_prefixes.specs.Prefixes.{extended, longest_prefix};

use answers::LONGEST_PATTERN;

// The longest prefix that ends after a byte, from the longest that ends before it, both by their
// lengths. Where the byte does not extend a prefix, its link is followed to the next shorter one
// that ends there; no byte extends the whole pattern.
pub fn extended(pattern: &[u8], links: &[u8], prefix: usize, byte: u8) -> usize
    requires some { 1 ≤ length pattern.now }
    requires within { prefix ≤ length pattern.now }
    requires linked { LinksTo prefix pattern.now links.now }
    ensures { result ≡ extended pattern.now prefix byte }
{
    let mut k = prefix;
    if k == pattern.len() {
        k = usize::from(links[k]);
    }
    // it follows the links, which no range has
    loop {
        if pattern[k] == byte {
            return k + 1;
        }
        if k == 0 {
            return 0;
        }
        k = usize::from(links[k]);
    }
}

// The links of a pattern, each from the one before it.
pub fn links(pattern: &[u8]) -> [u8; LONGEST_PATTERN + 1]
    requires { length pattern.now ≤ longest_pattern }
    ensures size { length result ≡ longest_pattern + 1 }
    ensures linked { LinksTo (length pattern.now) pattern.now result }
{
    let mut links = [0; LONGEST_PATTERN + 1];
    let mut prefix = 0;
    for (k, &byte) in pattern.iter().enumerate().skip(1) {
        prefix = extended(pattern, &links, prefix, byte);
        // A link is at most 128, so that it fits: `try_from` would test what is proved.
        links[k + 1] = prefix as u8;
    }
    links
}

// The longest prefix of a pattern that ends after the first `count` bytes of a text, of which
// `byte` reads the one at each position.
pub fn prefix_after<F: Fn(usize) -> u8>(
    pattern: &[u8],
    links: &[u8],
    count: usize,
    byte: F,
) -> usize
    requires some { 1 ≤ length pattern.now }
    requires linked { LinksTo (length pattern.now) pattern.now links.now }
    requires read { (x : ℕ) → x < count → F.pre byte x }
    ensures { (show : ℕ → ℕ) → ((x c : ℕ) → x < count → F.post byte x c → c ≡ show x)
        → result ≡ longest_prefix show pattern.now count }
{
    let mut prefix = 0;
    for x in 0..count {
        prefix = extended(pattern, links, prefix, byte(x));
    }
    prefix
}
