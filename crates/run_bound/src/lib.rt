// The bound on the comparisons of a search, worked out.
#![tactic(auto)]

ghost use Rattle.std.specs.Prelude.{◌≡◌, ◌≤◌};
ghost use Rattle.answers.specs.Refusals.{longest_pattern};
ghost use Rattle.steps.specs.Bound.{bound};

// The most comparisons (looks) that demand 3 allows a search for a pattern (motif) of m bytes and
// this period, with so many occurrences (finds). The span N is how many positions of the text
// (chain) are shown.
#[tactic(auto, unfolding(steps::specs::Bound::bound), using(std::proofs::Common::tests))]
pub fn comparison_bound(m: u32, span: u32, occurrences: u32, period: u32) -> u32
    requires short_pattern { m ≤ longest_pattern }
    requires short_span { span ≤ 65535 }
    requires few { occurrences ≤ span }
    requires period { period ≤ m }
    ensures { result ≡ bound m span occurrences period }
{
    if span < m {
        return 0;
    }
    if 3 * period <= m {
        return 2 * span - m;
    }
    let beyond = m.saturating_sub(2 * period);
    2 * span - m + occurrences * beyond
}
