// What searching and converting with a table of rules answer.
#![tactic(auto)]

ghost use Rattle.std.specs.Prelude.{◌≡◌};
ghost use Rattle.answers.specs.Reasons.{number_of};
ghost use Rattle.rules_answers.specs.Answers.{told, no_answers, rules_refused};

use answers::{Answer, Reason};

// What is told of one rule.
#[repr(C)]
#[derive(Clone, Copy, Debug, Default, PartialEq, Eq)]
pub struct RuleAnswer {
    // the finds, h
    pub occurrences: u32,
    // the looks, C
    pub comparisons: u32,
    // the period of the motif, p
    pub period: u32,
    // the most looks that demand 3 allows
    pub bound: u32,
    // 1 where the rule found nothing, else 0: a number, as C has it
    pub unmatched: u32,
}

// What is told of a rule that has been searched for.
impl From<Answer> for RuleAnswer {
    ghost from_gives = { λ searched answer. answer ≡ told searched };

    fn from(searched: Answer) -> RuleAnswer {
        RuleAnswer {
            occurrences: searched.occurrences,
            comparisons: searched.comparisons,
            period: searched.period,
            bound: searched.bound,
            unmatched: u32::from(searched.occurrences == 0),
        }
    }
}

// What is told of a table: an entry for each rule, and zeros past the last. It is large, and not to
// be copied unseen: no `Copy`.
#[repr(C)]
#[derive(Debug, Default, PartialEq, Eq, Drop)]
pub struct RulesAnswer {
    // the number: 0 for done, or that of the refusal
    pub status: u32,
    // the holes of the chain
    pub ones: u32,
    pub rules: [RuleAnswer; 16],
}

// The entries before any rule has been searched for.
pub fn none_told() -> [RuleAnswer; 16]
    ensures { result ≡ no_answers }
{
    [RuleAnswer::default(); 16]
}

// The answer of a call that is refused by a number. It is there beside `From`: it promises this of
// every number.
pub fn refused(status: u32) -> RulesAnswer
    ensures { result ≡ rules_refused status }
{
    RulesAnswer {
        status,
        ones: 0,
        rules: none_told(),
    }
}

// The same by a reason.
impl From<Reason> for RulesAnswer {
    ghost from_gives = { λ reason answer. answer ≡ rules_refused (number_of reason) };

    fn from(reason: Reason) -> RulesAnswer {
        refused(reason as u32)
    }
}
