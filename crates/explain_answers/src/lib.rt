// Why a position has no hold: the explanation as an enum, and the answer at the C boundary, which
// carries no enum.
#![tactic(auto)]

ghost use Rattle.std.specs.Prelude.{◌≡◌};
ghost use Rattle.answers.specs.Reasons.{number_of};
ghost use Rattle.explain_answers.specs.Answer.{explained, refused};

use answers::{Answer, Reason};

// The kind of a shift. Each has its number in document 02, which C sees.
#[derive(Clone, Copy, Debug, PartialEq, Eq)]
pub enum ShiftKind {
    // the first comparison differed, that of the last byte (last card)
    LastByte = 1,
    // a later one by the order differed
    Order = 2,
    // all agreed (after a find)
    AfterOccurrence = 3,
    // one of a repeat differed
    LongRepeat = 4,
}

// Why a position has no hold.
#[derive(Clone, Copy, Debug, PartialEq, Eq)]
pub enum Explanation {
    // it is an occurrence (find), so it has its hold
    Listed,
    // the pattern (motif) was laid there, and this position of it differed
    Tried(u32),
    // the pattern was never laid there
    PassedOver {
        // the text position that it was shifted from
        from: u32,
        // the pattern position at which the earliest comparison (look) spoils it
        spoilt: u32,
        kind: ShiftKind,
    },
}

// What explaining answers. What is not told is 0 in it.
#[repr(C)]
#[derive(Clone, Copy, Debug, Default, PartialEq, Eq)]
pub struct ExplainAnswer {
    pub answer: Answer,
    // 1 listed, 2 tried, 3 passed over
    pub outcome: u32,
    // a pattern position (motif place): the one that differed, or the one that is spoilt
    pub place: u32,
    // a text position (chain place): the one that the pattern was shifted from
    pub from: u32,
    // 1 last byte, 2 order, 3 after an occurrence, 4 long repeat
    pub kind: u32,
}

// The answer that tells an explanation.
impl From<Explanation> for ExplainAnswer {
    ghost from_gives = { λ explanation answer. answer ≡ explained explanation };

    fn from(explanation: Explanation) -> ExplainAnswer {
        match explanation {
            Explanation::Listed => ExplainAnswer {
                outcome: 1,
                ..ExplainAnswer::default()
            },
            Explanation::Tried(place) => ExplainAnswer {
                outcome: 2,
                place,
                ..ExplainAnswer::default()
            },
            Explanation::PassedOver { from, spoilt, kind } => ExplainAnswer {
                outcome: 3,
                place: spoilt,
                from,
                kind: kind as u32,
                ..ExplainAnswer::default()
            },
        }
    }
}

// The answer of a call that is refused by a number. It is there beside `From`: it promises this of
// every number.
pub fn refused(status: u32) -> ExplainAnswer
    ensures { result ≡ refused status }
{
    ExplainAnswer {
        answer: answers::status_only(status),
        ..ExplainAnswer::default()
    }
}

// The same by a reason.
impl From<Reason> for ExplainAnswer {
    ghost from_gives = { λ reason answer. answer ≡ refused (number_of reason) };

    fn from(reason: Reason) -> ExplainAnswer {
        refused(reason as u32)
    }
}
