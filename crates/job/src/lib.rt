// Job files: what reading and writing answer. The file's definition is in specs/, and what is
// promised of it in specs/Promises.antt.
#![tactic(auto)]

ghost use Rattle.std.specs.Prelude.{◌≡◌};
ghost use Rattle.answers.specs.Answers.{status_only};
ghost use Rattle.answers.specs.Reasons.{number_of};

use answers::{Answer, Reason};

// What reading answers.
#[repr(C)]
#[derive(Clone, Copy, Debug, Default, PartialEq, Eq)]
pub struct ReadAnswer {
    pub answer: Answer,
    // the lengths of pattern (motif) and text (chain), and the hold offset (hold place)
    pub m: u32,
    pub q: u32,
    pub n: u32,
}

// The answer of a call that is refused.
impl From<Reason> for ReadAnswer {
    ghost from_gives = { λ reason read. read
        ≡ record { answer = status_only (number_of reason); m = 0; q = 0; n = 0 } };

    fn from(reason: Reason) -> ReadAnswer {
        ReadAnswer {
            answer: Answer::from(reason),
            ..ReadAnswer::default()
        }
    }
}

// What writing answers.
#[repr(C)]
#[derive(Clone, Copy, Debug, Default, PartialEq, Eq)]
pub struct WriteAnswer {
    pub answer: Answer,
    // the file's length
    pub bytes: u32,
}

// The answer of a call that is refused.
impl From<Reason> for WriteAnswer {
    ghost from_gives = { λ reason written. written
        ≡ record { answer = status_only (number_of reason); bytes = 0 } };

    fn from(reason: Reason) -> WriteAnswer {
        WriteAnswer {
            answer: Answer::from(reason),
            ..WriteAnswer::default()
        }
    }
}
