// What every call answers, beside what a call adds of its own; why a call is refused; and the tests
// for what whoever drew the job can cause. A test that lets a call pass is `Ok`.
#![tactic(auto)]

ghost use Rattle.std.specs.Prelude.{◌≡◌, [], ◌∷◌};
ghost use Rattle.answers.specs.Answers.{status_only, prepared, searched, converted, counted};
ghost use Rattle.answers.specs.Reasons.{number_of, status_of};
ghost use Rattle.answers.specs.Refusals.{first_of, text_refusal, rule_refusals, job_refusals};

// The most bytes (cards) of a pattern (motif).
pub const LONGEST_PATTERN: usize = 128;

// The most bytes (cards) of a text (chain).
pub const LONGEST_TEXT: usize = 16384;

// Why a call is refused. Each reason has its number in document 01 or 02, which C sees.
#[derive(Clone, Copy, Debug, PartialEq, Eq)]
pub enum Reason {
    // a file under 11 bytes, or not of the length that its first line gives
    FileLength = 1,
    // a byte that is not the digit or line end due there
    WrongByte = 2,
    // an edition other than 1
    Edition = 3,
    // m is 0 or above 128
    PatternLength = 4,
    // the hold offset (hold place) is not below m
    HoldOffset = 5,
    // n above 16,384
    TextLength = 6,
    // a buffer of the caller has fewer entries than are needed
    ShortBuffer = 7,
    // a way of turning above 3
    Way = 8,
    // frames that are no conversion
    NoConversion = 9,
    // a position of n or more
    Position = 10,
    // no rules or more than 16, or a number that is no rule of the table
    RuleNumber = 11,
    // two rules claim one byte (card)
    ClaimedTwice = 12,
    // a role above 2, or a job that is not permitted to it
    Role = 13,
}

// Document 01's answer, with document 02's period and bound. What a call does not work out is 0 in
// it, and a refused call answers zeros beside its status.
#[repr(C)]
#[derive(Clone, Copy, Debug, Default, PartialEq, Eq)]
pub struct Answer {
    // the number: 0 for done, or that of the refusal
    pub status: u32,
    // the finds, h
    pub occurrences: u32,
    // the looks, C
    pub comparisons: u32,
    // the holes of the chain
    pub ones: u32,
    // the period of the motif, p
    pub period: u32,
    // the most looks that demand 3 allows
    pub bound: u32,
}

// The answer of a call that answers its status alone. It is there beside `From`: it promises this
// of every number.
pub fn status_only(status: u32) -> Answer
    ensures { result ≡ status_only status }
{
    Answer {
        status,
        ..Answer::default()
    }
}

// The answer of a call that is refused.
impl From<Reason> for Answer {
    ghost from_gives = { λ reason answer. answer ≡ status_only (number_of reason) };

    fn from(reason: Reason) -> Answer {
        status_only(reason as u32)
    }
}

// The answer of a call that has prepared a pattern (motif).
pub fn prepared(period: u32) -> Answer
    ensures { result ≡ prepared period }
{
    Answer {
        period,
        ..Answer::default()
    }
}

// The answer of a call that has searched.
pub fn searched(occurrences: u32, comparisons: u32, period: u32, bound: u32) -> Answer
    ensures { result ≡ searched occurrences comparisons period bound }
{
    Answer {
        occurrences,
        comparisons,
        period,
        bound,
        ..Answer::default()
    }
}

// The answer of a call that has converted: what its search answers, and the ones of the text (the
// holes of the chain).
pub fn converted(search: Answer, ones: u32) -> Answer
    ensures { result ≡ converted search ones }
{
    Answer { ones, ..search }
}

// The answer of a call that has counted the ones of a text.
pub fn counted(ones: u32) -> Answer
    ensures { result ≡ counted ones }
{
    Answer {
        ones,
        ..Answer::default()
    }
}

// 4 and 5 in their order. A call that takes no hold offset (hold place) passes 0.
pub fn check_rule(m: usize, hold_offset: usize) -> Result<(), Reason>
    ensures { status_of result ≡ first_of (rule_refusals m hold_offset) }
{
    if m == 0 || LONGEST_PATTERN < m {
        return Err(Reason::PatternLength);
    }
    if m <= hold_offset {
        return Err(Reason::HoldOffset);
    }
    Ok(())
}

// 6.
pub fn check_text(n: usize) -> Result<(), Reason>
    ensures { status_of result ≡ first_of (text_refusal n ∷ []) }
{
    if LONGEST_TEXT < n {
        return Err(Reason::TextLength);
    }
    Ok(())
}

// 4, 5 and 6 in their order. A call that takes no text (chain) passes 0 for n.
pub fn check_job(m: usize, hold_offset: usize, n: usize) -> Result<(), Reason>
    ensures { status_of result ≡ first_of (job_refusals m hold_offset n) }
{
    check_rule(m, hold_offset)?;
    check_text(n)
}
