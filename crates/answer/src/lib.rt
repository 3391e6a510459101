// Answers: what an accepted step gives, or the refusal, with document 01's number of each.
#![tactic(auto)]

ghost use Rattle.std.specs.Prelude.{◌≡◌};
ghost use Rattle.answer.specs.Answer.{refusal_number, number_of, value_of};

// Why a step, an image, a list or a text is refused, by document 01's numbers. There is no 9.
#[derive(Clone, Copy, Debug, PartialEq, Eq)]
pub enum Refusal {
    // Refused because of the input.
    NoSuchKind = 1,
    NoSuchThread = 2,
    NoSuchPlace = 3,
    UnusedField = 4,
    // Refused because of the state.
    LogFull = 5,
    LsnsUsedUp = 6,
    Releasing = 7,
    Race = 8,
    NotLogged = 10,
    EntryNotDurable = 11,
    LockHeld = 12,
    LockNotHeld = 13,
    NotReleasing = 14,
    NothingToPrune = 15,
    EarlierReleaseNotPruned = 16,
    CellNotDurable = 17,
    NoLiveEntry = 18,
    // Refused because of the input, by a later request's number.
    NoSuchWordCount = 19,
    // A line of text, a buffer, an image, a list of cells or a claimed undo order that can't be used.
    Unreadable = 20,
    WrongLength = 21,
    BadHead = 22,
    BadEntry = 23,
    Cyclic = 24,
    TooManyCells = 25,
    NotPairs = 26,
    NotAnOrder = 27,
}

// A step's answer: it was taken, with the number that document 01 names for its kind, or 0; or why it is refused.
pub type Answer = Result<u64, Refusal>;

impl From<Refusal> for u64 {
    ghost from_gives = { λ refusal number. number ≡ refusal_number refusal };

    // Document 01's number of a refusal.
    fn from(refusal: Refusal) -> u64 {
        refusal as u64
    }
}

// Document 01's number of an answer: 0 is acceptance.
pub fn number(answer: Answer) -> u64
    ensures { result ≡ number_of answer }
{
    match answer {
        Ok(_) => 0,
        Err(refusal) => u64::from(refusal),
    }
}

// The number beside the answer: what an accepted step gives, and 0 beside a refusal.
pub fn value(answer: Answer) -> u64
    ensures { result ≡ value_of answer }
{
    answer.unwrap_or(0)
}
