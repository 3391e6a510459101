// The kinds of step by document 01's and document 02's numbers, and the tests of a step's four numbers. Knows nothing of what a step does.
#![tactic(auto)]

ghost use Rattle.std.specs.Prelude.{◌≡◌, false, not, ◌||◌, ◌++◌, eqb, Some, IfOk};
ghost use Rattle.sizes.specs.Sizes.{entry_words};
ghost use Rattle.answer.specs.Refusals.{first_refusal};
ghost use Rattle.kinds.specs.Kinds.{counted, kind_of, found, field_tests, count_tests, input_tests, input_answer, InputFits};

use answer::{Answer, Refusal};
use sizes::words::{CELLS, ENTRY_WORDS, LINES, LOCKS, SLOTS, THREADS};

// The kinds of step, by their numbers. There is no 11.
#[derive(Clone, Copy, Debug, PartialEq, Eq)]
pub enum Kind {
    Load = 1,
    Log = 2,
    Store = 3,
    Acquire = 4,
    LogRel = 5,
    Release = 6,
    Flush = 7,
    FlushLog = 8,
    Fence = 9,
    Prune = 10,
    EvictLog = 12,
    EvictCell = 13,
    EvictWords = 14,
}

impl TryFrom<u64> for Kind {
    type Error = Refusal;

    ghost try_from_gives = { λ number result. result ≡ found (kind_of number) };

    // The kind of a number, or test 1's refusal where no kind has it.
    #[tactic(auto, unfolding(crate::specs::Kinds::kind_of))]
    fn try_from(number: u64) -> Result<Kind, Refusal> {
        match number {
            1 => Ok(Kind::Load),
            2 => Ok(Kind::Log),
            3 => Ok(Kind::Store),
            4 => Ok(Kind::Acquire),
            5 => Ok(Kind::LogRel),
            6 => Ok(Kind::Release),
            7 => Ok(Kind::Flush),
            8 => Ok(Kind::FlushLog),
            9 => Ok(Kind::Fence),
            10 => Ok(Kind::Prune),
            12 => Ok(Kind::EvictLog),
            13 => Ok(Kind::EvictCell),
            14 => Ok(Kind::EvictWords),
            _ => Err(Refusal::NoSuchKind),
        }
    }
}

impl From<Kind> for u64 {
    ghost from_gives = { λ kind number. kind_of number ≡ Some kind };

    // The kind's number.
    #[tactic(auto, unfolding(crate::specs::Kinds::kind_of))]
    fn from(kind: Kind) -> u64 {
        kind as u64
    }
}

// One of two fields is not 0.
pub fn is_left(field: u64, other: u64) -> bool
    ensures { result ≡ (not (eqb field 0) || not (eqb other 0)) }
{
    field != 0 || other != 0
}

// The first refusal of the tests 2, 3 and 4, or acceptance: `over` says that the place is out of range, and `left` that a field is unused
// and not 0.
#[tactic(auto, unfolding(answer::specs::Refusals::unless, answer::specs::Refusals::first_refusal))]
pub fn fields_answer(thread: u64, over: bool, left: bool) -> Answer
    ensures { result ≡ first_refusal (field_tests thread over left) }
{
    if THREADS <= thread {
        return Err(Refusal::NoSuchThread);
    }
    if over {
        return Err(Refusal::NoSuchPlace);
    }
    if left {
        return Err(Refusal::UnusedField);
    }
    Ok(0)
}

// The first refusal of the tests 2, 3 and 19 of a kind that counts words and uses all of its fields, or acceptance.
#[tactic(auto, unfolding(answer::specs::Refusals::unless, answer::specs::Refusals::first_refusal))]
fn words_answer(thread: u64, over: bool, count: u64) -> Answer
    ensures { result ≡ first_refusal (field_tests thread over false ++ count_tests (counted entry_words) count) }
{
    fields_answer(thread, over, false)?;
    if count == 0 || ENTRY_WORDS < count {
        return Err(Refusal::NoSuchWordCount);
    }
    Ok(0)
}

impl Kind {
    // The first refusal of the input's tests 2, 3, 4 and 19, or acceptance, where every field is in its range, and 0 if the kind does not
    // use it.
    #[tactic(auto, using(crate::proofs::Inputs::answer_fits))]
    pub fn input_answer(self, thread: u64, place: u64, value: u64) -> Answer
        ensures refusal { result ≡ first_refusal (input_tests self thread place value) }
        ensures fits { IfOk result (λ _. InputFits self thread place value) }
    {
        self.tested(thread, place, value)
    }

    // The tests alone, apart from that an accepted input fits: the one is found by cases, the other by one lemma.
    #[tactic(auto, using(crate::proofs::Inputs::not_below), unfolding(crate::specs::Kinds::input_tests))]
    fn tested(self, thread: u64, place: u64, value: u64) -> Answer
        ensures { result ≡ first_refusal (input_tests self thread place value) }
    {
        match self {
            Kind::Load | Kind::Log => fields_answer(thread, CELLS <= place, value != 0),
            Kind::Store => fields_answer(thread, CELLS <= place, false),
            Kind::Acquire | Kind::LogRel | Kind::Release => {
                fields_answer(thread, LOCKS <= place, value != 0)
            }
            Kind::Flush => fields_answer(thread, LINES <= place, value != 0),
            Kind::FlushLog | Kind::Fence | Kind::Prune => {
                fields_answer(thread, false, is_left(place, value))
            }
            Kind::EvictLog => fields_answer(thread, SLOTS <= place, value != 0),
            Kind::EvictCell => fields_answer(thread, CELLS <= place, is_left(thread, value)),
            Kind::EvictWords => words_answer(thread, SLOTS <= place, value),
        }
    }
}

// The first refusal of the input's tests 1, 2, 3, 4 and 19, or acceptance. A step's words come one by one, here and in `step` and
// `script`, as `step_of` names them and the manual lists them: a struct of the four would be taken apart again for each kind, which has
// its own.
pub fn input_answer(kind: u64, thread: u64, place: u64, value: u64) -> Answer
    ensures { result ≡ input_answer (kind_of kind) thread place value }
{
    Kind::try_from(kind)?.input_answer(thread, place, value)
}
