// A step of any kind, by its number: the path of every program that takes steps. It stands on the machine's methods, one for each kind.
#![tactic(auto)]

ghost use Rattle.std.specs.Prelude.{◌≡◌, Some, Err, MatchResult};
ghost use Rattle.kinds.specs.Kinds.{kind_of, input_answer, InputFits};
ghost use Rattle.machine.specs.Steps.{step_of};

use answer::Refusal;
use kinds::Kind;
use machine::{Machine, Stepped};

// The kind of a step whose input is accepted, or the first refusal of the input's tests.
fn accepted_kind(kind: u64, thread: u64, place: u64, value: u64) -> Result<Kind, Refusal>
    ensures { MatchResult result
        (λ known. (kind_of kind ≡ Some known) × InputFits known thread place value)
        (λ refusal. input_answer (kind_of kind) thread place value ≡ Err refusal) }
{
    let known = Kind::try_from(kind)?;
    known.input_answer(thread, place, value)?;
    Ok(known)
}

// A step of any kind, with any four words, since the promise is about numbers of no kind too: the input's tests, then the method of its
// kind, of which the scope asks for one each.
pub fn step(machine: Machine, kind: u64, thread: u64, place: u64, value: u64) -> Stepped
    ensures { result ≡ step_of machine kind thread place value }
{
    match accepted_kind(kind, thread, place, value) {
        Err(refusal) => Stepped {
            answer: Err(refusal),
            machine,
        },
        Ok(Kind::Load) => machine.load(thread, place),
        Ok(Kind::Log) => machine.log(thread, place),
        Ok(Kind::Store) => machine.store(thread, place, value),
        Ok(Kind::Acquire) => machine.acquire(thread, place),
        Ok(Kind::LogRel) => machine.log_release(thread, place),
        Ok(Kind::Release) => machine.release(thread, place),
        Ok(Kind::Flush) => machine.flush(thread, place),
        Ok(Kind::FlushLog) => machine.flush_log(thread),
        Ok(Kind::Fence) => machine.fence(thread),
        Ok(Kind::Prune) => machine.prune(thread),
        Ok(Kind::EvictLog) => machine.evict_log(thread, place),
        Ok(Kind::EvictCell) => machine.evict_cell(place),
        Ok(Kind::EvictWords) => machine.evict_words(thread, place, value),
    }
}
