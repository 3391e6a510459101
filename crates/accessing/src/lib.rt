// LOAD and LOG on parts of the machine: what each answers, and what it leaves of the accesses and of the thread's log. Every function
// takes any parts, one by one, as `load_on` and `log_on` name them: a struct of just these would be put together for one call each.
#![tactic(auto)]

ghost use Rattle.std.specs.Prelude.{◌≡◌, [], ◌∷◌};
ghost use Rattle.answer.specs.Refusals.{◌⇒◌, first_refusal};
ghost use Rattle.answer.specs.declared.Refusal.TheVariants.{Race};
ghost use Rattle.accessing.specs.Loads.{load_on};
ghost use Rattle.accessing.specs.Logs.{first_log_on, log_on};

use accesses::Accesses;
use answer::{Answer, Refusal};
use clocks::Clock;
use event::Event;
use thread_log::Log;
use undo::{enter, logged};

// LOAD: answers the cell's content, where its last LOG happens before.
#[tactic(auto, unfolding(crate::specs::Loads::load_on, answer::specs::Refusals::unless))]
pub fn load(accesses: &mut Accesses, clock: Clock, thread: u8, cell: u8, content: u64) -> Answer
    ensures { record { answer = result; accesses = accesses.new } ≡ load_on accesses.old clock thread cell content }
{
    if accesses.load_races(clock, cell) {
        return Err(Refusal::Race);
    }
    *accesses = accesses.loaded(thread, cell, clock.at(thread));
    Ok(content)
}

// 8, where the step races.
#[tactic(auto, unfolding(answer::specs::Refusals::first_refusal, answer::specs::Refusals::unless))]
fn race_answer(races: bool) -> Answer
    ensures { result ≡ first_refusal ((races ⇒ Race) ∷ []) }
{
    if races { Err(Refusal::Race) } else { Ok(0) }
}

// LOG of a cell that the current region has no entry of: a STORE entry with the cell's old content, where every earlier access of the cell
// that may race happens before. Answers the entry's LSN.
fn log_first(
    log: &mut Log,
    accesses: &mut Accesses,
    clock: Clock,
    thread: u8,
    cell: u8,
    old: u64,
) -> Answer
    ensures { record { answer = result; log = log.new; accesses = accesses.new } ≡ first_log_on log.old accesses.old clock thread cell old }
{
    let asked = race_answer(accesses.log_races(clock, cell));
    let lsn = enter(log, asked, Event::Store { cell, old })?;
    *accesses = accesses.logged_cell(thread, cell, clock.at(thread));
    Ok(lsn)
}

// LOG: answers the LSN of the cell's entry in the current region. Where there is none it makes one; else all stays as it is.
pub fn log_cell(
    log: &mut Log,
    accesses: &mut Accesses,
    clock: Clock,
    thread: u8,
    cell: u8,
    old: u64,
) -> Answer
    ensures { record { answer = result; log = log.new; accesses = accesses.new } ≡ log_on log.old accesses.old clock thread cell old }
{
    if log.tail.is_releasing() {
        return Err(Refusal::Releasing);
    }
    match logged(log, cell as usize) {
        None => log_first(log, accesses, clock, thread, cell, old),
        Some(lsn) => Ok(u64::from(lsn.0)),
    }
}
