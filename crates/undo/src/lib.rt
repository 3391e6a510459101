// An undo log: events entered in it, and the regions that they make.
#![tactic(auto)]

ghost use Rattle.std.specs.Prelude.{◌≡◌};
ghost use Rattle.answer.specs.Refusals.{first_refusal};
ghost use Rattle.undo.specs.Entering.{entered_of};
ghost use Rattle.undo.specs.Regions.{logged_of, store_tests_on};

use answer::{Answer, Refusal};
use entry::Payload;
use event::Event;
use ring::{Lsn, slot_after};
use thread_log::Log;

// The oldest region that is not pruned: how many entries it has, its first and its last one, and whether it is finished.
#[derive(Clone, Copy)]
pub struct Region {
    pub size: usize,
    pub first: Event,
    pub last: Event,
    pub finished: bool,
}

// Appends the entry where a step's own tests allow it: answers their refusal, or else what the append answers (its LSN, or 6, then 5). A
// refusal leaves the log as it was.
pub fn enter(log: &mut Log, asked: Answer, event: Event) -> Answer
    ensures { record { answer = result; log = log.new } ≡ entered_of log.old asked event }
{
    asked?;
    log.append(Payload::from(event), event.closes())
}

// The LSN of the current region's entry of the cell, if it has one.
pub fn logged(log: &Log, cell: usize) -> Option<Lsn>
    ensures { result ≡ logged_of log.now cell }
{
    for index in (0..log.tail.live_count(log.head)).rev() {
        match Event::from(log.cached[slot_after(log.head, index as usize)]) {
            Event::Store { cell: logged, .. } => {
                if logged as usize == cell {
                    return Some(Lsn(log.head.0 + index));
                }
            }
            Event::Empty | Event::Acquire { .. } | Event::Release { .. } => return None,
        }
    }
    None
}

// STORE's tests: 7, 10, 11.
pub fn store_answer(log: &Log, cell: usize) -> Answer
    ensures { result ≡ first_refusal (store_tests_on log.now cell) }
{
    if log.tail.is_releasing() {
        return Err(Refusal::Releasing);
    }
    let Some(lsn) = logged(log, cell) else {
        return Err(Refusal::NotLogged);
    };
    if log.tail.durable.0 < lsn.0 {
        return Err(Refusal::EntryNotDurable);
    }
    Ok(0)
}
