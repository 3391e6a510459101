// Locks, and ACQUIRE, LOGREL and RELEASE on parts of the machine. Every function takes any parts, one by one, as `acquire_on`,
// `log_release_on` and `release_on` name them: a struct of just these would be put together for one call each.
#![tactic(auto)]

ghost use Rattle.std.specs.Prelude.{◌≡◌, ◌-◌, ltb};
ghost use Rattle.answer.specs.Refusals.{first_refusal};
ghost use Rattle.locks.specs.Locks.{one_more, free_of, count_of};
ghost use Rattle.locks.specs.LockSteps.{acquire_tests_on, acquire_on, log_release_tests_on, log_release_on, release_tests, release_on};

use answer::{Answer, Refusal};
use clocks::Clock;
use event::{Event, SyncCount};
use ring::Lsn;
use tail::Tail;
use thread_log::Log;
use undo::enter;

// A lock: the thread that holds it, if any, how often it was released, and how many pruned regions end in a RELEASE of it.
#[derive(Clone, Copy)]
pub struct Lock {
    pub holder: Option<u8>,
    pub count: SyncCount,
    pub pruned: SyncCount,
}

// One release more, where the count can grow.
fn one_more(count: SyncCount) -> SyncCount
    ensures { result ≡ one_more count }
{
    SyncCount(count.0.saturating_add(1))
}

impl Lock {
    // The lock after a RELEASE of it.
    fn free(self) -> Lock
        ensures { result ≡ free_of self }
    {
        Lock {
            holder: None,
            count: one_more(self.count),
            ..self
        }
    }

    // The lock after a pruning of a region that ends in a RELEASE of it.
    pub fn counted(self) -> Lock
        ensures { result ≡ count_of self }
    {
        Lock {
            pruned: one_more(self.pruned),
            ..self
        }
    }
}

// Some entry before this LSN comes after the last durable one: 11 for a RELEASE and for a PRUNE.
pub fn is_undurable_before(tail: Tail, end: Lsn) -> bool
    ensures { result ≡ ltb tail.durable.0 (end.0 - 1) }
{
    u64::from(tail.durable.0) + 1 < u64::from(end.0)
}

// ACQUIRE's own tests, before those of its append: 7, 12.
#[tactic(auto, unfolding(answer::specs::Refusals::first_refusal, answer::specs::Refusals::unless))]
fn acquire_answer(log: &Log, lock: Lock) -> Answer
    ensures { result ≡ first_refusal (acquire_tests_on log.now lock) }
{
    if log.tail.is_releasing() {
        return Err(Refusal::Releasing);
    }
    if lock.holder.is_some() {
        return Err(Refusal::LockHeld);
    }
    Ok(0)
}

// ACQUIRE: takes a free lock, with an ACQUIRE entry of its count. The thread knows what the lock's last RELEASE knew. Answers the count.
pub fn acquire(
    log: &mut Log,
    lock: &mut Lock,
    clock: &mut Clock,
    last: Clock,
    thread: u8,
    place: u8,
) -> Answer
    ensures { record { answer = result; log = log.new; lock = lock.new; clock = clock.new }
        ≡ acquire_on log.old lock.old clock.old last thread place }
{
    let asked = acquire_answer(log, *lock);
    let count = lock.count;
    enter(log, asked, Event::Acquire { lock: place, count })?;
    lock.holder = Some(thread);
    *clock = clock.join(last);
    Ok(count.0)
}

// LOGREL's own tests, before those of its append: 7, 13.
#[tactic(auto, unfolding(answer::specs::Refusals::first_refusal, answer::specs::Refusals::unless))]
fn log_release_answer(log: &Log, lock: Lock, thread: u8) -> Answer
    ensures { result ≡ first_refusal (log_release_tests_on log.now lock thread) }
{
    if log.tail.is_releasing() {
        return Err(Refusal::Releasing);
    }
    if lock.holder != Some(thread) {
        return Err(Refusal::LockNotHeld);
    }
    Ok(0)
}

// LOGREL: a RELEASE entry with the lock's count, where the thread holds the lock. Answers the count.
pub fn log_release(log: &mut Log, lock: Lock, thread: u8, place: u8) -> Answer
    ensures { record { answer = result; log = log.new } ≡ log_release_on log.old lock thread place }
{
    let asked = log_release_answer(log, lock, thread);
    let count = lock.count;
    enter(log, asked, Event::Release { lock: place, count })?;
    Ok(count.0)
}

// Why a thread with this log may not take the RELEASE step of the lock: 14, 11. The RELEASE entry is the log's last one.
#[tactic(auto, unfolding(answer::specs::Refusals::first_refusal, answer::specs::Refusals::unless, crate::specs::LockSteps::release_tests))]
fn release_answer(log: &Log, place: u8) -> Answer
    ensures { result ≡ first_refusal (release_tests log.now place) }
{
    if !log.tail.is_releasing_lock(place) {
        return Err(Refusal::NotReleasing);
    }
    if is_undurable_before(log.tail, log.tail.next) {
        return Err(Refusal::EntryNotDurable);
    }
    Ok(0)
}

// RELEASE: the lock is free, with one release more, and the thread's own number grows.
pub fn release(log: &mut Log, lock: &mut Lock, clock: &mut Clock, thread: u8, place: u8) -> Answer
    ensures { record { answer = result; log = log.new; lock = lock.new; clock = clock.new }
        ≡ release_on log.old lock.old clock.old thread place }
{
    release_answer(log, place)?;
    log.tail = log.tail.released();
    *lock = lock.free();
    *clock = clock.raise(thread);
    Ok(0)
}
