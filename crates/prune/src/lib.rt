// PRUNE, on parts of the machine. Every function takes any parts.
#![tactic(auto)]

ghost use Rattle.std.specs.Prelude.{◌≡◌, ◌+◌, ◌≤◌, get_or};
ghost use Rattle.answer.specs.Lists.{some_below};
ghost use Rattle.answer.specs.Refusals.{first_refusal};
ghost use Rattle.ring.specs.Ring.{lsn};
ghost use Rattle.tail.specs.Tail.{live_of};
ghost use Rattle.undo.specs.Entering.{live_event};
ghost use Rattle.undo.specs.Regions.{oldest_of};
ghost use Rattle.locks.specs.Locks.{no_lock, counted_locks};
ghost use Rattle.prune.specs.Pruning.{awaits_release, logs_undurable, prune_tests, prune_on};

use answer::{Answer, Refusal};
use cache::Cache;
use event::{Event, SyncCount};
use locks::{Lock, is_undurable_before};
use region::{live_event, oldest};
use ring::Lsn;
use sizes::LOCKS;
use tail::Tail;
use thread_log::Log;
use undo::Region;

// How many pruned regions end in a RELEASE of the lock; past the last lock none does.
fn pruned_count(locks: &[Lock], place: u8) -> SyncCount
    ensures { result ≡ (get_or locks.now place no_lock).pruned }
{
    locks
        .get(place as usize)
        .map_or(SyncCount(0), |lock| lock.pruned)
}

// The region that begins with this entry waits for a RELEASE that is not pruned.
fn awaits_release(locks: &[Lock], first: Event) -> bool
    ensures { result ≡ awaits_release locks.now first }
{
    match first {
        Event::Acquire { lock, count } => pruned_count(locks, lock).0 < count.0,
        _ => false,
    }
}

// The entry logs a cell that is not durable.
fn logs_undurable(cache: &Cache, event: Event) -> bool
    ensures { result ≡ logs_undurable cache.now event }
{
    match event {
        Event::Store { cell, old: _ } => !cache.is_durable(cell as usize),
        _ => false,
    }
}

// One of the first so many live entries logs a cell that is not durable: asked from the newest one back, since the cells that were logged
// last are the last to be flushed.
fn has_undurable(log: &Log, cache: &Cache, count: usize) -> bool
    ensures { result ≡ some_below count (λ index. logs_undurable cache.now (live_event log.now index)) }
{
    for index in (0..count).rev() {
        if logs_undurable(cache, live_event(log, index)) {
            return true;
        }
    }
    false
}

// The LSN after the first so many live entries.
fn lsn_after(head: Lsn, tail: Tail, count: usize) -> Lsn
    requires { count ≤ live_of tail head.0 }
    ensures { result ≡ lsn (head.0 + count) }
{
    Lsn(head.0 + count as u32)
}

// Why the oldest region of a thread's log may not be pruned: 15, 11, 16, 17.
#[tactic(auto, unfolding(answer::specs::Refusals::first_refusal, answer::specs::Refusals::unless, crate::specs::Pruning::prune_tests))]
fn prune_answer(log: &Log, region: Region, cache: &Cache, locks: &[Lock]) -> Answer
    requires { region ≡ oldest_of log.now }
    ensures { result ≡ first_refusal (prune_tests log.now cache.now locks.now) }
{
    if !region.finished {
        return Err(Refusal::NothingToPrune);
    }
    if is_undurable_before(log.tail, lsn_after(log.head, log.tail, region.size)) {
        return Err(Refusal::EntryNotDurable);
    }
    if awaits_release(locks, region.first) {
        return Err(Refusal::EarlierReleaseNotPruned);
    }
    if has_undurable(log, cache, region.size) {
        return Err(Refusal::CellNotDurable);
    }
    Ok(0)
}

// Counts a pruning of a region with this last entry for the lock that the entry releases, if any.
fn count_pruned(locks: &mut [Lock; LOCKS], last: Event)
    ensures { locks.new ≡ counted_locks locks.old last }
{
    if let Event::Release { lock, count: _ } = last {
        // By its index: the proof through `get_mut` does not close, since it learns nothing of the array after the loan of one lock.
        let at = lock as usize;
        if at < LOCKS {
            locks[at] = locks[at].counted();
        }
    }
}

// PRUNE: the head moves past the log's oldest region, where it is finished, and the answer is how many entries that has.
pub fn prune(log: &mut Log, cache: &Cache, locks: &mut [Lock; LOCKS]) -> Answer
    ensures { record { answer = result; log = log.new; locks = locks.new } ≡ prune_on log.old cache.now locks.old }
{
    let region = oldest(log);
    prune_answer(log, region, cache, locks)?;
    log.drop_to(lsn_after(log.head, log.tail, region.size));
    count_pruned(locks, region.last);
    Ok(region.size as u64)
}
