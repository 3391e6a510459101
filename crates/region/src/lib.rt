// The oldest region of a log that is not pruned: its entries, and whether it is finished.
#![tactic(auto)]

ghost use Rattle.std.specs.Prelude.{◌≡◌, true, false, cond, not, ◌&&◌, eqb, ltb};
ghost use Rattle.undo.specs.Entering.{live_event};
ghost use Rattle.undo.specs.Regions.{is_acquire, is_release, oldest_region, oldest_of};

use event::Event;
use ring::slot_after;
use thread_log::Log;
use undo::Region;

// What the live entry says that has so many live ones before it.
pub fn live_event(log: &Log, index: usize) -> Event
    ensures { result ≡ live_event log.now index }
{
    Event::from(log.cached[slot_after(log.head, index)])
}

// The entry is an ACQUIRE.
fn is_acquire(event: Event) -> bool
    ensures { result ≡ is_acquire event }
{
    matches!(event, Event::Acquire { .. })
}

// The entry is a RELEASE.
fn is_release(event: Event) -> bool
    ensures { result ≡ is_release event }
{
    matches!(event, Event::Release { .. })
}

// How many entries the oldest region has that is not pruned: 0 where no entry is live.
fn region_size(log: &Log) -> usize
    ensures { result ≡ oldest_region log.now }
{
    let live = log.tail.live_count(log.head) as usize;
    if live == 0 {
        return 0;
    }
    if is_release(live_event(log, 0)) {
        return 1;
    }
    for index in 1..live {
        let event = live_event(log, index);
        if is_acquire(event) {
            return index;
        }
        if is_release(event) {
            return index + 1;
        }
    }
    live
}

// A region of this size and with this last entry is finished: its RELEASE step was taken, or the next ACQUIRE is there.
fn is_finished(size: usize, live: usize, last: Event, releasing: bool) -> bool
    ensures { result ≡ cond (ltb size live) true (cond (eqb size 0) false (is_release last && not releasing)) }
{
    size < live || 0 < size && is_release(last) && !releasing
}

// The oldest region that is not pruned.
#[tactic(auto, unfolding(undo::specs::Regions::is_finished))]
pub fn oldest(log: &Log) -> Region
    ensures { result ≡ oldest_of log.now }
{
    let size = region_size(log);
    let last_at = size.saturating_sub(1);
    let last = live_event(log, last_at);
    let live = log.tail.live_count(log.head) as usize;
    Region {
        size,
        first: live_event(log, 0),
        last,
        finished: is_finished(size, live, last, log.tail.is_releasing()),
    }
}
