// Whether one pair of a claimed undo order, thread and LSN, may be taken next. Stands on how an image is tested and read.
#![tactic(auto)]

ghost use Rattle.std.specs.Prelude.{◌≡◌, ◌&&◌, ◌<◌, eqb, ltb};
ghost use Rattle.sizes.specs.Sizes.{thread_count};
ghost use Rattle.answer.specs.Lists.{some_below};
ghost use Rattle.image.specs.Stored.{stored_logs};
ghost use Rattle.image.specs.Reading.{log_in};
ghost use Rattle.undoing.specs.Undo.{left_of, has_later_acquire, may_take_entry};
ghost use Rattle.orders.specs.Orders.{name};
ghost use Rattle.pair.specs.Pair.{may_take_name};

use image::{Entry, HeadedImage};
use sizes::{THREADS, words};

// The entry is an ACQUIRE of the lock with a larger count.
fn is_later_acquire(entry: Entry, lock: u64, count: u64) -> bool
    ensures { result ≡ (eqb entry.kind 2 && eqb entry.place lock && ltb count entry.value) }
{
    entry.kind == event::words::ACQUIRE_ENTRY && entry.place == lock && count < entry.value
}

// Such an ACQUIRE is among the first so many entries of the thread, which is asked below 4 as an index: a type that says so would be
// unwrapped here.
fn has_later_acquire(image: HeadedImage, thread: usize, left: usize, lock: u64, count: u64) -> bool
    requires { thread < thread_count }
    ensures { result ≡ has_later_acquire (log_in image.entry.words.now thread) left lock count }
{
    (0..left).any(|index| is_later_acquire(image.entry(thread, index), lock, count))
}

// Such an ACQUIRE is left in some log: a plain search, since a list is marked once. `undoing` remembers the counts instead.
fn waits(image: HeadedImage, left: [usize; THREADS], lock: u64, count: u64) -> bool
    ensures { result ≡ some_below thread_count (λ thread. has_later_acquire (log_in image.entry.words.now thread) (left_of left thread) lock count) }
{
    (0..THREADS).any(|thread| has_later_acquire(image, thread, left[thread], lock, count))
}

// The entry may be taken while these are left: a RELEASE waits for the later ACQUIREs of its lock.
fn may_take(image: HeadedImage, left: [usize; THREADS], entry: Entry) -> bool
    ensures { result ≡ may_take_entry (stored_logs image.entry.words.now) left entry.kind entry.place entry.value }
{
    if entry.kind != event::words::RELEASE_ENTRY {
        return true;
    }
    !waits(image, left, entry.place, entry.value)
}

// The pair, which may be any two words, names the last entry that its thread has left, and that one may be taken.
pub fn may_take_pair(image: HeadedImage, left: [usize; THREADS], thread: u64, lsn: u64) -> bool
    ensures { result ≡ may_take_name (stored_logs image.entry.words.now) left (name thread lsn) }
{
    if words::THREADS <= thread {
        return false;
    }
    let owner = thread as usize;
    let count = left[owner];
    if count == 0 {
        return false;
    }
    let last = count - 1;
    let head = image.head(owner).0 as u64;
    if lsn < head {
        return false;
    }
    if lsn - head != last as u64 {
        return false;
    }
    may_take(image, left, image.entry(owner, last))
}
