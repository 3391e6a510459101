// Undoing an image: its entries, taken one after the other in the undo order, each STORE's value written back. Stands on how an image is
// read.
#![tactic(auto)]

ghost use Rattle.std.specs.Prelude.{◌≡◌, ℕ, Bool, false, cond, ◌<◌, set, eqb, ltb, MatchOption};
ghost use Rattle.sizes.specs.Sizes.{thread_count};
ghost use Rattle.answer.specs.Lists.{some_below};
ghost use Rattle.image.specs.Reading.{log_in, Good};
ghost use Rattle.undoing.specs.Undo.{left_of, undone};
ghost use Rattle.undoing.specs.Reading.{undo_of};
ghost use Rattle.undoing.specs.Latest.{lock_of, count_of, later_of, may_take_last, IsLowest, Remembers};

use event::SyncCount;
use image::{Entry, HeadedImage, TestedImage};
use sizes::{CELLS, LOCKS, SLOTS, THREADS, words};

// The entries that an image has at most.
const ENTRIES: usize = THREADS * SLOTS;

// Of each lock, the largest count among each thread's ACQUIREs that are left, and 0 where there is none.
type Latest = [[SyncCount; THREADS]; LOCKS];

// What is remembered of the ACQUIREs that are left: each lock's latest, and for each entry of each thread what its thread had before it,
// in one row as `earlier_of` has it.
#[derive(Clone, Copy)]
struct Remembered {
    latest: Latest,
    earlier: [SyncCount; ENTRIES],
}

// How many entries each thread has left to take, and the cells so far.
#[derive(Clone, Copy)]
pub struct Undone {
    pub left: [usize; THREADS],
    pub cells: [u64; CELLS],
}

// The lock that an entry of a lock is of; some lock for an entry of a cell.
fn lock_of(entry: Entry) -> usize
    ensures { result ≡ lock_of entry.place }
{
    (entry.place % words::LOCKS) as usize
}

// The count, or the ACQUIRE's where that is larger.
fn later(count: SyncCount, entry: Entry) -> SyncCount
    ensures { result ≡ later_of count entry }
{
    if entry.kind == event::words::ACQUIRE_ENTRY {
        SyncCount(count.0.max(entry.value))
    } else {
        count
    }
}

// The one pass through each log: what is remembered of all present entries.
fn remember(tested: TestedImage) -> Remembered
    ensures { Remembers tested.entry.headed.words.now (left_of tested.entry.present) result.latest result.earlier }
{
    let mut latest = [[SyncCount(0); THREADS]; LOCKS];
    let mut earlier = [SyncCount(0); ENTRIES];
    // by numbers: the entry and its place are found by them
    for thread in 0..THREADS {
        for index in 0..tested.present[thread] {
            let entry = tested.headed.entry(thread, index);
            let lock = lock_of(entry);
            let count = latest[lock][thread];
            earlier[thread * SLOTS + index] = count;
            latest[lock][thread] = later(count, entry);
        }
    }
    Remembered { latest, earlier }
}

// Some thread's latest ACQUIRE of the row's lock has a larger count.
fn waits(row: [SyncCount; THREADS], count: SyncCount) -> bool
    ensures { result ≡ some_below thread_count (λ thread. ltb count.0 (count_of row thread).0) }
{
    row.iter().any(|other| count.0 < other.0)
}

// The last entry that a thread has left may be taken: a RELEASE waits for the later ACQUIREs of its lock. The thread is asked below 4, as
// an index: a type that says so would be unwrapped here.
fn may_take(image: HeadedImage, left: &[usize; THREADS], latest: &Latest, thread: usize) -> bool
    requires { thread < thread_count }
    ensures { result ≡ may_take_last (log_in image.entry.words.now thread) (left_of left.now thread) latest.now }
{
    if left[thread] == 0 {
        return false;
    }
    let last = image.entry(thread, left[thread] - 1);
    if last.kind != event::words::RELEASE_ENTRY {
        return true;
    }
    !waits(latest[lock_of(last)], SyncCount(last.value))
}

// The lowest thread whose last entry may be taken.
fn lowest(image: HeadedImage, left: &[usize; THREADS], latest: &Latest) -> Option<usize>
    ensures { let may : ℕ → Bool = λ thread. may_take_last (log_in image.entry.words.now thread) (left_of left.now thread) latest.now in
        MatchOption result ((thread : ℕ) → thread < thread_count → may thread ≡ false) (IsLowest may) }
{
    (0..THREADS).find(|thread| may_take(image, left, latest, *thread))
}

// A STORE that is taken writes its value back.
fn write_back(cells: &mut [u64; CELLS], taken: Entry)
    requires { Good taken }
    ensures { cells.new ≡ cond (eqb taken.kind 1) (set cells.old taken.place taken.value) cells.old }
{
    if taken.kind == event::words::STORE_ENTRY {
        cells[taken.place as usize] = taken.value;
    }
}

// Some thread has entries left.
pub fn has_left(left: [usize; THREADS]) -> bool
    ensures { result ≡ some_below thread_count (λ thread. ltb 0 (left_of left thread)) }
{
    left.iter().any(|count| 0 < *count)
}

// Takes one entry after the other, each of the lowest thread whose last one may be taken, until none may. Four threads have at most 64
// present entries each, so 256 turns are enough.
pub fn undo(tested: TestedImage) -> Undone
    ensures { undo_of result ≡ undone tested.entry.headed.words.now }
{
    let image = tested.headed;
    let mut left = tested.present;
    let Remembered {
        mut latest,
        earlier,
    } = remember(tested);
    let mut cells = [0; CELLS];
    cells::copy_cells(image.words, &mut cells);
    for _turn in 0..ENTRIES {
        let Some(thread) = lowest(image, &left, &latest) else {
            return Undone { left, cells };
        };
        let index = left[thread] - 1;
        let last = image.entry(thread, index);
        left[thread] = index;
        latest[lock_of(last)][thread] = earlier[thread * SLOTS + index];
        write_back(&mut cells, last);
    }
    Undone { left, cells }
}
