// What is on its way from the cache to persistent memory: lines, by a fence that completes flushes, single cells by an eviction, and how
// much a fence carries.
#![tactic(auto)]

ghost use Rattle.std.specs.Prelude.{◌≡◌, true, ◌+◌, ◌<◌, length, eqb};
ghost use Rattle.answer.specs.Lists.{set_from, mix_from};
ghost use Rattle.cache.specs.Cache.{cell_count, line_count, line_of, pending_count, fence_of, evict_cell_of};
ghost use Rattle.tail.specs.Tail.{unfenced};

use cache::Cache;
use sizes::{CELLS, LINE_CELLS, LINES, THREADS};
use tail::Tail;

// Copies the eight cells of a line. Here and below it is asked below 16, as a place: a type that says so would be unwrapped for each
// array.
fn copy_line(from: &[u64; CELLS], to: &mut [u64; CELLS], line: usize)
    requires { (line < line_count) × (length from.now ≡ cell_count) × (length to.old ≡ cell_count) }
    ensures { to.new ≡ mix_from (λ cell. eqb (line_of cell) line) 0 from.now to.old }
{
    let first = line * LINE_CELLS;
    let end = first + LINE_CELLS;
    to[first..end].copy_from_slice(&from[first..end]);
}

// Sets the eight cells of a line.
fn set_line(flags: &mut [bool; CELLS], line: usize)
    requires { (line < line_count) × (length flags.old ≡ cell_count) }
    ensures { flags.new ≡ set_from (λ cell. eqb (line_of cell) line) true 0 flags.old }
{
    let first = line * LINE_CELLS;
    flags[first..first + LINE_CELLS].fill(true);
}

// Completes the thread's pending flushes: the cells of each such line are persisted and durable.
pub fn fence(mut cache: Cache, thread: usize) -> Cache
    ensures { result ≡ fence_of cache thread }
{
    if thread < THREADS {
        // by the line's number, which both helpers take
        for line in 0..LINES {
            let place = thread * LINES + line;
            if cache.pending[place] {
                copy_line(&cache.cached, &mut cache.persisted, line);
                set_line(&mut cache.durable, line);
                cache.pending[place] = false;
            }
        }
    }
    cache
}

// How much a fence by the thread whose record this is carries: the lines of which it has a flush pending, and its flushed entries that are
// not durable.
pub fn carried(cache: Cache, tail: Tail, thread: usize) -> u64
    ensures { result ≡ pending_count cache thread + unfenced tail }
{
    let lines = cache.pending_count(thread);
    let entries = tail.unfenced();
    lines as u64 + entries as u64
}

// The cell's cached content alone is persisted. The cell does not become durable by it; one past the last changes nothing.
#[tactic(auto, unfolding(cache::specs::Cache::evict_cell_of))]
pub fn evict_cell(mut cache: Cache, cell: usize) -> Cache
    ensures { result ≡ evict_cell_of cache cell }
{
    // by its index: of a `get_mut` the check learns nothing of the array after the loan
    if cell < CELLS {
        cache.persisted[cell] = cache.cached[cell];
    }
    cache
}
