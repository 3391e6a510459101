// Cells and lines: what each cell holds in the cache and in persistent memory. Knows nothing of logs, locks or regions.
#![tactic(auto)]

ghost use Rattle.std.specs.Prelude.{◌≡◌, false, ◌*◌, ◌%◌, ◌<◌, length, eqb};
ghost use Rattle.sizes.specs.Sizes.{thread_count};
ghost use Rattle.answer.specs.Lists.{set_from};
ghost use Rattle.cache.specs.Cache.{line_count, cache_of, is_durable, pending_count, store_of, flush_of, persisted_into};

use sizes::{CELLS, LINE_CELLS, LINES, THREADS};

// What each cell holds, and which flushes a fence has yet to complete. An array for each: the definitions `cached_at`, `persisted_at`,
// `is_durable` and `pending_place` name each by itself, and an image takes the persisted contents as one run of words.
#[derive(Clone, Copy)]
pub struct Cache {
    // Document 01's seen content of each cell, which a cut loses.
    pub cached: [u64; CELLS],
    // Document 01's kept content of each cell.
    pub persisted: [u64; CELLS],
    // Whether each cell is durable (document 01: firm).
    pub durable: [bool; CELLS],
    // Whether each thread has a pending flush (document 01: a mark) of each line: thread 0's 16 lines, then thread 1's, and so on.
    pub pending: [bool; THREADS * LINES],
}

// Drops every thread's pending flush of a line, which is asked below 16 as a place: a type that says so would be unwrapped here.
fn clear_flushes(pending: &mut [bool; THREADS * LINES], line: usize)
    requires { (line < line_count) × (length pending.old ≡ thread_count * line_count) }
    ensures { pending.new ≡ set_from (λ place. eqb (place % line_count) line) false 0 pending.old }
{
    // by numbers: every sixteenth place, for which a slice has no fill
    for thread in 0..THREADS {
        pending[thread * LINES + line] = false;
    }
}

impl Cache {
    // The cache at the start: each cell is durable with its start content, and no flush is pending.
    #[tactic(auto, unfolding(crate::specs::Cache::cache_of))]
    pub fn new(words: [u64; CELLS]) -> Cache
        ensures { result ≡ cache_of words }
    {
        Cache {
            cached: words,
            persisted: words,
            durable: [true; CELLS],
            pending: [false; THREADS * LINES],
        }
    }

    // Whether a cell is durable; past the last cell none is.
    pub fn is_durable(&self, cell: usize) -> bool
        ensures { result ≡ is_durable self.now cell }
    {
        cell < CELLS && self.durable[cell]
    }

    // Of how many lines the thread has a flush pending; past the last thread of none.
    pub fn pending_count(self, thread: usize) -> usize
        ensures { result ≡ pending_count self thread }
    {
        let mut count = 0;
        if thread < THREADS {
            let first = thread * LINES;
            // A loop: counting by a chain of `filter` and `count` takes 140 ns a call, and this 5: a step takes 560.
            for is_pending in &self.pending[first..first + LINES] {
                if *is_pending {
                    count += 1;
                }
            }
        }
        count
    }

    // The cell's cached content is the value, the cell is not durable, and no flush of its line is pending.
    #[tactic(auto, unfolding(crate::specs::Cache::store_of))]
    pub fn store(mut self, cell: usize, value: u64) -> Cache
        ensures { result ≡ store_of self cell value }
    {
        // by its index, which is the place in three arrays
        if cell < CELLS {
            self.cached[cell] = value;
            self.durable[cell] = false;
            clear_flushes(&mut self.pending, cell / LINE_CELLS);
        }
        self
    }

    // The thread has a flush of the line pending.
    #[tactic(auto, unfolding(crate::specs::Cache::flush_of))]
    pub fn flush(mut self, thread: usize, line: usize) -> Cache
        ensures { result ≡ flush_of self thread line }
    {
        if thread < THREADS && line < LINES {
            self.pending[thread * LINES + line] = true;
        }
        self
    }

    // Writes the persisted cells to the first 128 words of a part of an image; a part that is too short is left as it was.
    #[tactic(auto, unfolding(crate::specs::Cache::persisted_into))]
    pub fn persist_into(self, image: &mut [u64])
        ensures { image.new ≡ persisted_into self image.old }
    {
        if CELLS <= image.len() {
            image[..CELLS].copy_from_slice(&self.persisted);
        }
    }
}
