// The accesses of cells that clocks put in order: which LOAD or LOG races, and what each leaves.
// Past the end of an array a read gives 0 and a store changes nothing.
#![tactic(auto)]

ghost use Rattle.std.specs.Prelude.{◌≡◌, not, get_or};
ghost use Rattle.clocks.specs.Clocks.{is_known};
ghost use Rattle.accesses.specs.Accesses.{has_unknown, loaded_of, logged_cell_of};

use clocks::Clock;
use sizes::{CELLS, THREADS};

// The last accesses: one for each cell and thread.
pub const STAMPS: usize = CELLS * THREADS;

// The accepted LOADs and LOGs of each cell that a later one can race with. A stamp is the own number in the thread's clock; 0: none.
#[derive(Clone, Copy)]
pub struct Accesses {
    // Each thread's last access of each cell: cell 0's four threads, then cell 1's, and so on, in one row as
    // `access_place` has it.
    pub stamps: [u32; STAMPS],
    // Each cell's last LOG, and the thread that took it. Two arrays: the definitions `load_races` and `traces` name each by itself.
    pub logged: [u32; CELLS],
    pub loggers: [u8; CELLS],
}

impl Accesses {
    // The cell's last LOG does not happen before the next step of the thread with this clock.
    pub fn load_races(self, clock: Clock, cell: u8) -> bool
        ensures { result ≡ not (is_known clock (get_or self.logged cell 0) (get_or self.loggers cell 0)) }
    {
        let place = cell as usize;
        place < CELLS && clock.at(self.loggers[place]) < self.logged[place]
    }

    // Some thread's last access of the cell does not happen before the next step of the thread with this clock.
    #[tactic(auto, unfolding(clocks::specs::Clocks::clock_at, answer::specs::Lists::some_below))]
    pub fn log_races(self, clock: Clock, cell: u8) -> bool
        ensures { result ≡ has_unknown self clock cell }
    {
        let place = cell as usize;
        if CELLS <= place {
            return false;
        }
        // four tests: with `any` over the threads the proof of the definition did not close
        let first = place * THREADS;
        clock.t3 < self.stamps[first + 3]
            || clock.t2 < self.stamps[first + 2]
            || clock.t1 < self.stamps[first + 1]
            || clock.t0 < self.stamps[first]
    }

    // The accesses after a LOAD of the cell.
    #[tactic(auto, unfolding(crate::specs::Accesses::loaded_of))]
    pub fn loaded(mut self, thread: u8, cell: u8, stamp: u32) -> Accesses
        ensures { result ≡ loaded_of self thread cell stamp }
    {
        let place = cell as usize * THREADS + thread as usize;
        // by its index: of a `get_mut` the check learns nothing of the array after the loan
        if place < STAMPS {
            self.stamps[place] = stamp;
        }
        self
    }

    // The accesses after a LOG of the cell.
    #[tactic(auto, unfolding(crate::specs::Accesses::loaded_of, crate::specs::Accesses::logged_cell_of))]
    pub fn logged_cell(self, thread: u8, cell: u8, stamp: u32) -> Accesses
        ensures { result ≡ logged_cell_of self thread cell stamp }
    {
        let mut after = self.loaded(thread, cell, stamp);
        let place = cell as usize;
        // by its index, as above
        if place < CELLS {
            after.logged[place] = stamp;
            after.loggers[place] = thread;
        }
        after
    }
}
