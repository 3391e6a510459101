// Images that are written by hand.

use reader::{HEADS_AT, IMAGE_WORDS, LOGS_AT};
use sizes::{ENTRY_WORDS, SLOTS, THREADS};

// Two kinds of entries, by document 01's numbers. An enum of this program's own: the libraries have these numbers as constants, and the one
// in `corners` is its model's.
#[derive(Clone, Copy)]
pub enum EntryKind {
    Acquire = 2,
    Release = 3,
}

// An image of a whole machine.
#[derive(Clone, Copy)]
pub struct Image {
    pub words: [u64; IMAGE_WORDS],
}

impl Image {
    // Cells of 0, heads of 1 and empty logs.
    pub fn empty() -> Image {
        let mut words = [0; IMAGE_WORDS];
        words[HEADS_AT..LOGS_AT].fill(1);
        Image { words }
    }

    // The image with an entry in its slot, which is its LSN mod 64, of a thread's log, if there is such a thread.
    pub fn with_entry(
        mut self,
        thread: usize,
        kind: EntryKind,
        place: u64,
        value: u64,
        lsn: usize,
    ) -> Image {
        if thread < THREADS {
            let at = LOGS_AT + (thread * SLOTS + lsn % SLOTS) * ENTRY_WORDS;
            let entry = [kind as u64, place, value, lsn as u64];
            self.words[at..at + ENTRY_WORDS].copy_from_slice(&entry);
        }
        self
    }
}
