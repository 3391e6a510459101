// The sizes of the machine, each once, as indices and lengths; `words` has those that are compared with 64-bit words.
#![tactic(auto)]

pub mod words;

// Threads, each with a log of its own.
pub const THREADS: usize = 4;

pub const LOCKS: usize = 8;

pub const CELLS: usize = 128;

pub const LINES: usize = 16;

// The cells of a line.
pub const LINE_CELLS: usize = 8;

// The slots of a log.
pub const SLOTS: usize = 64;

// The words of an entry.
pub const ENTRY_WORDS: usize = 4;

// The last word of an entry in an image, which tells its LSN.
pub const LSN_WORD: usize = 3;

// The last LSN that a log gives (document 01: rank 1,000,000).
pub const LAST_LSN: u32 = 1000000;
