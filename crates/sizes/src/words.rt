// Sizes that are compared with 64-bit words, each from the index or length of that name: a constant has one type, and a cast at every test
// is no plainer.

pub const THREADS: u64 = super::THREADS as u64;

pub const LOCKS: u64 = super::LOCKS as u64;

pub const CELLS: u64 = super::CELLS as u64;

pub const LINES: u64 = super::LINES as u64;

pub const LINE_CELLS: u64 = super::LINE_CELLS as u64;

pub const SLOTS: u64 = super::SLOTS as u64;

pub const ENTRY_WORDS: u64 = super::ENTRY_WORDS as u64;

pub const LAST_LSN: u64 = super::LAST_LSN as u64;

// The largest head: the number after the last LSN.
pub const LAST_HEAD: u64 = LAST_LSN + 1;

// The largest lock count that an image may have.
pub const LAST_COUNT: u64 = THREADS * LAST_LSN;
