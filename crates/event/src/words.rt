// The kinds of an undo log's entries as an image has them, in 64-bit words, each from the byte of that name: a pattern can have no cast.

pub const STORE_ENTRY: u64 = super::STORE_ENTRY as u64;

pub const ACQUIRE_ENTRY: u64 = super::ACQUIRE_ENTRY as u64;

pub const RELEASE_ENTRY: u64 = super::RELEASE_ENTRY as u64;
