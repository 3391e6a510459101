// Recovery of an image of 1,156 words, whatever its words are.
//
// An image and a thread are two parameters, and no struct: what is asked of an image is asked of each of its threads.
use crate::model::history;
use std::array;

// What an entry of an image was logged for, by the number in its kind's word. The model's own, since it names nothing of the machine.
#[derive(Clone, Copy, PartialEq, Eq)]
pub(crate) enum EntryKind {
    Store = 1,
    Acquire = 2,
    Release = 3,
}

// An entry as the words of its slot say it, but for its rank; no kind where the word is no kind's number.
#[derive(Clone, Copy)]
pub(crate) struct Entry {
    pub(crate) kind: Option<EntryKind>,
    pub(crate) place: u64,
    pub(crate) value: u64,
}

// How many entries of each thread remain.
pub(crate) type Left = [u64; 4];

// The kind that has this number.
fn kind_numbered(number: u64) -> Option<EntryKind> {
    match number {
        1 => Some(EntryKind::Store),
        2 => Some(EntryKind::Acquire),
        3 => Some(EntryKind::Release),
        _ => None,
    }
}

// A thread's head.
pub(crate) fn head(image: &[u64], thread: u64) -> u64 {
    history::at(image, 128 + (thread % 4) as usize)
}

// The place in the image of one of the words kind, place, value, rank of the entry that is so many ranks after a thread's head.
fn word_at(image: &[u64], thread: u64, ahead: u64, field: u64) -> usize {
    let slot = (head(image, thread) % 64 + ahead % 64) % 64;
    (132 + thread % 4 * 256 + slot * 4 + field % 4) as usize
}

// The entry that is so many ranks after a thread's head.
pub(crate) fn entry_after(image: &[u64], thread: u64, ahead: u64) -> Entry {
    Entry {
        kind: kind_numbered(history::at(image, word_at(image, thread, ahead, 0))),
        place: history::at(image, word_at(image, thread, ahead, 1)),
        value: history::at(image, word_at(image, thread, ahead, 2)),
    }
}

// The rank that is found in the slot of that entry.
pub(crate) fn rank_after(image: &[u64], thread: u64, ahead: u64) -> u64 {
    history::at(image, word_at(image, thread, ahead, 3))
}

// 22: a head outside 1 to 1,000,001.
pub(crate) fn has_bad_head(image: &[u64]) -> bool {
    (0..4).any(|thread| !matches!(head(image, thread), 1..=1000001))
}

// The slot has the entry that is so many ranks after the head, and its rank is not over 1,000,000.
fn is_found(image: &[u64], thread: u64, ahead: u64) -> bool {
    let rank = rank_after(image, thread, ahead);
    rank <= 1000000 && rank.checked_sub(head(image, thread)) == Some(ahead)
}

// How many entries of a thread are present: ranks from its head on, each found in its slot, up to the first missing one, at most 64.
fn present(image: &[u64], thread: u64) -> u64 {
    (0..64)
        .find(|ahead| !is_found(image, thread, *ahead))
        .unwrap_or(64)
}

// An entry has a bad kind or place, or a lock count over 4,000,000.
fn is_bad(entry: Entry) -> bool {
    match entry.kind {
        Some(EntryKind::Store) => 127 < entry.place,
        Some(EntryKind::Acquire | EntryKind::Release) => 7 < entry.place || 4000000 < entry.value,
        None => true,
    }
}

// 23: a present entry is bad.
pub(crate) fn has_bad_entry(image: &[u64]) -> bool {
    (0..4).any(|thread| has_bad_entry_of(image, thread))
}

fn has_bad_entry_of(image: &[u64], thread: u64) -> bool {
    (0..present(image, thread)).any(|ahead| is_bad(entry_after(image, thread, ahead)))
}

// How many entries of each thread are present.
pub(crate) fn all_present(image: &[u64]) -> Left {
    array::from_fn(|thread| present(image, thread as u64))
}

// How many entries of a thread remain.
pub(crate) fn remaining(left: &Left, thread: u64) -> u64 {
    history::at(left, thread as usize)
}

// The entry is an ACQUIRE of the lock with a larger count.
pub(crate) fn is_larger(entry: Entry, lock: u64, count: u64) -> bool {
    entry.kind == Some(EntryKind::Acquire) && entry.place == lock && count < entry.value
}

// An ACQUIRE of the lock with a larger count remains in the thread's log.
fn larger_remains(image: &[u64], left: &Left, thread: u64, release: Entry) -> bool {
    (0..remaining(left, thread)).any(|ahead| is_larger(
        entry_after(image, thread, ahead),
        release.place,
        release.value,
    ))
}

// The thread has a last remaining entry, and it may be taken: no ACQUIRE waits for it if it is a RELEASE.
fn may_be_taken(image: &[u64], left: &Left, thread: u64) -> bool {
    let Some(last) = remaining(left, thread).checked_sub(1) else {
        return false;
    };
    let release = entry_after(image, thread, last);
    release.kind != Some(EntryKind::Release)
        || !(0..4).any(|other| larger_remains(image, left, other, release))
}

// Undoes an entry: a STORE writes its value back.
pub(crate) fn write_back(cells: &mut [u64; 128], entry: Entry) {
    if entry.kind == Some(EntryKind::Store) {
        if let Some(cell) = cells.get_mut(entry.place as usize) {
            *cell = entry.value;
        }
    }
}

// Takes the thread's last remaining entry: it is as many ranks after the head as entries remain then.
pub(crate) fn take(left: &mut Left, thread: u64) -> u64 {
    if let Some(count) = left.get_mut(thread as usize) {
        *count = count.saturating_sub(1);
    }
    remaining(left, thread)
}

// The first thread from this one on, with 0 after 3, whose last remaining entry may be taken.
pub(crate) fn first_from(image: &[u64], left: &Left, from: u64) -> Option<u64> {
    (from % 4..4)
        .chain(0..from % 4)
        .find(|thread| may_be_taken(image, left, *thread))
}

// Takes entry after entry, of which there are at most 256, each of the lowest thread that has one to take, and undoes it; says whether
// some are left with none to take.
pub(crate) fn is_tangled(image: &[u64], cells: &mut [u64; 128]) -> bool {
    let mut left = all_present(image);
    for _ in 0..256 {
        if let Some(thread) = first_from(image, &left, 0) {
            let ahead = take(&mut left, thread);
            write_back(cells, entry_after(image, thread, ahead));
        }
    }
    left.iter().any(|count| *count != 0)
}

// The kept cells of an image.
pub(crate) fn kept_cells(image: &[u64]) -> [u64; 128] {
    array::from_fn(|cell| history::at(image, cell))
}
