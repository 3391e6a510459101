// Damaged images: one of a cut, with words changed at or past their bounds, or with logs written anew.
//
// Image, thread and chance are three parameters, and no struct: the image is lent to be changed, and the thread or the chance is another
// from call to call.
ghost use Rattle.std.specs.Prelude.{◌≤◌};

use crate::listings::{next, pick};
use crate::model::history::at;
use crate::model::recovering::EntryKind;
use reader::{HEADS_AT, IMAGE_WORDS, LOGS_AT, STRETCH_WORDS};
use sizes::{ENTRY_WORDS, words};

// An image and one word more.
pub(crate) type Wide = [u64; IMAGE_WORDS + 1];

// An entry as it is written.
#[derive(Clone, Copy)]
struct Written {
    kind: u64,
    place: u64,
    value: u64,
    rank: u64,
}

// Heads at or past their bounds, 1 and 1,000,001.
const HEADS: [u64; 8] = [0, 1, 1000000, 1000001, 1000002, 2, 4294967297, 999999];

// Places at or past the bounds of cells and locks.
const PLACES: [u64; 8] = [7, 8, 127, 128, 0, 256, 4294967296, 126];

// Lock counts at or past their bound, and small ones.
const COUNTS: [u64; 8] = [4000000, 4000001, 0, 1, 2, 3999999, 4294967296, 3];

// The place of a thread's head.
fn head_at(thread: u64) -> usize {
    HEADS_AT + (thread % words::THREADS) as usize
}

// The place of the slot of a rank.
fn slot_at(thread: u64, rank: u64) -> usize
    ensures { result ≤ 1152 }
{
    let stretch = (thread % words::THREADS) as usize * STRETCH_WORDS;
    LOGS_AT + stretch + (rank % words::SLOTS) as usize * ENTRY_WORDS
}

// The place of one of the words kind, place, value, rank in the slot of a rank.
fn word_at(thread: u64, rank: u64, field: u64) -> usize {
    slot_at(thread, rank) + (field % 4) as usize
}

// Writes a word of the image, where there is one.
fn set(image: &mut Wide, index: usize, new: u64) {
    if let Some(word) = image.get_mut(index) {
        *word = new;
    }
}

// Writes an entry into its slot.
fn write_entry(image: &mut Wide, thread: u64, entry: Written) {
    let at = slot_at(thread, entry.rank);
    let words = [entry.kind, entry.place, entry.value, entry.rank];
    image[at..at + ENTRY_WORDS].copy_from_slice(&words);
}

// A rank that is so many ranks after a thread's head, as the image has it.
fn rank_after(image: &Wide, thread: u64, ahead: u64) -> u64 {
    at(image, head_at(thread)) % 2000000 + ahead % words::SLOTS
}

// Flips a bit of a word.
fn flip(image: &mut Wide, index: usize, bit: u64) {
    if let Some(word) = image.get_mut(index) {
        *word ^= 1 << bit % 64;
    }
}

// A rank of another entry that a rank's slot may hold, of a later or an earlier turn through the slots, or a rank of another slot.
fn other_rank(rank: u64, chance: u64) -> u64 {
    let near = rank % 2000000;
    let ranks = [
        near + 64,
        near % 64,
        near + 1,
        0,
        near + 640,
        1000064,
        near + 4294967296,
        near / 2,
    ];
    pick(&ranks, chance)
}

// Changes one word of an entry near a thread's head.
fn change_word(image: &mut Wide, field: u64, chance: u64) {
    let thread = chance / 3 % 4;
    let rank = rank_after(image, thread, chance / 13 % 4);
    let word = match field {
        1 => pick(&PLACES, chance / 61),
        2 => pick(&COUNTS, chance / 61),
        3 => other_rank(rank, chance / 61),
        _ => chance / 61 % 6,
    };
    set(image, word_at(thread, rank, field), word);
}

// Puts a stale entry, good but for its rank, behind a thread's present ones: the slot's entry of the turn before.
fn leave_stale(image: &mut Wide, chance: u64) {
    let thread = chance / 3 % 4;
    let rank = rank_after(image, thread, chance / 13);
    let entry = Written {
        kind: chance / 31 % 3 + 1,
        place: chance / 61 % 8,
        value: 1,
        rank: if 64 < rank { rank - 64 } else { rank + 64 },
    };
    write_entry(image, thread, entry);
}

// The entry that is so many ranks after the first one: of any kind, with a small place and a small count; or, in every other log, a STORE
// of a cell of its own, so that each entry shows in the recovered cells.
fn some_entry(first: u64, after: u64, chance: u64) -> Written {
    let rank = first % 2000000 + after % 64;
    if first % 2 == 0 {
        return Written {
            kind: EntryKind::Store as u64,
            place: after,
            value: chance,
            rank,
        };
    }
    Written {
        kind: chance / 7 % 3 + 1,
        place: chance / 31 % 8,
        value: chance / 277 % 16,
        rank,
    }
}

// How many entries a written log has: all 64 in every third.
fn log_length(chance: u64) -> u64 {
    (chance % 96).min(64)
}

// Writes a log of so many entries from a head on.
fn write_log(image: &mut Wide, thread: u64, head: u64, count: u64, chance: u64) {
    set(image, head_at(thread), head);
    let mut some = next(chance);
    for made in 0..count {
        some = next(some);
        write_entry(image, thread, some_entry(head, made, some));
    }
}

// An ACQUIRE of the thread's own lock as the first entry, and as the one so many ranks after it a RELEASE of a lock with a smaller count.
fn write_ends(image: &mut Wide, thread: u64, first: u64, more: u64, lock: u64, low: u64) {
    let rank = first % 2000000;
    let count = low % 5000000;
    let acquire = Written {
        kind: EntryKind::Acquire as u64,
        place: thread,
        value: count + 1,
        rank,
    };
    let release = Written {
        kind: EntryKind::Release as u64,
        place: lock,
        value: count,
        rank: rank + more % 64,
    };
    write_entry(image, thread, acquire);
    write_entry(image, thread, release);
}

// One thread's part in a ring of the threads from 0 to the last one: a log that begins with an ACQUIRE of the thread's own lock and ends
// with a RELEASE of the next thread's lock, which waits for that thread's ACQUIRE.
fn write_link(image: &mut Wide, thread: u64, last: u64, chance: u64) {
    let head = at(image, head_at(thread)) % 1000000 + 1;
    let more = chance / 7 % 20 + 1;
    let low = pick(&COUNTS, chance / 13);
    let next_thread = if thread < last { thread + 1 } else { 0 };
    write_log(image, thread, head, more, chance);
    write_ends(image, thread, head, more, next_thread, low);
}

// Logs that wait for each other in a ring of one to four threads; of two, with no entries between, they are document 01's P10.
fn write_ring(image: &mut Wide, chance: u64) {
    let last = chance / 3 % 4;
    for thread in 0..=last {
        write_link(image, thread, last, chance);
    }
}

// One damage: bits flipped anywhere or near a head, heads and entries at or past their bounds; or logs written anew, a stale entry, a log
// that ends near the last rank or one of any ranks, or a ring.
fn damage_once(image: &mut Wide, drawn: u64) {
    let which = drawn / 5 % 20;
    let chance = next(drawn);
    let thread = chance / 3 % 4;
    let length = log_length(chance / 31);
    match which {
        0 | 1 => flip(image, (chance / 7) as usize % IMAGE_WORDS, chance / 11),
        2 | 3 => {
            let rank = rank_after(image, thread, chance / 5 % 4);
            flip(image, word_at(thread, rank, chance / 7), chance / 11 % 8);
        }
        4..=7 => set(image, head_at(thread), pick(&HEADS, chance / 13)),
        8..=13 => change_word(image, which % 4, chance),
        14 => leave_stale(image, chance),
        15 => write_log(image, thread, 999937 + chance / 13 % 65, length, chance),
        16 | 17 => write_log(image, thread, chance / 13 % 200 + 1, length, chance),
        _ => write_ring(image, chance),
    }
}

// The image, damaged in one to three ways.
pub(crate) fn damaged(image: &[u64; IMAGE_WORDS], chance: u64) -> Wide {
    let mut wide = [0u64; IMAGE_WORDS + 1];
    wide[..IMAGE_WORDS].copy_from_slice(image);
    let second = next(chance);
    damage_once(&mut wide, chance);
    if chance / 3 % 2 == 0 {
        damage_once(&mut wide, second);
    }
    if chance / 3 % 4 == 0 {
        damage_once(&mut wide, next(second));
    }
    wide
}
