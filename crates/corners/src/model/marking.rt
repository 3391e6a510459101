// Marking a claimed undo order of an image of 1,156 words: a list of pairs, thread and rank. It goes by the places at which the list names
// the entries: nothing is taken, and nothing is known of what remains.
//
// An image and pairs are two parameters, and no struct: of one image, all pairs are asked or those before a place.
use crate::model::recovering::{
    EntryKind, Left, all_present, entry_after, is_larger, kept_cells, rank_after, remaining,
    write_back,
};

// A pair of a list: a thread and a rank.
pub(crate) type Pair = [u64; 2];

// An entry by its thread, and by how many ranks it is after the head.
#[derive(Clone, Copy)]
struct Place {
    thread: u64,
    ahead: u64,
}

// The pair names the entry.
fn names(image: &[u64], pair: Pair, named: Place) -> bool {
    pair[0] == named.thread && pair[1] == rank_after(image, named.thread, named.ahead)
}

// The entry is named by one of the pairs.
fn is_named(image: &[u64], pairs: &[Pair], named: Place) -> bool {
    pairs.iter().any(|pair| names(image, *pair, named))
}

// The present entry that the pair names.
fn entry_named(image: &[u64], present: &Left, pair: Pair) -> Option<Place> {
    let thread = pair[0];
    let ahead = (0..remaining(present, thread)).find(|ahead| names(
        image,
        pair,
        Place {
            thread,
            ahead: *ahead,
        },
    ))?;
    Some(Place { thread, ahead })
}

// The second entry is a RELEASE, and the first an ACQUIRE of that lock with a larger count.
fn is_awaited(image: &[u64], first: Place, second: Place) -> bool {
    let release = entry_after(image, second.thread, second.ahead);
    if release.kind != Some(EntryKind::Release) {
        return false;
    }
    let acquire = entry_after(image, first.thread, first.ahead);
    is_larger(acquire, release.place, release.value)
}

// The first entry is to be named before the second: it is of the same thread and has the larger rank, or the second may not be taken while
// it remains. Every entry is to be named before the end, where there is no second.
fn comes_before(image: &[u64], first: Place, second: Option<Place>) -> bool {
    let Some(second) = second else {
        return true;
    };
    first.thread == second.thread && second.ahead < first.ahead || is_awaited(image, first, second)
}

// The first entry is to be named before the second, and none of these pairs names it.
fn is_missed(image: &[u64], pairs: &[Pair], first: Place, second: Option<Place>) -> bool {
    comes_before(image, first, second) && !is_named(image, pairs, first)
}

// Some present entry of the thread that is to be named before this one is named by none of these pairs.
fn waits_for(image: &[u64], count: u64, pairs: &[Pair], thread: u64, named: Option<Place>) -> bool {
    (0..count).any(|ahead| is_missed(image, pairs, Place { thread, ahead }, named))
}

// Some present entry that is to be named before this one is named by none of these pairs.
fn waits(image: &[u64], present: &Left, pairs: &[Pair], named: Option<Place>) -> bool {
    (0..4).any(|thread| waits_for(image, remaining(present, thread), pairs, thread, named))
}

// The pair at the place is bad: it names no present entry, or one that is named before, or one before which another is to be named. The
// end of the list is bad where entries are missing.
fn is_bad(image: &[u64], present: &Left, pairs: &[Pair], place: usize) -> bool {
    let before = pairs.get(..place).unwrap_or(pairs);
    let Some(pair) = pairs.get(place) else {
        return waits(image, present, before, None);
    };
    let Some(named) = entry_named(image, present, *pair) else {
        return true;
    };
    is_named(image, before, named) || waits(image, present, before, Some(named))
}

// The first place that is bad, the number of pairs being the end's.
pub(crate) fn first_bad(image: &[u64], pairs: &[Pair]) -> Option<usize> {
    let present = all_present(image);
    (0..=pairs.len()).find(|place| is_bad(image, &present, pairs, *place))
}

// The cells that the kept ones come to when the entries that a list names are undone in its order.
pub(crate) fn undone(image: &[u64], pairs: &[Pair]) -> [u64; 128] {
    let mut cells = kept_cells(image);
    let present = all_present(image);
    for pair in pairs {
        if let Some(named) = entry_named(image, &present, *pair) {
            write_back(&mut cells, entry_after(image, named.thread, named.ahead));
        }
    }
    cells
}
