// Claimed undo orders, lists of pairs, thread and rank: the checker and the model, side by side, on orders and on changed ones.
ghost use Rattle.std.specs.Prelude.{◌≤◌};

use crate::alike::is_refused_alike;
use crate::listings::{LARGE, next, pick};
use crate::model;
use crate::model::drawing::draw;
use crate::model::history::at;
use crate::model::marking::undone;
use crate::model::{Unlawful, pairs_of};
use crate::tally::Tally;
use answer::Refusal;
use sizes::CELLS;

// The words of the longest list: two more than it may have.
const LIST: usize = 514;

// How a list is changed: not at all, or a pair is dropped, or stands twice, or is swapped with the next, or renumbered, or the list has
// another number of words.
#[derive(Clone, Copy, PartialEq, Eq)]
pub(crate) enum Change {
    AsMade = 0,
    Dropped = 1,
    Doubled = 2,
    Swapped = 3,
    Renumbered = 4,
    Resized = 5,
}

pub(crate) const CHANGES: [Change; 6] = [
    Change::AsMade,
    Change::Dropped,
    Change::Doubled,
    Change::Swapped,
    Change::Renumbered,
    Change::Resized,
];

impl Change {
    // What a row of the table calls it.
    pub(crate) fn name(self) -> &'static str {
        match self {
            Change::AsMade => "as made",
            Change::Dropped => "dropped",
            Change::Doubled => "doubled",
            Change::Swapped => "swapped",
            Change::Renumbered => "renumbered",
            Change::Resized => "odd, long",
        }
    }
}

// The entries of the list, undone in its order, give the cells that recovery gives.
fn undoes_alike(image: &[u64], list: &[u64]) -> bool {
    let mut cells = [0u64; CELLS];
    recovery::recover(image, &mut cells).is_ok() && cells == undone(image, pairs_of(list))
}

// Checker and model give the list the same answer and place, and an accepted list for a cut's image undoes to what recovery gives.
fn list_alike(
    image: &[u64],
    list: &[u64],
    change: Change,
    is_damaged: bool,
    met: &mut Tally,
) -> bool {
    let checked = order::check(image, list);
    let marked = model::mark(image, list);
    met.add_list(change, is_damaged, list.len() / 2, marked);
    let place = checked.place;
    match (checked.answer, marked) {
        (Ok(_), Ok(())) => place == 0 && (is_damaged || undoes_alike(image, list)),
        (Err(Refusal::NotAnOrder), Err(Unlawful::BadAt(bad))) => place == bad,
        (Err(refusal), Err(Unlawful::Refused(other))) => {
            place == 0 && is_refused_alike(refusal, other)
        }
        _ => false,
    }
}

// Where a word of the changed list stands in the list as made, in which the changed pair begins at this other place.
fn source_of(change: Change, index: usize, pair: usize) -> usize {
    let near = index % 1000;
    let Some(past) = near.checked_sub(pair) else {
        return near;
    };
    match change {
        Change::Dropped => near + 2,
        Change::Doubled if 1 < past => near - 2,
        Change::Swapped if past < 2 => near + 2,
        Change::Swapped if past < 4 => near - 2,
        _ => near,
    }
}

// Another thread or rank: one less or one more, the rank that comes to the same slot next, one that differs in a high bit alone or in a
// low one alone, or the largest.
fn other_number(number: u64, chance: u64) -> u64 {
    let near = number % 2000000;
    let numbers = [
        (near + 1999999) % 2000000,
        near + 1,
        near + 64,
        near + 4294967296,
        near ^ 4,
        LARGE,
    ];
    pick(&numbers, chance)
}

// The changed list, with zeros past its last pair. The changed pair is the one that has the word at the spot, and a renumbered pair has
// another word there.
fn changed_list(made: &[u64], change: Change, spot: usize, chance: u64) -> [u64; LIST] {
    let mut list = [0u64; LIST];
    for (index, word) in list.iter_mut().enumerate() {
        *word = at(made, source_of(change, index, spot / 2 * 2));
        if change == Change::Renumbered && index == spot {
            *word = other_number(*word, chance);
        }
    }
    list
}

// The spot in a list of so many words; it is not in the last pair where that is to be swapped with the next.
fn spot_of(change: Change, words: usize, chance: u64) -> usize {
    if words < 4 {
        return 0;
    }
    match change {
        Change::Swapped => chance as usize % (words - 2),
        _ => chance as usize % words,
    }
}

// How many words the changed list has. Another number is one less or one more, or the most that a list may have, or two over that.
fn words_of(change: Change, words: usize, chance: u64) -> usize
    requires { words ≤ 512 }
{
    if words < 4 {
        return words;
    }
    match change {
        Change::Dropped => words - 2,
        Change::Doubled => words + 2,
        Change::Resized => match chance % 4 {
            0 => words - 1,
            1 => words + 1,
            2 => LIST - 2,
            _ => LIST,
        },
        _ => words,
    }
}

// Checker and model mark an order of the image alike that is drawn by chance and changed. One of fewer than two pairs is not changed.
fn changed_alike(
    image: &[u64],
    change: Change,
    is_damaged: bool,
    chance: u64,
    met: &mut Tally,
) -> bool {
    let mut made = [[0u64; 2]; 256];
    let pairs = draw(image, chance, &mut made);
    if pairs < 2 && change != Change::AsMade {
        return true;
    }
    let words = pairs * 2;
    let other = next(chance);
    let spot = spot_of(change, words, other);
    let list = changed_list(made.as_flattened(), change, spot, other / 7);
    let claimed = list
        .get(..words_of(change, words, other / 5))
        .unwrap_or(&list);
    list_alike(image, claimed, change, is_damaged, met)
}

// Checker and model mark orders of the image alike that are drawn by chance, one as it is and one for each change.
pub(crate) fn orders_alike(image: &[u64], is_damaged: bool, chance: u64, met: &mut Tally) -> bool {
    let mut drawn = next(chance);
    for change in CHANGES {
        if !changed_alike(image, change, is_damaged, drawn, met) {
            return false;
        }
        drawn = next(drawn);
    }
    true
}
