// Marks a claimed undo order against an image: pair by pair, thread and LSN. Stands on the test of one pair, and on how an image is tested.
#![tactic(auto)]

ghost use Rattle.std.specs.Prelude.{◌≡◌, Err};
ghost use Rattle.image.specs.Stored.{stored_logs};
ghost use Rattle.order.specs.Check.{pairs_of, bad_place, refused, are_not_pairs, check_of};

use answer::{Answer, Refusal};
use image::HeadedImage;
use sizes::THREADS;

// The words of a list at most: 256 pairs, as many as an image can have entries.
pub const MOST_WORDS: usize = 512;

// What a list is answered: 0, or the refusal; and with 27 the place, from 0, of its first bad pair, or the number of pairs where entries
// are missing, else 0. The place stands here, as the count does in the answer of a call that logs many cells: the number beside a refusal
// in `Answer` is 0. A struct, and no Result with the place in it: what `check` gives is documented by these two fields.
#[derive(Clone, Copy)]
pub struct Checked {
    pub answer: Answer,
    pub place: usize,
}

// A list or an image that can't be used.
fn refused(refusal: Refusal) -> Checked
    ensures { result ≡ refused (Err refusal) }
{
    Checked {
        answer: Err(refusal),
        place: 0,
    }
}

// The place of the first pair whose entry may not be taken, those before it being taken; or the number of pairs where entries are missing.
fn bad_place(image: HeadedImage, present: [usize; THREADS], pairs: &[u64]) -> Option<usize>
    ensures { result ≡ bad_place (stored_logs image.entry.words.now) present 0 (pairs_of pairs.now) }
{
    let mut left = present;
    for (place, pair) in pairs.chunks_exact(2).enumerate() {
        if !pair::may_take_pair(image, left, pair[0], pair[1]) {
            return Some(place);
        }
        let log = pair[0] as usize;
        left[log] -= 1;
    }
    if undoing::has_left(left) {
        return Some(pairs.len() / 2);
    }
    None
}

// So many words are no list of pairs.
#[tactic(auto, unfolding(crate::specs::Check::are_not_pairs))]
fn are_not_pairs(count: usize) -> bool
    ensures { result ≡ are_not_pairs count }
{
    MOST_WORDS < count || count % 2 == 1
}

// Marks a list: 21 to 23 for the image, then 26, then 27 with the place of the first bad pair.
pub fn check(image: &[u64], pairs: &[u64]) -> Checked
    ensures { result ≡ check_of image.now pairs.now }
{
    let tested = match image::test(image) {
        Ok(tested) => tested,
        Err(refusal) => return refused(refusal),
    };
    if are_not_pairs(pairs.len()) {
        return refused(Refusal::NotPairs);
    }
    match bad_place(tested.headed, tested.present, pairs) {
        Some(place) => Checked {
            answer: Err(Refusal::NotAnOrder),
            place,
        },
        None => Checked {
            answer: Ok(0),
            place: 0,
        },
    }
}
