// An undo order of an image's present entries that is drawn by chance, as a list of pairs, thread and rank: the thread at which a turn
// begins to look is drawn, where document 01's order begins at the lowest.
ghost use Rattle.std.specs.Prelude.{◌≤◌, length};

use crate::listings::next;
use crate::model::marking::Pair;
use crate::model::recovering::{all_present, first_from, rank_after, take};

// Writes an order, and answers how many pairs it has. It ends where no entry that is left may be taken, or the list is full.
pub(crate) fn draw(image: &[u64], chance: u64, list: &mut [Pair]) -> usize
    ensures { result ≤ length list.old }
{
    let mut left = all_present(image);
    let mut drawn = next(chance);
    for (place, pair) in list.iter_mut().enumerate() {
        let Some(thread) = first_from(image, &left, drawn / 7) else {
            return place;
        };
        let ahead = take(&mut left, thread);
        *pair = [thread, rank_after(image, thread, ahead)];
        drawn = next(drawn);
    }
    list.len()
}
