// Recovery: what an image's cells were before the regions that were not pruned. Stands on how an image is tested and undone.
#![tactic(auto)]

ghost use Rattle.std.specs.Prelude.{◌≡◌};
ghost use Rattle.recovery.specs.Recover.{recover_of};

use answer::{Answer, Refusal};
use sizes::CELLS;

// Recovers the cells of an image into the lent buffer; or refuses (21, 22, 23, 24 in order), and the buffer is as it was.
pub fn recover(image: &[u64], cells: &mut [u64]) -> Answer
    ensures { record { answer = result; buffer = cells.new } ≡ recover_of image.now cells.old }
{
    if cells.len() != CELLS {
        return Err(Refusal::WrongLength);
    }
    let tested = image::test(image)?;
    let undone = undoing::undo(tested);
    if undoing::has_left(undone.left) {
        return Err(Refusal::Cyclic);
    }
    cells.copy_from_slice(&undone.cells);
    Ok(0)
}
