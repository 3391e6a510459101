// Copying cells: the first 128 words of one list of words over those of another.
#![tactic(auto)]

ghost use Rattle.std.specs.Prelude.{◌≡◌};
ghost use Rattle.cells.specs.Cells.{copied_of};

use sizes::CELLS;

// Copies the first 128 words; where one of the two has fewer, the buffer is left as it was.
#[tactic(auto, unfolding(crate::specs::Cells::copied_of))]
pub fn copy_cells(from: &[u64], to: &mut [u64])
    ensures { to.new ≡ copied_of from.now to.old }
{
    if CELLS <= from.len() && CELLS <= to.len() {
        to[..CELLS].copy_from_slice(&from[..CELLS]);
    }
}
