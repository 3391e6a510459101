// A whole run over lent buffers: the start call, steps given as words, the cut and recovery. Its promise is demand 3.
#![tactic(auto)]

ghost use Rattle.std.specs.Prelude.{◌≡◌};
ghost use Rattle.machine.specs.Holds.{start_of};
ghost use Rattle.replay.specs.Replay.{steps_of, run_of, replay_of};

use answer::{Answer, Refusal};
use machine::{Machine, Stepped};
use reader::IMAGE_WORDS;
use recovery::recover;
use sizes::CELLS;
use step::step;

// Takes steps of four words each (kind, thread, place, value) from a start: the last answer, beside the machine after them. A last
// step that is cut short is not taken.
pub fn run(start: &[u64], steps: &[u64]) -> Stepped
    ensures { result ≡ run_of (start_of start.now) (steps_of steps.now) }
{
    let mut stepped = Machine::start(start);
    for words in steps.chunks_exact(4) {
        stepped = step(stepped.machine, words[0], words[1], words[2], words[3]);
    }
    stepped
}

// Runs the steps, cuts and recovers: the image of the cut and the recovered cells, which are the reference model's. 21 where a lent
// buffer has not its length, and both as they were.
pub fn replay(start: &[u64], steps: &[u64], image: &mut [u64], cells: &mut [u64]) -> Answer
    ensures { record { answer = result; image = image.new; cells = cells.new } ≡
        replay_of start.now steps.now image.old cells.old }
{
    if image.len() != IMAGE_WORDS {
        return Err(Refusal::WrongLength);
    }
    if cells.len() != CELLS {
        return Err(Refusal::WrongLength);
    }
    let stepped = run(start, steps);
    let _ = stepped.machine.cut(image);
    recover(image, cells)
}
