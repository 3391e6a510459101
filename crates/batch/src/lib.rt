// Many cells logged in one call: LOG steps of one thread, in order, up to the first that is refused.
#![tactic(auto)]

ghost use Rattle.std.specs.Prelude.{◌≡◌, ◌+◌, ◌<◌, length};
ghost use Rattle.batch.specs.Batch.{many_before, log_each, log_cells_of};

use answer::{Answer, Refusal};
use machine::Machine;

// How many cells a call may name.
const MOST_CELLS: usize = 16;

// What a call leaves: how many of its cells were accepted, the refusal that stopped it, or 0, and the machine. No Result: all three are
// given on refusal too, as `log_cells_of` says.
#[derive(Clone, Copy)]
pub struct CellsLogged {
    pub count: u64,
    pub answer: Answer,
    pub machine: Machine,
}

// Logs the cells in order, and answers 0; or the refusal that stopped it. How many were accepted is added to the count.
fn log_each(machine: &mut Machine, thread: u64, cells: &[u64], count: &mut u64) -> Answer
    requires { count.old + length cells.now < 18446744073709551616 }
    ensures { record { count = count.new; answer = result; machine = machine.new } ≡
        many_before count.old (log_each machine.old thread cells.now) }
{
    for &cell in cells {
        let stepped = machine.log(thread, cell);
        *machine = stepped.machine;
        stepped.answer?;
        *count += 1;
    }
    Ok(0)
}

// Logs the cells in order, up to the first that is refused. 25 where they are more than 16, and the machine stays as it is.
pub fn log_cells(mut machine: Machine, thread: u64, cells: &[u64]) -> CellsLogged
    ensures { result ≡ log_cells_of machine thread cells.now }
{
    let mut count = 0;
    let answer = if MOST_CELLS < cells.len() {
        Err(Refusal::TooManyCells)
    } else {
        log_each(&mut machine, thread, cells, &mut count)
    };
    CellsLogged {
        count,
        answer,
        machine,
    }
}
