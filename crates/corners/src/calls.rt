// A call that logs many cells on the machine, beside single LOGs on the model.
use crate::alike::{Past, image_of, is_answered_alike};
use crate::listings::{calling_thread, listed_cells, next};
use crate::model;
use crate::model::history::Kind;
use crate::model::{Asked, Refusal};
use crate::tally::Tally;
use batch::log_cells;
use machine::Machine;

// A step of the kind, without a value.
fn asked(kind: Kind, thread: u64, place: u64) -> Asked {
    Asked {
        kind: kind as u64,
        thread,
        place,
        value: 0,
    }
}

// "logs them in order, up to the first refused": how many cells were accepted, whose LOGs are added to the history, and beside it the
// model's answer. "25: a list longer than 16, tested first".
fn logged_singly(past: &mut Past, thread: u64, cells: &[u64]) -> (u64, Result<(), Refusal>) {
    if 16 < cells.len() {
        return (0, Err(Refusal::TooMany));
    }
    for (done, cell) in cells.iter().enumerate() {
        let log = asked(Kind::Log, thread, *cell);
        if let Err(refusal) = model::judge(past.run(), log) {
            return (done as u64, Err(refusal));
        }
        past.push(log);
    }
    (cells.len() as u64, Ok(()))
}

// With the thread's entries fenced, the machine's image is the model's.
fn fenced_alike(machine: Machine, past: &mut Past, thread: u64) -> bool {
    let flushed = machine.flush_log(thread);
    let between = flushed.machine;
    let fenced = between.fence(thread);
    past.push(asked(Kind::FlushLog, thread, 0));
    past.push(asked(Kind::Fence, thread, 0));
    image_of(fenced.machine) == model::image(past.run())
}

// The call answers what single LOGs on the model come to, and leaves the entries that these make.
fn call_alike(
    machine: Machine,
    past: &mut Past,
    thread: u64,
    cells: &[u64],
    met: &mut Tally,
) -> bool {
    let logged = log_cells(machine, thread, cells);
    let (count, answer) = logged_singly(past, thread, cells);
    met.add_call(cells.len(), count, answer);
    if !is_answered_alike(logged.answer, answer.map(|_| 0)) {
        return false;
    }
    if logged.count != count {
        return false;
    }
    fenced_alike(logged.machine, past, thread % 4)
}

// Before every 25th step, a call with a list of 0 to 18 cells, on copies of the machine and of the history; other steps have none.
pub(crate) fn called_alike(
    number: usize,
    seed: u64,
    machine: Machine,
    mut past: Past,
    met: &mut Tally,
) -> bool {
    if number % 25 != 10 {
        return true;
    }
    let chance = next(seed % 1000000 * 1000 + (number % 1000) as u64);
    let cells = listed_cells(chance);
    let count = (chance / 5 % 19) as usize;
    let thread = calling_thread(chance / 95);
    call_alike(machine, &mut past, thread, &cells[..count], met)
}
