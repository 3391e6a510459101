// Which accepted steps happen before a new one, and which accesses race. No clock: the history is walked backward.
use crate::model::history::{Kind, Step, from};

// The threads and the locks that were met, of numbers 0 to 7.
#[derive(Clone, Copy)]
struct Met {
    threads: [bool; 8],
    locks: [bool; 8],
}

// Of the eight numbers 0 to 7, this one is in the set.
fn has(set: &[bool; 8], number: u64) -> bool {
    set.get(number as usize).copied().unwrap_or(false)
}

// Puts one of the numbers 0 to 7 into the set.
fn put(set: &mut [bool; 8], number: u64) {
    if let Some(is_in) = set.get_mut(number as usize) {
        *is_in = true;
    }
}

impl Met {
    // The step happens before what was met so far: it is of a thread that was met, or the RELEASE of a lock whose ACQUIRE was met.
    fn follows(&self, step: Step) -> bool {
        has(&self.threads, step.thread)
            || step.kind == Kind::Release && has(&self.locks, step.place)
    }

    // Meets a step.
    fn meet(&mut self, step: Step) {
        put(&mut self.threads, step.thread);
        if step.kind == Kind::Acquire {
            put(&mut self.locks, step.place);
        }
    }
}

// The first of these steps happens before a new step of the thread. The walk back from the new step meets the steps that happen before it:
// what happens before one of them does too, and a thread's earlier steps and a lock's earlier RELEASEs are all there is.
fn happens_before(steps: &[Step], thread: u64) -> bool {
    let Some((earlier, later)) = steps.split_first() else {
        return false;
    };
    let mut met = Met {
        threads: [false; 8],
        locks: [false; 8],
    };
    put(&mut met.threads, thread);
    for step in later.iter().rev() {
        if met.follows(*step) {
            met.meet(*step);
        }
    }
    met.follows(*earlier)
}

// The step is an access of the cell by another thread, and it or the new access is a LOG.
fn can_race(step: Step, kind: Kind, thread: u64, cell: u64) -> bool {
    step.thread != thread
        && step.place == cell
        && (step.kind == Kind::Log || kind == Kind::Log && step.kind == Kind::Load)
}

// The new access, a LOAD or a LOG of the cell, would race with an earlier one.
pub(crate) fn races(past: &[Step], kind: Kind, thread: u64, cell: u64) -> bool {
    past.iter().enumerate().any(|(at, step)| {
        can_race(*step, kind, thread, cell) && !happens_before(from(past, at), thread)
    })
}
