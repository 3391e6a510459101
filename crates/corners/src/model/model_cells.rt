// Cells and locks: what each holds after a history.
ghost use Rattle.std.specs.Prelude.{◌≤◌};

use crate::model::Run;
use crate::model::history::{Kind, Step, at, before, is_after, last_at, last_of, unless_ended};

// A cell's seen content: what the last STORE of it set, or the start cell.
pub(crate) fn seen(run: Run, cell: u64) -> u64 {
    let start = run.start;
    let past = run.past;
    let stored = past
        .iter()
        .rfind(|step| step.kind == Kind::Store && step.place == cell);
    match stored {
        Some(step) => step.value,
        None => at(start, cell as usize),
    }
}

// The thread has its mark on the line: it flushed the line, and since then nobody stored to the line and the thread took no FENCE.
fn is_marked(past: &[Step], thread: u64, line: u64) -> bool {
    let flush = past.iter().rposition(|step| step.kind == Kind::Flush
        && step.thread == thread
        && step.place == line);
    let Some(flushed) = flush else {
        return false;
    };
    let stored = past
        .iter()
        .rposition(|step| step.kind == Kind::Store && step.place / 8 == line);
    !is_after(stored, flushed) && !is_after(last_of(past, Kind::Fence, thread), flushed)
}

// How many of the 16 lines have the thread's mark.
pub(crate) fn marked_lines(past: &[Step], thread: u64) -> usize
    ensures { result ≤ 16 }
{
    (0..16)
        .filter(|line| is_marked(past, thread, *line))
        .count()
}

// The step at this place is a FENCE whose thread had its mark on the line.
fn fences(past: &[Step], line: u64, step: usize) -> bool {
    past.get(step).is_some_and(|fence| {
        fence.kind == Kind::Fence && is_marked(before(past, step), fence.thread, line)
    })
}

// The last FENCE whose thread had its mark on the line.
fn last_fence(past: &[Step], line: u64) -> Option<usize> {
    (0..past.len()).rev().find(|step| fences(past, line, *step))
}

// A cell is firm at the start, and a STORE of it ends that until a FENCE keeps its line.
pub(crate) fn is_firm(past: &[Step], cell: u64) -> bool {
    let Some(stored) = last_at(past, Kind::Store, cell) else {
        return true;
    };
    is_after(last_fence(past, cell / 8), stored)
}

// A cell's kept content: what was seen in it when it was last kept, with its line by a FENCE or alone by an EVICTCELL, or the start cell.
pub(crate) fn kept(run: Run, cell: u64) -> u64 {
    let fenced = last_fence(run.past, cell / 8).unwrap_or(0);
    let evicted = last_at(run.past, Kind::EvictCell, cell).unwrap_or(0);
    seen(run.before(fenced.max(evicted)), cell)
}

// A lock's count: how often it was released.
pub(crate) fn lock_count(past: &[Step], lock: u64) -> usize {
    past.iter()
        .filter(|step| step.kind == Kind::Release && step.place == lock)
        .count()
}

// The ACQUIRE by which a lock is held.
pub(crate) fn holding(past: &[Step], lock: u64) -> Option<usize> {
    unless_ended(
        last_at(past, Kind::Acquire, lock),
        last_at(past, Kind::Release, lock),
    )
}
