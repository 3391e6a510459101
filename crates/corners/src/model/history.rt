// A history: the accepted steps in the order in which they were taken, each known by its place in that order, from 0. What holds before a
// step holds of the history that ends there.
//
// A history and a thread are two parameters, and no struct: what is asked of one history is asked of several threads, and what is asked of
// one thread, of the history's beginnings.
use crate::model::Refusal;

// What a step does, by the number that the documents give it. No step has 11. The model's own, since it names nothing of the machine.
#[derive(Clone, Copy, PartialEq, Eq)]
pub(crate) enum Kind {
    Load = 1,
    Log = 2,
    Store = 3,
    Acquire = 4,
    LogRel = 5,
    Release = 6,
    Flush = 7,
    FlushLog = 8,
    Fence = 9,
    Prune = 10,
    EvictLog = 12,
    EvictCell = 13,
    EvictWords = 14,
}

impl TryFrom<u64> for Kind {
    type Error = Refusal;

    // The kind that has this number.
    fn try_from(number: u64) -> Result<Kind, Refusal> {
        match number {
            1 => Ok(Kind::Load),
            2 => Ok(Kind::Log),
            3 => Ok(Kind::Store),
            4 => Ok(Kind::Acquire),
            5 => Ok(Kind::LogRel),
            6 => Ok(Kind::Release),
            7 => Ok(Kind::Flush),
            8 => Ok(Kind::FlushLog),
            9 => Ok(Kind::Fence),
            10 => Ok(Kind::Prune),
            12 => Ok(Kind::EvictLog),
            13 => Ok(Kind::EvictCell),
            14 => Ok(Kind::EvictWords),
            _ => Err(Refusal::NoKind),
        }
    }
}

// A step.
#[derive(Clone, Copy)]
pub(crate) struct Step {
    pub(crate) kind: Kind,
    pub(crate) thread: u64,
    pub(crate) place: u64,
    pub(crate) value: u64,
}

impl Step {
    // A LOAD, where a place of a list is not in use yet.
    pub(crate) const NONE: Step = Step {
        kind: Kind::Load,
        thread: 0,
        place: 0,
        value: 0,
    };
}

// A word of a list, and 0 past its end.
pub(crate) fn at(words: &[u64], index: usize) -> u64 {
    words.get(index).copied().unwrap_or(0)
}

// The history before a step.
pub(crate) fn before(past: &[Step], step: usize) -> &[Step] {
    past.get(..step).unwrap_or(past)
}

// The history from a step on.
pub(crate) fn from(past: &[Step], step: usize) -> &[Step] {
    past.get(step..).unwrap_or(&[])
}

// The step at this place is of the kind.
pub(crate) fn is_kind(past: &[Step], step: usize, kind: Kind) -> bool {
    past.get(step).is_some_and(|step| step.kind == kind)
}

// The last step of the kind by the thread.
pub(crate) fn last_of(past: &[Step], kind: Kind, thread: u64) -> Option<usize> {
    past.iter()
        .rposition(|step| step.kind == kind && step.thread == thread)
}

// The last step of the kind at the place.
pub(crate) fn last_at(past: &[Step], kind: Kind, place: u64) -> Option<usize> {
    past.iter()
        .rposition(|step| step.kind == kind && step.place == place)
}

// There is such a later step, and it comes after this one.
pub(crate) fn is_after(later: Option<usize>, step: usize) -> bool {
    later.is_some_and(|later| step < later)
}

// The step that began something, unless the one that ends it came after.
pub(crate) fn unless_ended(began: Option<usize>, ended: Option<usize>) -> Option<usize> {
    began.filter(|step| !is_after(ended, *step))
}

// The cell has an entry in the thread's current region: the thread logged it, and took no ACQUIRE and no LOGREL since then.
fn has_entry(past: &[Step], thread: u64, cell: u64) -> bool {
    for step in past.iter().rev() {
        if step.thread == thread {
            if matches!(step.kind, Kind::Acquire | Kind::LogRel) {
                return false;
            }
            if step.kind == Kind::Log && step.place == cell {
                return true;
            }
        }
    }
    false
}

// The step at this place is a LOG by the thread that makes an entry: the cell had none in the current region.
fn is_first_log(past: &[Step], thread: u64, step: usize) -> bool {
    let Some(log) = past.get(step) else {
        return false;
    };
    log.kind == Kind::Log
        && log.thread == thread
        && !has_entry(before(past, step), thread, log.place)
}

// The step at this place is a LOG of the cell by the thread that makes an entry.
pub(crate) fn is_first_log_of(past: &[Step], thread: u64, cell: u64, step: usize) -> bool {
    is_first_log(past, thread, step) && past.get(step).is_some_and(|log| log.place == cell)
}

// The step at this place makes an entry of the thread: it is a LOG of a cell with none in the current region, an ACQUIRE or a LOGREL.
pub(crate) fn is_entry(past: &[Step], thread: u64, step: usize) -> bool {
    let Some(made) = past.get(step) else {
        return false;
    };
    made.thread == thread
        && (matches!(made.kind, Kind::Acquire | Kind::LogRel) || is_first_log(past, thread, step))
}
