// What a step answers: refused because of its input, refused because of the history, or accepted with its number.
use crate::model::history::{Kind, Step, before, is_after, is_kind, last_of};
use crate::model::{Asked, Refusal, Run, happening, logs, model_cells};

// The refusal, where the test holds.
pub(crate) fn refuse_if(is_so: bool, refusal: Refusal) -> Result<(), Refusal> {
    if is_so { Err(refusal) } else { Ok(()) }
}

// How many places a step of the kind can name; none where the place is unused.
fn place_count(kind: Kind) -> Option<u64> {
    match kind {
        Kind::Load | Kind::Log | Kind::Store | Kind::EvictCell => Some(128),
        Kind::Acquire | Kind::LogRel | Kind::Release => Some(8),
        Kind::Flush => Some(16),
        Kind::EvictLog | Kind::EvictWords => Some(64),
        Kind::FlushLog | Kind::Fence | Kind::Prune => None,
    }
}

// A field that the kind does not use is not 0.
fn is_misused(step: Step) -> bool {
    match step.kind {
        Kind::Store | Kind::EvictWords => false,
        Kind::EvictCell => step.value != 0 || step.thread != 0,
        kind => step.value != 0 || place_count(kind).is_none() && step.place != 0,
    }
}

// The step that is asked for; the first of 1, 2, 3, 4 and 19 that refuses it because of its input. EVICTWORDS uses all fields: 4 never
// takes the place of its 19.
pub(crate) fn read(asked: Asked) -> Result<Step, Refusal> {
    let step = Step {
        kind: Kind::try_from(asked.kind)?,
        thread: asked.thread,
        place: asked.place,
        value: asked.value,
    };
    refuse_if(3 < step.thread, Refusal::NoThread)?;
    refuse_if(
        place_count(step.kind).is_some_and(|places| places <= step.place),
        Refusal::NoPlace,
    )?;
    refuse_if(is_misused(step), Refusal::Misused)?;
    refuse_if(
        step.kind == Kind::EvictWords && !matches!(step.value, 1..=4),
        Refusal::NoWords,
    )?;
    Ok(step)
}

// 64 live entries.
pub(crate) fn is_full(past: &[Step], thread: u64) -> bool {
    logs::head(past, thread).is_some_and(|head| 64 <= logs::entries_from(past, thread, head))
}

// 7: the thread is closing.
fn ask_open(past: &[Step], thread: u64) -> Result<(), Refusal> {
    refuse_if(logs::closing(past, thread).is_some(), Refusal::Closing)
}

// 6: rank 1,000,000 is given; 5: 64 live entries.
fn ask_room(past: &[Step], thread: u64) -> Result<(), Refusal> {
    refuse_if(
        1000000 <= logs::entries_from(past, thread, 0),
        Refusal::RanksGiven,
    )?;
    refuse_if(is_full(past, thread), Refusal::Full)
}

// 8: the access would race with an earlier one.
fn ask_alone(past: &[Step], step: Step) -> Result<(), Refusal> {
    refuse_if(
        happening::races(past, step.kind, step.thread, step.place),
        Refusal::Races,
    )
}

// LOG 7, 8, 6, 5; of a cell with an entry in the current region 7 alone.
fn ask_log(past: &[Step], log: Step) -> Result<(), Refusal> {
    ask_open(past, log.thread)?;
    if logs::logged(past, log.thread, log.place).is_some() {
        return Ok(());
    }
    ask_alone(past, log)?;
    ask_room(past, log.thread)
}

// STORE 7, 10, 11.
fn ask_store(past: &[Step], store: Step) -> Result<(), Refusal> {
    ask_open(past, store.thread)?;
    let Some(entry) = logs::logged(past, store.thread, store.place) else {
        return Err(Refusal::NotLogged);
    };
    refuse_if(!logs::is_firm(past, store.thread, entry), Refusal::NotFirm)
}

// ACQUIRE 7, 12, 6, 5.
fn ask_acquire(past: &[Step], acquire: Step) -> Result<(), Refusal> {
    ask_open(past, acquire.thread)?;
    refuse_if(
        model_cells::holding(past, acquire.place).is_some(),
        Refusal::Held,
    )?;
    ask_room(past, acquire.thread)
}

// The thread holds the lock.
fn holds(past: &[Step], thread: u64, lock: u64) -> bool {
    model_cells::holding(past, lock)
        .and_then(|acquired| past.get(acquired))
        .is_some_and(|acquire| acquire.thread == thread)
}

// LOGREL 7, 13, 6, 5.
fn ask_logrel(past: &[Step], logrel: Step) -> Result<(), Refusal> {
    ask_open(past, logrel.thread)?;
    refuse_if(
        !holds(past, logrel.thread, logrel.place),
        Refusal::NotHolding,
    )?;
    ask_room(past, logrel.thread)
}

// RELEASE 14, 11.
fn ask_release(past: &[Step], release: Step) -> Result<(), Refusal> {
    let Some(entry) = logs::closing(past, release.thread) else {
        return Err(Refusal::NotClosing);
    };
    let is_other = past
        .get(entry)
        .is_some_and(|closing| closing.place != release.place);
    refuse_if(is_other, Refusal::NotClosing)?;
    refuse_if(
        !logs::is_firm(past, release.thread, entry),
        Refusal::NotFirm,
    )
}

// The region with this last entry is finished: its RELEASE step was taken, or the next region exists, which begins with an ACQUIRE.
fn is_finished(past: &[Step], thread: u64, last: usize, next: Option<usize>) -> bool {
    if is_kind(past, last, Kind::LogRel) {
        return is_after(last_of(past, Kind::Release, thread), last);
    }
    next.is_some()
}

// 16: the region begins with ACQUIRE of count k and fewer than k regions ending in a RELEASE of that lock are pruned.
fn is_too_early(past: &[Step], first: usize) -> bool {
    past.get(first).is_some_and(|acquire| {
        acquire.kind == Kind::Acquire
            && logs::pruned_releases(past, acquire.place)
                < model_cells::lock_count(before(past, first), acquire.place)
    })
}

// PRUNE 15, 11, 16, 17.
fn ask_prune(past: &[Step], thread: u64) -> Result<(), Refusal> {
    let Some(first) = logs::head(past, thread) else {
        return Err(Refusal::Unfinished);
    };
    let next = logs::after_head(past, thread);
    let region = before(past, next.unwrap_or(past.len()));
    let Some(last) = logs::last_entry(region, thread) else {
        return Err(Refusal::Unfinished);
    };
    refuse_if(!is_finished(past, thread, last, next), Refusal::Unfinished)?;
    refuse_if(!logs::is_firm(past, thread, last), Refusal::NotFirm)?;
    refuse_if(is_too_early(past, first), Refusal::TooEarly)?;
    refuse_if(
        logs::logged_unfirm(past, thread, region.get(first..).unwrap_or(&[])),
        Refusal::CellsNotFirm,
    )
}

// EVICTLOG and EVICTWORDS 18.
fn ask_slot(past: &[Step], eviction: Step) -> Result<(), Refusal> {
    let entry = logs::in_slot(past, eviction.thread, eviction.place);
    let head = logs::head(past, eviction.thread);
    let is_live = entry.is_some_and(|entry| head.is_some_and(|head| head <= entry));
    refuse_if(!is_live, Refusal::NoEntry)
}

// The first refusal of the step because of the history.
pub(crate) fn ask(past: &[Step], step: Step) -> Result<(), Refusal> {
    match step.kind {
        Kind::Load => ask_alone(past, step),
        Kind::Log => ask_log(past, step),
        Kind::Store => ask_store(past, step),
        Kind::Acquire => ask_acquire(past, step),
        Kind::LogRel => ask_logrel(past, step),
        Kind::Release => ask_release(past, step),
        Kind::Prune => ask_prune(past, step.thread),
        Kind::EvictLog | Kind::EvictWords => ask_slot(past, step),
        Kind::Flush | Kind::FlushLog | Kind::Fence | Kind::EvictCell => Ok(()),
    }
}

// The rank that a LOG gives: of the cell's entry in the current region, which is the LOG's own where there is none before it.
fn logged_rank(past: &[Step], thread: u64, cell: u64) -> usize {
    let entry = logs::logged(past, thread, cell).unwrap_or(past.len());
    logs::rank(past, thread, entry)
}

// The number that a FENCE gives: how many lines have the thread's mark, and how many of its entries are marked and not yet firm.
fn carried(past: &[Step], thread: u64) -> usize {
    model_cells::marked_lines(past, thread).saturating_add(logs::unfenced(past, thread))
}

// The number that a PRUNE gives: how many entries it freed.
fn freed(past: &[Step], thread: u64) -> usize {
    let region = before(past, logs::after_head(past, thread).unwrap_or(past.len()));
    logs::head(past, thread).map_or(0, |head| logs::entries_from(region, thread, head))
}

// The number that an accepted step gives: a LOAD the seen content, a LOG a rank, an ACQUIRE or LOGREL the lock's count, a FENCE what it
// carried, a PRUNE how many entries it freed; other kinds 0.
pub(crate) fn given(run: Run, step: Step) -> u64 {
    match step.kind {
        Kind::Load => model_cells::seen(run, step.place),
        Kind::Log => logged_rank(run.past, step.thread, step.place) as u64,
        Kind::Acquire | Kind::LogRel => model_cells::lock_count(run.past, step.place) as u64,
        Kind::Fence => carried(run.past, step.thread) as u64,
        Kind::Prune => freed(run.past, step.thread) as u64,
        _ => 0,
    }
}
