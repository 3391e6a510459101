// Whole logs: a thread's entries are the LOG, ACQUIRE and LOGREL steps it took, each known by its step, without the LOGs of a cell with an
// entry in the current region. None is ever forgotten; the head says which are live.
ghost use Rattle.std.specs.Prelude.{MatchOption, ⊤, ◌<◌, length};

use crate::model::history::{
    Kind, Step, before, is_after, is_entry, is_first_log_of, is_kind, last_at, last_of,
    unless_ended,
};
use crate::model::model_cells;

// How many entries the thread made from a step on.
pub(crate) fn entries_from(past: &[Step], thread: u64, from: usize) -> usize {
    (from..past.len())
        .filter(|step| is_entry(past, thread, *step))
        .count()
}

// An entry's rank: its place among the thread's entries, from 1. A step that is none has the rank that the thread's next entry would have.
pub(crate) fn rank(past: &[Step], thread: u64, entry: usize) -> usize {
    entries_from(before(past, entry), thread, 0).saturating_add(1)
}

// The thread's last entry.
pub(crate) fn last_entry(past: &[Step], thread: u64) -> Option<usize> {
    (0..past.len())
        .rev()
        .find(|step| is_entry(past, thread, *step))
}

// The step at this place is an entry of the thread that begins a region: it is the thread's first or an ACQUIRE, or it follows a RELEASE
// entry.
fn begins_region(past: &[Step], thread: u64, step: usize) -> bool {
    if !is_entry(past, thread, step) {
        return false;
    }
    let Some(earlier) = last_entry(before(past, step), thread) else {
        return true;
    };
    is_kind(past, step, Kind::Acquire) || is_kind(past, earlier, Kind::LogRel)
}

// The first entry of the thread's region that has so many regions before it.
fn region(past: &[Step], thread: u64, earlier: usize) -> Option<usize> {
    (0..past.len())
        .filter(|step| begins_region(past, thread, *step))
        .nth(earlier)
}

// How many of the thread's regions are pruned: each PRUNE moved the head past one.
fn pruned(past: &[Step], thread: u64) -> usize {
    past.iter()
        .filter(|step| step.kind == Kind::Prune && step.thread == thread)
        .count()
}

// The first entry of the thread's oldest region not yet pruned. Live entries are those from here on.
pub(crate) fn head(past: &[Step], thread: u64) -> Option<usize> {
    region(past, thread, pruned(past, thread))
}

// The first entry of the region after the thread's oldest one not yet pruned.
pub(crate) fn after_head(past: &[Step], thread: u64) -> Option<usize> {
    region(past, thread, pruned(past, thread).saturating_add(1))
}

// An entry is firm where its thread took a FLUSHLOG after it and a FENCE after that. Then all entries made before it are firm too.
pub(crate) fn is_firm(past: &[Step], thread: u64, entry: usize) -> bool {
    let Some(fenced) = last_of(past, Kind::Fence, thread) else {
        return false;
    };
    is_marked(before(past, fenced), thread, entry)
}

// An entry is marked where its thread took a FLUSHLOG after it.
fn is_marked(past: &[Step], thread: u64, entry: usize) -> bool {
    is_after(last_of(past, Kind::FlushLog, thread), entry)
}

// How many of the thread's entries are marked and not yet firm.
pub(crate) fn unfenced(past: &[Step], thread: u64) -> usize {
    (0..past.len())
        .filter(|step| {
            is_entry(past, thread, *step)
                && is_marked(past, thread, *step)
                && !is_firm(past, thread, *step)
        })
        .count()
}

// The thread's RELEASE entry while it is closing.
pub(crate) fn closing(past: &[Step], thread: u64) -> Option<usize> {
    unless_ended(
        last_of(past, Kind::LogRel, thread),
        last_of(past, Kind::Release, thread),
    )
}

// The cell's entry in the thread's current region, which began with the last ACQUIRE or after the last RELEASE entry.
pub(crate) fn logged(past: &[Step], thread: u64, cell: u64) -> Option<usize> {
    let entry = (0..past.len())
        .rev()
        .find(|step| is_first_log_of(past, thread, cell, *step))?;
    if is_after(last_of(past, Kind::Acquire, thread), entry) {
        return None;
    }
    if is_after(last_of(past, Kind::LogRel, thread), entry) {
        return None;
    }
    Some(entry)
}

// The step made the RELEASE entry of the lock in which a region ends that is pruned.
fn is_pruned_release(past: &[Step], lock: u64, step: usize) -> bool {
    let Some(release) = past.get(step) else {
        return false;
    };
    if release.kind != Kind::LogRel || release.place != lock {
        return false;
    }
    let Some(head) = head(past, release.thread) else {
        return true;
    };
    step < head
}

// How many of the regions that end in a RELEASE of the lock are pruned, in all logs.
pub(crate) fn pruned_releases(past: &[Step], lock: u64) -> usize {
    (0..past.len())
        .filter(|step| is_pruned_release(past, lock, *step))
        .count()
}

// In a part of the history, the thread logged a cell that is not firm after all of it.
pub(crate) fn logged_unfirm(past: &[Step], thread: u64, part: &[Step]) -> bool {
    part.iter().any(|step| {
        step.kind == Kind::Log && step.thread == thread && !model_cells::is_firm(past, step.place)
    })
}

// The last entry that was put into the slot, which is rank mod 64; none where the slot is untouched.
pub(crate) fn in_slot(past: &[Step], thread: u64, slot: u64) -> Option<usize>
    ensures { MatchOption result ⊤ (λ entry. entry < length past.now) }
{
    let made = entries_from(past, thread, 0);
    let since = (made % 64 + 64 - (slot % 64) as usize) % 64;
    let earlier = made.checked_sub(since + 1)?;
    (0..past.len())
        .filter(|step| is_entry(past, thread, *step))
        .nth(earlier)
}

// A word of an entry, in their order in the slot: an EVICTWORDS keeps the first ones.
#[derive(Clone, Copy)]
pub(crate) enum Word {
    Kind = 0,
    Place = 1,
    Value = 2,
    Rank = 3,
}

// The step is an eviction that keeps the word of the thread's slot: an EVICTLOG keeps all four, and an EVICTWORDS the first ones, as many
// as its value says.
fn keeps(step: Step, thread: u64, slot: u64, word: Word) -> bool {
    step.thread == thread
        && step.place == slot
        && (step.kind == Kind::EvictLog
            || step.kind == Kind::EvictWords && (word as u64) < step.value)
}

// The entry whose word is kept in the slot: the last one that is firm or that an eviction of this word found there.
pub(crate) fn kept_in_slot(past: &[Step], thread: u64, slot: u64, word: Word) -> Option<usize> {
    let mut until = past;
    while let Some(entry) = in_slot(until, thread, slot) {
        let evicted = until
            .iter()
            .rposition(|step| keeps(*step, thread, slot, word));
        if is_firm(past, thread, entry) || is_after(evicted, entry) {
            return Some(entry);
        }
        until = &until[..entry];
    }
    None
}

// The slot of an EVICTWORDS is torn: it keeps an entry's kind and not its rank. The rank is then that of an older entry, or 0.
fn is_torn(past: &[Step], eviction: Step, is_over_entry: bool) -> bool {
    let ranked = kept_in_slot(past, eviction.thread, eviction.place, Word::Rank);
    ranked != kept_in_slot(past, eviction.thread, eviction.place, Word::Kind)
        && ranked.is_some() == is_over_entry
}

// Some slot is torn, over an older entry or over zeros. Only an EVICTWORDS leaves a slot so.
pub(crate) fn has_torn(past: &[Step], is_over_entry: bool) -> bool {
    past.iter().any(|step| step.kind == Kind::EvictWords && is_torn(past, *step, is_over_entry))
}
