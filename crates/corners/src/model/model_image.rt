// The image of a cut, word by word: 128 kept cells, 4 heads, and each thread's 64 slots of four words.
use crate::model::history::Kind;
use crate::model::logs::Word;
use crate::model::recovering::EntryKind;
use crate::model::{Run, logs, model_cells};

// The kind that an entry's words say.
fn entry_kind(kind: Kind) -> EntryKind {
    match kind {
        Kind::Log => EntryKind::Store,
        Kind::Acquire => EntryKind::Acquire,
        _ => EntryKind::Release,
    }
}

// The value that an entry's words say: what was seen in the cell when it was logged, or the lock's count then.
fn entry_value(before: Run, kind: Kind, place: u64) -> u64 {
    match kind {
        Kind::Log => model_cells::seen(before, place),
        _ => model_cells::lock_count(before.past, place) as u64,
    }
}

// A word that a slot keeps, and the others may be words of other entries; an untouched slot holds zeros.
fn slot_word(run: Run, thread: u64, slot: u64, word: Word) -> u64 {
    let Some(entry) = logs::kept_in_slot(run.past, thread, slot, word) else {
        return 0;
    };
    let past = run.past;
    let Some(step) = past.get(entry) else {
        return 0;
    };
    match word {
        Word::Kind => entry_kind(step.kind) as u64,
        Word::Place => step.place,
        Word::Value => entry_value(run.before(entry), step.kind, step.place),
        Word::Rank => logs::rank(run.past, thread, entry) as u64,
    }
}

// The rank of a thread's head, which is that of its next entry where no live one is there.
fn head_rank(run: Run, thread: u64) -> u64 {
    let past = run.past;
    let head = logs::head(past, thread).unwrap_or(past.len());
    logs::rank(past, thread, head) as u64
}

// One of an image's 1,156 words.
fn image_word(run: Run, index: u64) -> u64 {
    if index < 128 {
        return model_cells::kept(run, index);
    }
    if index < 132 {
        return head_rank(run, index - 128);
    }
    let at = index - 132;
    let word = match at % 4 {
        0 => Word::Kind,
        1 => Word::Place,
        2 => Word::Value,
        _ => Word::Rank,
    };
    slot_word(run, at / 256, at % 256 / 4, word)
}

// The image of a cut after the history.
pub(crate) fn image(run: Run) -> [u64; 1156] {
    let mut image = [0u64; 1156];
    for (index, into) in image.iter_mut().enumerate() {
        *into = image_word(run, index as u64);
    }
    image
}
