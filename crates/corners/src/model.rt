// A second writing of document 01, and of what document 02 changes in it, to be run beside the machine. It keeps document 01's own words
// (seen, kept, firm, mark, rank, closing), so that it reads against these pages alone, and names nothing of the machine. It keeps no state:
// every answer is worked out anew from the start cells and the history of accepted steps, with whole logs, no clock and no counter.
//
// `corners` compares answers, numbers given, whole images and recovered cells with the machine's, and answers to claimed undo orders with
// the checker's. Every function here is proved to be safe and to end; nothing else is promised of it.
pub(crate) mod drawing;
mod happening;
pub(crate) mod history;
mod logs;
pub(crate) mod marking;
mod model_cells;
mod model_image;
pub(crate) mod recovering;
mod steps;

use crate::model::history::{Kind, Step, before, is_after, last_of};
use crate::model::marking::Pair;
use crate::model::steps::refuse_if;

// Why a step, an image or a list is refused, by document 01's numbers.
#[derive(Clone, Copy, PartialEq, Eq)]
pub(crate) enum Refusal {
    NoKind = 1,
    NoThread = 2,
    NoPlace = 3,
    Misused = 4,
    Full = 5,
    RanksGiven = 6,
    Closing = 7,
    Races = 8,
    NotLogged = 10,
    NotFirm = 11,
    Held = 12,
    NotHolding = 13,
    NotClosing = 14,
    Unfinished = 15,
    TooEarly = 16,
    CellsNotFirm = 17,
    NoEntry = 18,
    NoWords = 19,
    WrongLength = 21,
    BadHead = 22,
    BadEntry = 23,
    Tangled = 24,
    TooMany = 25,
    NotPairs = 26,
}

// A step as it is asked for: any four words.
#[derive(Clone, Copy)]
pub(crate) struct Asked {
    pub(crate) kind: u64,
    pub(crate) thread: u64,
    pub(crate) place: u64,
    pub(crate) value: u64,
}

impl Asked {
    // Four zeros.
    pub(crate) const NONE: Asked = Asked {
        kind: 0,
        thread: 0,
        place: 0,
        value: 0,
    };
}

impl From<[u64; 4]> for Asked {
    fn from(words: [u64; 4]) -> Asked {
        let [kind, thread, place, value] = words;
        Asked {
            kind,
            thread,
            place,
            value,
        }
    }
}

// A machine's run so far: what its cells held at the start, and the history since then.
#[derive(Clone, Copy)]
pub(crate) struct Run<'a> {
    pub(crate) start: &'a [u64; 128],
    pub(crate) past: &'a [Step],
}

impl<'a> Run<'a> {
    // The run before one of its steps.
    fn before(self, step: usize) -> Run<'a> {
        Run {
            start: self.start,
            past: before(self.past, step),
        }
    }
}

// The step that is asked for, where its input does not refuse it.
pub(crate) fn read(asked: Asked) -> Result<Step, Refusal> {
    steps::read(asked)
}

// What a step is to answer after a run: the number that it gives, 0 where its kind gives none. Where it is accepted, the caller adds it to
// the history.
pub(crate) fn judge(run: Run, asked: Asked) -> Result<u64, Refusal> {
    let step = steps::read(asked)?;
    steps::ask(run.past, step)?;
    Ok(steps::given(run, step))
}

// After a history, the thread has 64 live entries.
pub(crate) fn has_full_log(past: &[Step], thread: u64) -> bool {
    steps::is_full(past, thread)
}

// After a history, the cell has an entry in the thread's current region.
pub(crate) fn has_entry(past: &[Step], thread: u64, cell: u64) -> bool {
    logs::logged(past, thread, cell).is_some()
}

// After a history, the cell has an entry in the thread's current region, since which the thread stored to it.
pub(crate) fn is_stored_since_entry(past: &[Step], thread: u64, cell: u64) -> bool {
    let Some(entry) = logs::logged(past, thread, cell) else {
        return false;
    };
    history::from(past, entry).iter().any(|step| step.kind == Kind::Store
        && step.thread == thread
        && step.place == cell)
}

// After a history, some line has the thread's mark.
pub(crate) fn has_marked_line(past: &[Step], thread: u64) -> bool {
    0 < model_cells::marked_lines(past, thread)
}

// After a history, some entry of the thread is marked and not yet firm.
pub(crate) fn has_unfenced_entry(past: &[Step], thread: u64) -> bool {
    0 < logs::unfenced(past, thread)
}

// After a run, the cell's kept content is not its seen one.
pub(crate) fn is_unkept(run: Run, cell: u64) -> bool {
    model_cells::kept(run, cell) != model_cells::seen(run, cell)
}

// After a history, some slot keeps a part of an entry alone: over words of an older entry, or over zeros.
pub(crate) fn has_torn_entry(past: &[Step], is_over_entry: bool) -> bool {
    logs::has_torn(past, is_over_entry)
}

// The image of a cut after a run.
pub(crate) fn image(run: Run) -> [u64; 1156] {
    model_image::image(run)
}

// The refusal of an image, 21, 22 or 23.
fn ask_image(image: &[u64]) -> Result<(), Refusal> {
    refuse_if(image.len() != 1156, Refusal::WrongLength)?;
    refuse_if(recovering::has_bad_head(image), Refusal::BadHead)?;
    refuse_if(recovering::has_bad_entry(image), Refusal::BadEntry)
}

// Recovers an image's cells. 21 where a buffer has a wrong length, else 22, 23 or 24; the buffer stays as it was where it is refused.
pub(crate) fn recover(image: &[u64], cells: &mut [u64]) -> Result<(), Refusal> {
    if cells.len() != 128 {
        return Err(Refusal::WrongLength);
    }
    ask_image(image)?;
    let mut found = recovering::kept_cells(image);
    refuse_if(recovering::is_tangled(image, &mut found), Refusal::Tangled)?;
    cells.copy_from_slice(&found);
    Ok(())
}

// Why a list is no undo order of an image: the image or the list is refused, or the order is wrong at a place of the list.
#[derive(Clone, Copy, PartialEq, Eq)]
pub(crate) enum Unlawful {
    Refused(Refusal),
    BadAt(usize),
}

// The refusal of a list of words as one of pairs, 26: "over 512 words or an odd number".
fn ask_list(list: &[u64]) -> Result<(), Refusal> {
    refuse_if(512 < list.len() || list.len() % 2 == 1, Refusal::NotPairs)
}

// The pairs of a list of words.
pub(crate) fn pairs_of(list: &[u64]) -> &[Pair] {
    list.as_chunks().0
}

// Marks a list of pairs, thread and rank, as an undo order of an image: 21 to 23 for the image, 26 for the list, and 27 with "the place,
// from 0, of its first bad pair, or the count of pairs where entries are missing".
pub(crate) fn mark(image: &[u64], list: &[u64]) -> Result<(), Unlawful> {
    ask_image(image).map_err(Unlawful::Refused)?;
    ask_list(list).map_err(Unlawful::Refused)?;
    match marking::first_bad(image, pairs_of(list)) {
        None => Ok(()),
        Some(place) => Err(Unlawful::BadAt(place)),
    }
}
