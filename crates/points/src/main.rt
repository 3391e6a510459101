// Runs document 01's corner points P1 to P11 on the code, each under that document's words, and says whether it gives what they ask; and
// prints the slot after each slot.
#![tactic(auto)]

mod images;

use images::{EntryKind, Image};
use kinds::Kind;
use sizes::{CELLS, SLOTS};
use std::{array, io};

// What no cell holds: a buffer for recovered cells is lent full of it.
const LENT: u64 = 99;

// The words of a step.
const STEP_WORDS: usize = 4;

// Room for the words of 26 steps. No point has more.
const ROOM: usize = 104;

// A list of steps: their words one after another, and how many words these are. There is no heap, so they stand in a buffer of fixed size.
#[derive(Clone, Copy)]
struct Steps {
    words: [u64; ROOM],
    used: usize,
}

impl Steps {
    // No steps.
    const NONE: Steps = Steps {
        words: [0; ROOM],
        used: 0,
    };

    // The list with a step more, where there is room for it.
    fn then(self, kind: Kind, thread: u64, place: u64, value: u64) -> Steps {
        let used = self.used;
        if used > ROOM - STEP_WORDS {
            return self;
        }
        let mut words = self.words;
        words[used..used + STEP_WORDS].copy_from_slice(&[kind as u64, thread, place, value]);
        Steps {
            words,
            used: used + STEP_WORDS,
        }
    }

    // The list with the eight steps more that evict a line, the lowest cell first, where there is room for them.
    fn evict(mut self, line: u64) -> Steps {
        let first = line % 16 * 8;
        for cell in first..first + 8 {
            self = self.then(Kind::EvictCell, 0, cell, 0);
        }
        self
    }

    // The words of the steps.
    fn words(&self) -> &[u64] {
        self.words.get(..self.used).unwrap_or(&self.words)
    }
}

// The start cells of every point: they all differ, and from 0. "Cell 9 is 3", as P7 to P9 want it, and each other cell c holds c + 100.
fn start_cells() -> [u64; CELLS] {
    let mut cells = array::from_fn(|cell| (cell as u64).saturating_add(100));
    cells[9] = 3;
    cells
}

// The last step is answered so: with the number that it gives, or refused by document 01's number, as the points say it.
fn answers(steps: Steps, wanted: Result<u64, u64>) -> bool {
    let stepped = replay::run(&start_cells(), steps.words());
    stepped.answer.map_err(|refusal| u64::from(refusal)) == wanted
}

// A cut after the steps has one word for the cell in its image, and recovers another for it: every other cell is its start cell.
fn cut(steps: Steps, cell: usize, imaged: u64, recovered: u64) -> bool {
    let start = start_cells();
    let mut wanted = start;
    if let Some(content) = wanted.get_mut(cell) {
        *content = recovered;
    }
    let mut image = [0; reader::IMAGE_WORDS];
    let mut cells = [LENT; CELLS];
    let answer = replay::replay(&start, steps.words(), &mut image, &mut cells);
    answer.is_ok() && image.get(cell) == Some(&imaged) && cells == wanted
}

// Recovery refuses the image by document 01's number, as the points say it, and leaves the lent buffer as it was.
fn refuses(image: &[u64], number: u64) -> bool {
    let mut cells = [LENT; CELLS];
    let answer = recovery::recover(image, &mut cells);
    answer.map_err(|refusal| u64::from(refusal)) == Err(number) && cells == [LENT; CELLS]
}

// P1 "cut at the start: start cells"
fn point_1() -> bool {
    cut(Steps::NONE, 5, 105, 105)
}

// P2 "STORE, no LOG: 10"
fn point_2() -> bool {
    let steps = Steps::NONE.then(Kind::Store, 0, 5, 7);
    answers(steps, Err(10))
}

// P3 "LOG, STORE: 11"
fn point_3() -> bool {
    let steps = Steps::NONE
        .then(Kind::Log, 0, 5, 0)
        .then(Kind::Store, 0, 5, 7);
    answers(steps, Err(11))
}

// "LOG cell 5, FLUSHLOG, FENCE"
fn logged_5() -> Steps {
    Steps::NONE
        .then(Kind::Log, 0, 5, 0)
        .then(Kind::FlushLog, 0, 0, 0)
        .then(Kind::Fence, 0, 0, 0)
}

// P4 "LOG cell 5, FLUSHLOG, FENCE, STORE 7 to it, EVICT line 0, cut: recovers the old content", with document 02's eight steps for the
// EVICT; the image has the new content
fn point_4() -> bool {
    let steps = logged_5().then(Kind::Store, 0, 5, 7).evict(0);
    cut(steps, 5, 7, 105)
}

// P5 "as P4 but FLUSH line 0 just before the STORE and FENCE instead of EVICT: the image has the old content"
fn point_5() -> bool {
    let steps = logged_5()
        .then(Kind::Flush, 0, 0, 0)
        .then(Kind::Store, 0, 5, 7)
        .then(Kind::Fence, 0, 0, 0);
    cut(steps, 5, 105, 105)
}

// P6 "threads 0 and 1 LOG cell 9, no lock: 8"
fn point_6() -> bool {
    let steps = Steps::NONE
        .then(Kind::Log, 0, 9, 0)
        .then(Kind::Log, 1, 9, 0);
    answers(steps, Err(8))
}

// The steps, and then the thread writes cell 9 under lock 0. Each entry is flushed and fenced before the STORE or RELEASE that needs it.
fn makes(steps: Steps, thread: u64, value: u64) -> Steps {
    let logged = steps
        .then(Kind::Acquire, thread, 0, 0)
        .then(Kind::Log, thread, 9, 0);
    let stored = logged
        .then(Kind::FlushLog, thread, 0, 0)
        .then(Kind::Fence, thread, 0, 0)
        .then(Kind::Store, thread, 9, value);
    let closing = stored
        .then(Kind::LogRel, thread, 0, 0)
        .then(Kind::FlushLog, thread, 0, 0)
        .then(Kind::Fence, thread, 0, 0);
    closing.then(Kind::Release, thread, 0, 0)
}

// "cell 9 is 3; thread 0 makes it 4, then thread 1 makes it 5, each under lock 0, released"
fn both() -> Steps {
    makes(makes(Steps::NONE, 0, 4), 1, 5)
}

// P7 "PRUNE 1 first: 16"
fn point_7() -> bool {
    let steps = both().then(Kind::Prune, 1, 0, 0);
    answers(steps, Err(16))
}

// P8 "none pruned, line evicted: recovers 3", by the eight steps; the image has 5
fn point_8() -> bool {
    let steps = both().evict(1);
    cut(steps, 9, 5, 3)
}

// P9 "lines flushed and fenced, thread 0 pruned: 4"; the PRUNE frees three entries, and the image has 5
fn point_9() -> bool {
    let flushed = both().then(Kind::Flush, 0, 1, 0).then(Kind::Fence, 0, 0, 0);
    let steps = flushed.then(Kind::Prune, 0, 0, 0);
    answers(steps, Ok(3)) && cut(steps, 9, 5, 4)
}

// P10 "thread 0's log: ACQUIRE lock 0 count 1, RELEASE lock 1 count 0; thread 1's: ACQUIRE lock 1 count 1, RELEASE lock 0 count 0: 24"
fn point_10() -> bool {
    let half = Image::empty()
        .with_entry(0, EntryKind::Acquire, 0, 1, 1)
        .with_entry(0, EntryKind::Release, 1, 0, 2);
    let whole = half
        .with_entry(1, EntryKind::Acquire, 1, 1, 1)
        .with_entry(1, EntryKind::Release, 0, 0, 2);
    refuses(&whole.words, 24)
}

// P11 "image of 1,155 words: 21"
fn point_11() -> bool {
    refuses(&[0; 1155], 21)
}

// Says whether a point agrees.
fn report<P: Print>(rt: &P, point: &str, agrees: bool) -> io::Result<()> {
    let verdict = if agrees { "agrees" } else { "DIFFERS" };
    println!(rt; "{point} {verdict}")
}

// Document 02 "for each slot 0 to 63 the slot of the rank after, so 0 after 63", in a line.
fn print_slots_after<P: Print>(rt: &P) -> io::Result<()> {
    print!(rt; "slots after 0 to 63:")?;
    for slot in 0..SLOTS as u8 {
        print!(rt; " {}", ring::next_slot(slot))?;
    }
    println!(rt;)
}

// Runs the points in document 01's order, and then the slots.
fn main(rt: HostRuntime) -> io::Result<()> {
    let points = [
        ("P1", point_1()),
        ("P2", point_2()),
        ("P3", point_3()),
        ("P4", point_4()),
        ("P5", point_5()),
        ("P6", point_6()),
        ("P7", point_7()),
        ("P8", point_8()),
        ("P9", point_9()),
        ("P10", point_10()),
        ("P11", point_11()),
    ];
    for (point, agrees) in points {
        report(&rt, point, agrees)?;
    }
    print_slots_after(&rt)
}
