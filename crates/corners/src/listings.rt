// Listings that are generated from a number.
ghost use Rattle.std.specs.Prelude.{◌<◌, length};

use crate::model::Asked;
use crate::model::history::Kind;

// The steps of a generated listing.
pub(crate) const STEPS: usize = 200;

// The longest list of cells that a call is tried with: two more than it may have.
pub(crate) const LISTED: usize = 18;

// The largest number that a field can be given.
pub(crate) const LARGE: u64 = 18446744073709551615;

// A stage of a thread's regions: a step of the region's own cell, line or lock, or of the next one.
#[derive(Clone, Copy)]
enum Stage {
    Own(Kind),
    Next(Kind),
}

// The steps of a thread's two or three regions, after which it goes on with other places. Among them are an EVICTWORDS before the entries
// are firm, and an EVICTCELL before the cell is.
type Stages = [Stage; 26];

// A region's steps from its ACQUIRE to its PRUNE, and then another's.
const PLAIN: Stages = [
    Stage::Own(Kind::Acquire),
    Stage::Own(Kind::Log),
    Stage::Own(Kind::EvictWords),
    Stage::Own(Kind::FlushLog),
    Stage::Own(Kind::Fence),
    Stage::Own(Kind::Store),
    Stage::Own(Kind::EvictCell),
    Stage::Own(Kind::LogRel),
    Stage::Own(Kind::FlushLog),
    Stage::Own(Kind::Fence),
    Stage::Own(Kind::Release),
    Stage::Own(Kind::Flush),
    Stage::Own(Kind::Fence),
    Stage::Own(Kind::Prune),
    Stage::Next(Kind::Acquire),
    Stage::Next(Kind::Log),
    Stage::Own(Kind::FlushLog),
    Stage::Own(Kind::Fence),
    Stage::Next(Kind::Store),
    Stage::Next(Kind::LogRel),
    Stage::Own(Kind::FlushLog),
    Stage::Own(Kind::Fence),
    Stage::Next(Kind::Release),
    Stage::Next(Kind::Flush),
    Stage::Own(Kind::Fence),
    Stage::Own(Kind::Prune),
];

// Two regions with PRUNEs before the first is finished, and before its cell is firm; the second one stores nothing.
const HASTY: Stages = [
    Stage::Own(Kind::Acquire),
    Stage::Own(Kind::Log),
    Stage::Own(Kind::EvictWords),
    Stage::Own(Kind::FlushLog),
    Stage::Own(Kind::Fence),
    Stage::Own(Kind::Store),
    Stage::Own(Kind::EvictCell),
    Stage::Own(Kind::LogRel),
    Stage::Own(Kind::Prune),
    Stage::Own(Kind::FlushLog),
    Stage::Own(Kind::Fence),
    Stage::Own(Kind::Release),
    Stage::Own(Kind::Prune),
    Stage::Own(Kind::Flush),
    Stage::Own(Kind::Fence),
    Stage::Own(Kind::Prune),
    Stage::Next(Kind::Acquire),
    Stage::Next(Kind::Log),
    Stage::Next(Kind::LogRel),
    Stage::Next(Kind::Log),
    Stage::Own(Kind::FlushLog),
    Stage::Own(Kind::Fence),
    Stage::Next(Kind::Release),
    Stage::Own(Kind::Prune),
    Stage::Own(Kind::Load),
    Stage::Next(Kind::Load),
];

// A region that the next ACQUIRE ends, with a PRUNE before it is firm; one under both locks; and one of a RELEASE alone.
const NESTED: Stages = [
    Stage::Own(Kind::Acquire),
    Stage::Own(Kind::Log),
    Stage::Own(Kind::EvictWords),
    Stage::Next(Kind::Acquire),
    Stage::Own(Kind::Prune),
    Stage::Own(Kind::FlushLog),
    Stage::Own(Kind::Fence),
    Stage::Next(Kind::Log),
    Stage::Own(Kind::FlushLog),
    Stage::Own(Kind::Fence),
    Stage::Next(Kind::Store),
    Stage::Next(Kind::EvictCell),
    Stage::Next(Kind::LogRel),
    Stage::Own(Kind::FlushLog),
    Stage::Own(Kind::Fence),
    Stage::Next(Kind::Release),
    Stage::Own(Kind::LogRel),
    Stage::Own(Kind::FlushLog),
    Stage::Own(Kind::Fence),
    Stage::Own(Kind::Release),
    Stage::Next(Kind::Flush),
    Stage::Own(Kind::Fence),
    Stage::Own(Kind::Prune),
    Stage::Own(Kind::Prune),
    Stage::Own(Kind::Prune),
    Stage::Own(Kind::Load),
];

// The kinds of steps that are drawn, some more often than others.
const KINDS: [Kind; 17] = [
    Kind::Load,
    Kind::Log,
    Kind::Log,
    Kind::EvictLog,
    Kind::Store,
    Kind::Store,
    Kind::EvictLog,
    Kind::Acquire,
    Kind::LogRel,
    Kind::Release,
    Kind::Flush,
    Kind::FlushLog,
    Kind::Fence,
    Kind::Prune,
    Kind::EvictCell,
    Kind::EvictCell,
    Kind::EvictWords,
];

// Those of a thread with a full log: that make an entry or free some, and evictions.
const CROWDED: [Kind; 16] = [
    Kind::Log,
    Kind::Log,
    Kind::Log,
    Kind::Acquire,
    Kind::LogRel,
    Kind::Release,
    Kind::FlushLog,
    Kind::Fence,
    Kind::Prune,
    Kind::Log,
    Kind::Store,
    Kind::Prune,
    Kind::EvictWords,
    Kind::EvictLog,
    Kind::EvictWords,
    Kind::EvictWords,
];

// How many words an EVICTWORDS keeps, now and then none or one too many.
const WORDS: [u64; 10] = [0, 1, 2, 3, 4, 5, 1, 2, 3, 4];

// The last number that a step can have as place, by the number of its kind.
const LAST_PLACES: [u64; 15] = [0, 127, 127, 127, 7, 7, 7, 15, 0, 0, 0, 0, 63, 127, 63];

// The next of a row of numbers that look random.
pub(crate) fn next(seed: u64) -> u64 {
    seed % 2147483647 * 48271 % 2147483647
}

// One of the list, drawn by chance.
pub(crate) fn pick<T: Copy>(list: &[T], chance: u64) -> T
    requires { 0 < length list.now }
{
    list[chance as usize % list.len()]
}

// A place for a kind: one of four cells in two lines, of two locks, of two lines or of eight slots, which are enough for most logs.
fn place_of(kind: Kind, chance: u64) -> u64 {
    match kind {
        Kind::Load | Kind::Log | Kind::Store | Kind::EvictCell => chance % 2 * 8 + chance / 2 % 2,
        Kind::Acquire | Kind::LogRel | Kind::Release | Kind::Flush => chance % 2,
        Kind::EvictLog | Kind::EvictWords => chance % 8,
        Kind::FlushLog | Kind::Fence | Kind::Prune => 0,
    }
}

// A value for a kind: what a STORE sets, or how many words an EVICTWORDS keeps.
fn value_of(kind: Kind, chance: u64) -> u64 {
    match kind {
        Kind::EvictWords => pick(&WORDS, chance),
        Kind::Store => chance % 1000,
        _ => 0,
    }
}

// A thread for a kind: an EVICTCELL has none. `pace` asks the same of the machine's kinds, which the model does not name.
fn thread_of(kind: Kind, chance: u64) -> u64 {
    match kind {
        Kind::EvictCell => 0,
        _ => chance % 4,
    }
}

// A step of the kind.
fn step_of(kind: Kind, chance: u64) -> Asked {
    let second = next(chance);
    let third = next(second);
    Asked {
        kind: kind as u64,
        thread: thread_of(kind, chance / 11),
        place: place_of(kind, second / 13),
        value: value_of(kind, third / 5),
    }
}

// A cell of a call that logs many: now and then one of the four that listings use most, or one at or past the last; else any other.
fn listed_cell(chance: u64) -> u64 {
    if chance % 64 == 0 {
        return edge(127, chance / 64);
    }
    if chance % 16 == 1 {
        return place_of(Kind::Log, chance / 16);
    }
    16 + chance / 16 % 112
}

// The thread of such a call, now and then one at or past the last.
pub(crate) fn calling_thread(chance: u64) -> u64 {
    if chance % 16 == 0 {
        return edge(3, chance / 16);
    }
    chance / 16 % 4
}

// The cells of a call that logs many, of which it may name fewer.
pub(crate) fn listed_cells(seed: u64) -> [u64; LISTED] {
    let mut cells = [0u64; LISTED];
    let mut chance = next(seed);
    for cell in cells.iter_mut() {
        *cell = listed_cell(chance);
        chance = next(chance);
    }
    cells
}

// A number at or past the end of a field's range: the last one in it, one and two past it, far past it, and such as would be in range with
// their high bits lost.
fn edge(last: u64, chance: u64) -> u64 {
    let end = last % 256;
    let numbers = [
        end,
        end + 1,
        end + 2,
        256,
        256 + end,
        4294967296,
        4294967296 + end,
        LARGE,
    ];
    pick(&numbers, chance)
}

// A kind that is none, but for 14, which is the last one.
fn edge_kind(chance: u64) -> u64 {
    if chance % 4 == 0 {
        return 0;
    }
    edge(14, chance / 4)
}

// The last number that a step can have as value, but for STORE, which can have any. By the kind's number, which can be that of no kind.
fn last_value(kind: u64) -> u64 {
    if kind == Kind::EvictWords as u64 {
        4
    } else {
        0
    }
}

// The step with one field at or past the end of its range, used or not.
fn spoiled(mut step: Asked, chance: u64) -> Asked {
    match chance / 3 % 4 {
        0 => step.kind = edge_kind(chance / 13),
        1 => step.thread = edge(3, chance / 13),
        2 => step.place = edge(pick(&LAST_PLACES, step.kind), chance / 13),
        _ => step.value = edge(last_value(step.kind), chance / 13),
    }
    step
}

// A step of any number from 1 to 14, each as often as the others; 11 is no kind's.
fn even_step(chance: u64) -> Asked {
    let number = chance / 7 % 14 + 1;
    match Kind::try_from(number) {
        Ok(kind) => step_of(kind, chance),
        Err(_) => Asked {
            kind: number,
            thread: chance / 11 % 4,
            place: 0,
            value: 0,
        },
    }
}

// A step of any kind with one field or two at or past the end of their range.
fn spoiled_step(chance: u64) -> Asked {
    let second = next(chance);
    let step = spoiled(even_step(chance), second);
    if chance / 5 % 3 == 0 {
        return spoiled(step, next(second));
    }
    step
}

// The stages of a listing's regions.
fn stages_of(listing: u64) -> Stages {
    match listing / 3 % 3 {
        0 => PLAIN,
        1 => HASTY,
        _ => NESTED,
    }
}

// A thread's next step of its regions, after so many. Each region has the next cell of four, with its line, and the next lock of two. A
// slot is drawn, since it depends on the answers which slots the region's entries have.
fn region_step(listing: u64, thread: u64, taken: u64, chance: u64) -> Asked {
    let stages = stages_of(listing);
    let round = thread % 4 + taken / 26 * 2;
    let (kind, region) = match pick(&stages, taken) {
        Stage::Own(kind) => (kind, round),
        Stage::Next(kind) => (kind, round + 1),
    };
    let place = match kind {
        Kind::EvictWords => chance / 13,
        _ => region % 4,
    };
    Asked {
        kind: kind as u64,
        thread: thread_of(kind, thread),
        place: place_of(kind, place),
        value: value_of(kind, chance),
    }
}

// The thread whose turn it is in a generated listing: each takes 13 steps, three steps or one step in a row, by the listing's number.
fn thread_at(listing: u64, turns: u64) -> u64 {
    match listing % 3 {
        0 => turns / 13 % 4,
        1 => turns / 3 % 4,
        _ => turns % 4,
    }
}

// How many turns the thread whose turn it is had before.
fn taken_at(listing: u64, turns: u64) -> u64 {
    match listing % 3 {
        0 => turns / 52 * 13 + turns % 13,
        1 => turns / 12 * 3 + turns % 3,
        _ => turns / 4,
    }
}

// A step of a thread with a full log, of a few cells or slots or of any; nearly all slots have a live entry.
fn crowded_step(thread: u64, chance: u64) -> Asked {
    let kind = pick(&CROWDED, chance / 7);
    let second = next(chance);
    let is_any = second / 3 % 4 == 0;
    let place = match kind {
        Kind::Log | Kind::Store if is_any => second / 17 % 128,
        Kind::EvictLog | Kind::EvictWords if is_any => second / 17 % 64,
        _ => place_of(kind, second / 13),
    };
    Asked {
        kind: kind as u64,
        thread: thread % 4,
        place,
        value: value_of(kind, second / 5),
    }
}

// The next step of a listing in which one thread fills its log: a region that it does not prune, an ACQUIRE and LOGs of one cell after the
// other.
fn filling_step(listing: u64, turns: u64, chance: u64) -> Asked {
    let thread = listing / 8 % 4;
    match turns {
        0..=12 => region_step(0, thread, turns, chance),
        13 => region_step(0, thread, 14, chance),
        14..=79 => Asked {
            kind: Kind::Log as u64,
            thread,
            place: turns,
            value: 0,
        },
        _ => crowded_step(thread, chance),
    }
}

// A listing has a step of its own now and then, that of no thread's turn: of any kind, and in some listings with fields out of range.
fn is_extra(listing: u64, chance: u64) -> bool {
    if listing % 4 == 3 {
        return chance / 3 % 3 == 0;
    }
    chance / 5 % 8 == 0
}

// A step of a listing that is no thread's turn: of any kind, and in some listings with fields out of range.
fn extra_step(listing: u64, chance: u64) -> Asked {
    if listing % 4 == 3 && chance / 9 % 4 != 0 {
        return spoiled_step(chance);
    }
    step_of(pick(&KINDS, chance / 7), chance)
}

// The step of the thread whose turn it is, after so many turns: of the thread that fills its log, in some listings, or of regions.
fn turn_step(listing: u64, turns: u64, chance: u64) -> Asked {
    if listing % 8 == 5 {
        return filling_step(listing, turns, chance);
    }
    let thread = thread_at(listing, turns);
    region_step(listing, thread, taken_at(listing, turns), chance)
}

// A listing that is generated from a number.
pub(crate) fn generated(listing: u64) -> [Asked; STEPS] {
    let mut steps = [Asked::NONE; STEPS];
    let mut chance = next(listing % 1000000 + 1);
    let mut turns = 0u64;
    for step in steps.iter_mut() {
        chance = next(chance);
        if is_extra(listing, chance) {
            *step = extra_step(listing, chance);
        } else {
            *step = turn_step(listing, turns, chance);
            turns = turns.saturating_add(1);
        }
    }
    steps
}
