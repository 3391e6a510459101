// Runs listings on the machine and on the model, with cuts, and says whether the two agree: the corner point that is not marked P, and
// generated listings; logs many cells in one call on the machine, and one by one on the model; recovers the cuts' images on both, as they
// are and damaged; marks claimed undo orders of these images by the checker and by the model; and prints how often each answer was met.
#![tactic(auto)]

mod alike;
mod calls;
mod damage;
mod listings;
mod model;
mod tally;
mod undo_orders;

use alike::run_alike;
use listings::generated;
use model::Asked;
use model::history::Kind;
use std::{array, io};
use tally::Tally;

// The generated listings.
const LISTINGS: u64 = 200;

// The steps of a region of 3 entries that is released.
const RELEASED: [Kind; 6] = [
    Kind::Acquire,
    Kind::Log,
    Kind::LogRel,
    Kind::FlushLog,
    Kind::Fence,
    Kind::Release,
];

// "A released region of 3 entries and 61 LOGs: the next is 5. PRUNE, then three are accepted and the fourth is 5." The number of the last
// of the first so many steps.
const FULL_LOG_ANSWERS: [(usize, u64); 5] = [(67, 0), (68, 5), (69, 0), (72, 0), (73, 5)];

// A step of the corner point: a region of 3 entries that is released, and LOGs, with a PRUNE among them.
fn full_log_step(done: usize) -> [u64; 4] {
    match RELEASED.get(done) {
        Some(kind) => [*kind as u64, 0, 0, 0],
        None if done == 68 => [Kind::Prune as u64, 0, 0, 0],
        None => [Kind::Log as u64, 0, done as u64, 0],
    }
}

// The last of the steps is answered with this number: document 01's, as its corner point says it.
fn answers(steps: &[[u64; 4]], number: u64) -> bool {
    let stepped = replay::run(&[0u64; 128], steps.as_flattened());
    answer::number(stepped.answer) == number
}

// The corner point has document 01's answers, on the machine and on the model.
fn full_log_agrees() -> bool {
    let steps: [[u64; 4]; 73] = array::from_fn(full_log_step);
    for (count, number) in FULL_LOG_ANSWERS {
        if !answers(steps.get(..count).unwrap_or(&[]), number) {
            return false;
        }
    }
    let mut met = Tally::NONE;
    run_alike(&steps.map(Asked::from), 1, &mut met)
}

// How many of the generated listings the machine and the model take alike.
fn listings_alike(met: &mut Tally) -> u64 {
    let mut alike = 0u64;
    for listing in 0..LISTINGS {
        if run_alike(&generated(listing), listing + 1, met) {
            alike = alike.saturating_add(1);
        }
    }
    alike
}

fn main(rt: HostRuntime) -> io::Result<()> {
    let verdict = if full_log_agrees() {
        "agrees"
    } else {
        "DIFFERS"
    };
    println!(rt; "a released region of 3 entries and 61 LOGs: {verdict}")?;
    let mut met = Tally::NONE;
    let alike = listings_alike(&mut met);
    println!(rt;
        "listings of 200 steps, each with 41 cuts, on which machine and model agree, of 200: {alike}"
    )?;
    met.print(&rt)
}
