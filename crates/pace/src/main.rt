// Takes 100,800 steps of all thirteen kinds, all accepted, so that a step can be timed: 100 runs of 63 rounds of 16 steps, by the four
// threads in turn. Prints the number of steps and the sum of the runs' last answers: each run ends in a PRUNE that frees 3 entries.
#![tactic(auto)]

use kinds::Kind;
use sizes::CELLS;
use std::{array, io};

// The steps of a round.
const ROUND: usize = 16;

// The steps of a run.
const STEPS: usize = 1008;

// The runs.
const RUNS: u64 = 100;

// A round's steps: their kinds and places, lock 2, cells 5 and 24, line 0. The slot of EVICTLOG and EVICTWORDS depends on the round.
const STEPS_OF_A_ROUND: [(Kind, u64); ROUND] = [
    (Kind::Acquire, 2),
    (Kind::Log, 5),
    (Kind::FlushLog, 0),
    (Kind::Fence, 0),
    (Kind::Store, 5),
    (Kind::Load, 5),
    (Kind::LogRel, 2),
    (Kind::FlushLog, 0),
    (Kind::Flush, 0),
    (Kind::Fence, 0),
    (Kind::Release, 2),
    (Kind::EvictCell, 24),
    (Kind::EvictLog, 0),
    (Kind::EvictCell, 5),
    (Kind::EvictWords, 0),
    (Kind::Prune, 0),
];

// The thread of a round's step: EVICTCELL has none. `corners` asks the same of its model's kinds, which are other ones.
fn thread_of(kind: Kind, round: u64) -> u64 {
    match kind {
        Kind::EvictCell => 0,
        _ => round % 4,
    }
}

// The place of a round's step. A thread makes three entries in every fourth round, the second by its LOG, which EVICTLOG and EVICTWORDS
// name by its slot.
fn place_of(kind: Kind, place: u64, round: u64) -> u64 {
    match kind {
        Kind::EvictLog | Kind::EvictWords => (round / 4 % 64 * 3 + 2) % 64,
        _ => place,
    }
}

// The value of a round's step: only STORE and EVICTWORDS have one.
fn value_of(kind: Kind) -> u64 {
    match kind {
        Kind::Store => 7,
        Kind::EvictWords => 2,
        _ => 0,
    }
}

// A step of a run, after so many.
fn step_at(taken: usize) -> [u64; 4] {
    let round = (taken / ROUND) as u64;
    let (kind, place) = STEPS_OF_A_ROUND[taken % ROUND];
    [
        kind as u64,
        thread_of(kind, round),
        place_of(kind, place, round),
        value_of(kind),
    ]
}

// The number that the last step of a run gives, and 0 where it is refused.
fn last_given(start: &[u64], steps: &[u64]) -> u64 {
    replay::run(start, steps).answer.unwrap_or(0)
}

fn main(rt: HostRuntime) -> io::Result<()> {
    let start = [0u64; CELLS];
    let steps: [[u64; 4]; STEPS] = array::from_fn(step_at);
    let mut sum = 0u64;
    for _ in 0..RUNS {
        sum = sum.saturating_add(last_given(&start, steps.as_flattened())) % 1000;
    }
    println!(rt; "{} {sum}", RUNS * STEPS as u64)
}
