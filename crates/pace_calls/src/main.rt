// Logs 100,800 cells, 16 in a call, so that a cell of a call can be timed: 6,300 calls by the four threads in turn, each on the fresh
// machine, so that every cell makes an entry. Prints how many cells were accepted.
#![tactic(auto)]

use batch::log_cells;
use machine::Machine;
use sizes::CELLS;
use std::io;

// How many calls there are.
const CALLS: u64 = 6300;

// The cells of a call, each in a line of its own.
const LOGGED: [u64; 16] = [
    0, 8, 16, 24, 32, 40, 48, 56, 64, 72, 80, 88, 96, 104, 112, 120,
];

// How many cells so many calls accept.
fn logged(calls: u64) -> u64 {
    let started = Machine::start(&[0; CELLS]);
    let mut sum = 0u64;
    for done in 0..calls {
        sum = sum.saturating_add(log_cells(started.machine, done % 4, &LOGGED).count);
    }
    sum
}

fn main(rt: HostRuntime) -> io::Result<()> {
    println!(rt; "{}", logged(CALLS))
}
