// The listing program's whole transcript, as bytes from bytes.
#![tactic(auto)]

ghost use Rattle.std.specs.Prelude.{◌≡◌, ◌+◌, ◌≤◌, length};
ghost use Rattle.buffer.specs.Pages.{Put};
ghost use Rattle.print.specs.Printed.{cells_text};
ghost use Rattle.listing.specs.Transcript.{start_machine, recovered_cells, transcript_in};

use answer::Refusal;
use buffer::Page;
use line::Line;
use machine::Machine;
use reader::IMAGE_WORDS;
use sizes::CELLS;

// The bytes that an input has at most: a longer one is unreadable.
pub const MOST_INPUT: usize = 65536;

// One byte more, so that a longer input shows.
pub const INPUT_ROOM: usize = MOST_INPUT + 1;

// The bytes that a lent buffer must have, so that every transcript fits.
pub const TRANSCRIPT_ROOM: usize = 163840;

// Writes each of the cells that isn't 0, where there is room for them.
fn write_cells(page: &mut Page, cells: &[u64])
    requires { page.old.place + length (cells_text 0 cells.now) ≤ length page.old.buffer.now }
    ensures { Put page.old page.new (cells_text 0 cells.now) }
{
    for (cell, &content) in cells.iter().enumerate() {
        if content != 0 {
            print::write_cell(page, cell as u64, content);
        }
    }
}

// Cuts the machine, recovers its image and writes the cells.
fn write_recovered(page: &mut Page, machine: Machine)
    requires { page.old.place + length (cells_text 0 (recovered_cells machine)) ≤ length page.old.buffer.now }
    ensures { Put page.old page.new (cells_text 0 (recovered_cells machine)) }
{
    let mut image = [0u64; IMAGE_WORDS];
    let mut cells = [0u64; CELLS];
    let _ = machine.cut(&mut image);
    let _ = recovery::recover(&image, &mut cells);
    write_cells(page, &cells);
}

// The machine with all cells 0.
fn start_machine() -> Machine
    ensures { result ≡ start_machine }
{
    let zeros = [0u64; CELLS];
    let started = Machine::start(&zeros);
    started.machine
}

// Writes the transcript of the input, and answers how many bytes it takes: 0 where the buffer is too short, as the call from C promises.
pub fn transcript(input: &[u8], output: &mut [u8]) -> usize
    ensures { record { count = result; buffer = output.new } ≡ transcript_in input.now output.old }
{
    if output.len() < TRANSCRIPT_ROOM {
        return 0;
    }
    let mut page = Page::new(output);
    if MOST_INPUT < input.len() {
        print::write_result(&mut page, 1, Err(Refusal::Unreadable));
        return page.place;
    }
    let mut machine = start_machine();
    let mut number: u64 = 1;
    let mut rest = input;
    // By a loop: after a walk by a closure that captures machine and page the proof knows neither (tried), and one that is lent them is no
    // plainer: a struct for them, and a flag for the early return.
    while !rest.is_empty() {
        let Some(
            Line::Step {
                kind,
                thread,
                place: at,
                value,
            },
        ) = line::first_line(rest)
        else {
            print::write_result(&mut page, number, Err(Refusal::Unreadable));
            return page.place;
        };
        let answer = script::take(&mut machine, kind, thread, at, value);
        print::write_result(&mut page, number, answer);
        number += 1;
        rest = line::after_line(rest);
    }
    write_recovered(&mut page, machine);
    page.place
}
