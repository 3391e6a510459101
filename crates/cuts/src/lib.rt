// All cuts of a listing: after each step, the start included, every choice of lines that the cache may have let go.
#![tactic(auto)]

ghost use Rattle.std.specs.Prelude.{◌≡◌};
ghost use Rattle.buffer.specs.Pages.{Put};
ghost use Rattle.cuts.specs.Cuts.{not_zero, cut_text, cuts_in};

use answer::Refusal;
use buffer::Page;
use line::Line;
use listing::{MOST_INPUT, TRANSCRIPT_ROOM};
use machine::Machine;
use reader::IMAGE_WORDS;
use sizes::CELLS;

// How many of the cells are not 0.
fn not_zero(cells: &[u64]) -> u64
    ensures { result ≡ not_zero cells.now }
{
    // a loop, since a filter that is counted takes several times as long here
    let mut count = 0;
    for &content in cells {
        if content != 0 {
            count += 1;
        }
    }
    count
}

// Cuts the machine, tries every choice of lines, and writes what was found. The choices' images differ in cells only, and recovery takes
// each cell by itself: so two recoveries, of the cells as kept and of all cells as seen, have what each choice would recover.
fn write_cut(page: &mut Page, number: u64, machine: Machine)
    ensures { Put page.old page.new (cut_text number machine) }
{
    let mut image = [0u64; IMAGE_WORDS];
    let mut kept = [0u64; CELLS];
    let mut seen_image = [0u64; IMAGE_WORDS];
    let mut seen = [0u64; CELLS];
    let _ = machine.cut(&mut image);
    let _ = machine.cut_evicted(&mut seen_image);
    let _ = recovery::recover(&image, &mut kept);
    let _ = recovery::recover(&seen_image, &mut seen);
    let choices = choices::alike_choices(&seen_image, &image, &seen, &kept);
    let differ = not_zero(&kept);
    print::write_cut_line(page, number, choices, differ);
}

// Writes a line for the cut at the start and after each step, and answers how many bytes they take.
pub fn all_cuts(input: &[u8], output: &mut [u8]) -> usize
    ensures { record { count = result; buffer = output.new } ≡ cuts_in input.now output.old }
{
    if output.len() < TRANSCRIPT_ROOM {
        return 0;
    }
    let mut page = Page::new(output);
    if MOST_INPUT < input.len() {
        print::write_result(&mut page, 1, Err(Refusal::Unreadable));
        return page.place;
    }
    let zeros = [0u64; CELLS];
    let started = Machine::start(&zeros);
    let mut machine = started.machine;
    let mut number: u64 = 1;
    let mut rest = input;
    write_cut(&mut page, 0, machine);
    // by a loop, as `listing::transcript` says
    while !rest.is_empty() {
        let Some(
            Line::Step {
                kind,
                thread,
                place: at,
                value,
            },
        ) = line::first_line(rest)
        else {
            print::write_result(&mut page, number, Err(Refusal::Unreadable));
            return page.place;
        };
        let _ = script::take(&mut machine, kind, thread, at, value);
        write_cut(&mut page, number, machine);
        number += 1;
        rest = line::after_line(rest);
    }
    page.place
}
