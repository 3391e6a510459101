// A listing with a claimed undo order: takes its steps, cuts, and marks the order against the image.
#![tactic(auto)]

ghost use Rattle.std.specs.Prelude.{◌≡◌, ◌+◌, ◌≤◌, length};
ghost use Rattle.listing.specs.Transcript.{most_input};
ghost use Rattle.buffer.specs.Buffers.{written, place_after};
ghost use Rattle.buffer.specs.Pages.{Put};
ghost use Rattle.claimed.specs.Verdict.{mark_text, verdict_of};
ghost use Rattle.claimed.specs.Read.{StepsTaken, kept_words, PairsRead};

use answer::Refusal;
use buffer::Page;
use line::Line;
use listing::MOST_INPUT;
use machine::Machine;
use order::MOST_WORDS;
use reader::IMAGE_WORDS;
use sizes::CELLS;

// The words that are kept of an order: one pair more than can be marked, by which a longer one shows.
const KEPT_WORDS: usize = MOST_WORDS + 2;

// Bytes enough for the one printed line, whatever its numbers.
pub const VERDICT_ROOM: usize = 78;

// The machine after the step lines, and the lines after them, of which the first has this number.
#[derive(Clone, Copy)]
struct Taken<'a> {
    machine: Machine,
    number: u64,
    rest: &'a [u8],
}

// Takes the step lines, up to the first that says none.
fn take_steps(input: &[u8]) -> Taken<'_>
    requires { length input.now ≤ most_input }
    ensures { StepsTaken input.now result.machine result.number result.rest.now }
{
    let zeros = [0u64; CELLS];
    let started = Machine::start(&zeros);
    let mut machine = started.machine;
    let mut number: u64 = 1;
    let mut rest = input;
    // by a loop, as `listing::transcript` says; it ends with what it has read so far besides
    while !rest.is_empty() {
        let Some(
            Line::Step {
                kind,
                thread,
                place,
                value,
            },
        ) = line::first_line(rest)
        else {
            return Taken {
                machine,
                number,
                rest,
            };
        };
        let _ = script::take(&mut machine, kind, thread, place, value);
        number += 1;
        rest = line::after_line(rest);
    }
    Taken {
        machine,
        number,
        rest,
    }
}

// Reads the lines of an order, and answers how many words of it are kept; or the number of the first line that says none of it. Words
// past the kept ones are left out: 26 refuses the list by those that are kept.
fn read_pairs(input: &[u8], first: u64, pairs: &mut [u64]) -> Result<usize, u64>
    requires { (length input.now ≤ most_input) × (first ≤ most_input + 1) × (length pairs.old ≡ kept_words) }
    ensures { PairsRead input.now first result pairs.new }
{
    let mut number = first;
    let mut count = 0;
    let mut rest = input;
    // by a loop, as `listing::transcript` says; it ends with what it has read so far besides
    while !rest.is_empty() {
        let Some(Line::Undo { thread, rank }) = line::first_line(rest) else {
            return Err(number);
        };
        let has_room = count <= MOST_WORDS;
        if has_room {
            pairs[count] = thread;
            pairs[count + 1] = rank;
            count += 2;
        }
        number += 1;
        rest = line::after_line(rest);
    }
    Ok(count)
}

// Cuts the machine, marks the order against its image, and writes what it is answered.
fn write_mark(page: &mut Page, machine: Machine, pairs: &[u64])
    ensures { Put page.old page.new (mark_text machine pairs.now) }
{
    let mut image = [0u64; IMAGE_WORDS];
    let _ = machine.cut(&mut image);
    let checked = order::check(&image, pairs);
    print::write_marked(page, checked.answer, checked.place as u64);
}

// Writes the one line that is printed for a listing with a claimed order, and answers how many bytes it takes; where it does not fit it is
// not written, and the answer is 0.
pub fn verdict(input: &[u8], output: &mut [u8]) -> usize
    ensures value { result ≡ place_after output.old 0 (verdict_of input.now) }
    ensures output_after { output.new ≡ written output.old 0 (verdict_of input.now) }
{
    let mut page = Page::new(output);
    if MOST_INPUT < input.len() {
        print::write_result(&mut page, 1, Err(Refusal::Unreadable));
        return page.place;
    }
    let taken = take_steps(input);
    let mut pairs = [0u64; KEPT_WORDS];
    match read_pairs(taken.rest, taken.number, &mut pairs) {
        Ok(count) => write_mark(&mut page, taken.machine, &pairs[..count]),
        Err(number) => print::write_result(&mut page, number, Err(Refusal::Unreadable)),
    }
    page.place
}
