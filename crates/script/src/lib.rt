// How a text line's fields are read, as the steps that it stands for, and how these are taken. An old listing's EVICT, the eviction of a
// line that was once a step, stands for an EVICTCELL of each of the line's cells; any other line for the step that it says.
#![tactic(auto)]

ghost use Rattle.std.specs.Prelude.{◌≡◌};
ghost use Rattle.script.specs.Script.{reading_of, script_of};

use answer::{Answer, Refusal};
use kinds::{Kind, fields_answer, is_left};
use machine::Machine;
use sizes::words::{LINE_CELLS, LINES};
use step::step;

// The number of the name EVICT: no kind has it.
const EVICT: u64 = 11;

// The steps of a text line: so many of one kind and thread, from a first place on, each with the line's value.
#[derive(Clone, Copy)]
pub struct Reading {
    pub kind: u64,
    pub thread: u64,
    pub first: u64,
    pub count: u64,
}

// How the fields of a text line are read, or why it stands for no step.
pub fn read_fields(kind: u64, thread: u64, place: u64, value: u64) -> Result<Reading, Refusal>
    ensures { result ≡ reading_of kind thread place value }
{
    if kind != EVICT {
        return Ok(Reading {
            kind,
            thread,
            first: place,
            count: 1,
        });
    }
    fields_answer(thread, LINES <= place, is_left(thread, value))?;
    Ok(Reading {
        kind: Kind::EvictCell as u64,
        thread: 0,
        first: place * LINE_CELLS,
        count: LINE_CELLS,
    })
}

// Takes the steps of a text line, and answers what is printed for it: the last one's answer, or why there is none.
pub fn take(machine: &mut Machine, kind: u64, thread: u64, place: u64, value: u64) -> Answer
    ensures { record { answer = result; machine = machine.new } ≡ script_of machine.old kind thread place value }
{
    let reading = read_fields(kind, thread, place, value)?;
    let mut answer = Ok(0);
    for index in 0..reading.count {
        let stepped = step(
            *machine,
            reading.kind,
            reading.thread,
            reading.first + index,
            value,
        );
        answer = stepped.answer;
        *machine = stepped.machine;
    }
    answer
}
