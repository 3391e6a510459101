// The machine and the model, side by side.
ghost use Rattle.std.specs.Prelude.{◌≤◌};

use crate::calls::called_alike;
use crate::damage::damaged;
use crate::listings::{STEPS, next};
use crate::model;
use crate::model::history::{Kind, Step};
use crate::model::{Asked, Run};
use crate::tally::Tally;
use crate::undo_orders::orders_alike;
use answer::{Answer, Refusal};
use machine::Machine;
use reader::IMAGE_WORDS;
use sizes::CELLS;
use step::step;

// The start cells.
pub(crate) const START: [u64; CELLS] = [4294967291; CELLS];

// What a lent buffer holds before a recovery.
const UNTOUCHED: u64 = 4294967279;

// The cells of buffers of a wrong length.
const TOO_FEW: usize = CELLS - 1;

const TOO_MANY: usize = CELLS + 1;

// The steps that a history has room for: those of a listing, and those of a call tried after them.
const MOST: usize = 218;

// The accepted steps so far: an array with its count, for there is no heap.
#[derive(Clone, Copy)]
pub(crate) struct Past {
    steps: [Step; MOST],
    count: usize,
}

impl Past {
    // No steps.
    const NONE: Past = Past {
        steps: [Step::NONE; MOST],
        count: 0,
    };

    // The steps.
    pub(crate) fn taken(&self) -> &[Step] {
        self.steps.get(..self.count).unwrap_or(&self.steps)
    }

    // The run that they are.
    pub(crate) fn run(&self) -> Run<'_> {
        Run {
            start: &START,
            past: self.taken(),
        }
    }

    // Adds a step, where there is room and its input is not refused.
    pub(crate) fn push(&mut self, asked: Asked) {
        if let Ok(step) = model::read(asked) {
            if self.count < MOST {
                self.steps[self.count] = step;
                self.count += 1;
            }
        }
    }
}

// The refusals have one number.
pub(crate) fn is_refused_alike(refusal: Refusal, other: model::Refusal) -> bool {
    u64::from(refusal) == other as u64
}

// The machine's answer is the model's, with the number that it gives.
pub(crate) fn is_answered_alike(answer: Answer, other: Result<u64, model::Refusal>) -> bool {
    match (answer, other) {
        (Ok(given), Ok(number)) => given == number,
        (Err(refusal), Err(other)) => is_refused_alike(refusal, other),
        _ => false,
    }
}

// Counts a step's answer; a LOG's that is refused by 8 beside a full log; a LOG's that is accepted and makes no entry; a FENCE's that is
// accepted, by what it carried; an accepted EVICTCELL that alters what is kept; and an accepted EVICTWORDS by its words.
fn note(met: &mut Tally, run: Run, asked: Asked, answer: Result<u64, model::Refusal>) {
    met.add_answer(asked, answer);
    let Ok(step) = model::read(asked) else {
        return;
    };
    let past = run.past;
    let thread = step.thread;
    match (step.kind, answer) {
        (Kind::Log, Err(model::Refusal::Races)) => {
            if model::has_full_log(past, thread) {
                met.add_crowded();
            }
        }
        (Kind::Log, Ok(_)) => {
            if model::has_entry(past, thread, step.place) {
                met.add_again(
                    model::is_stored_since_entry(past, thread, step.place),
                    model::has_full_log(past, thread),
                );
            }
        }
        (Kind::Fence, Ok(_)) => met.add_fence(
            model::has_marked_line(past, thread),
            model::has_unfenced_entry(past, thread),
        ),
        (Kind::EvictCell, Ok(_)) => {
            if model::is_unkept(run, step.place) {
                met.add_unkept();
            }
        }
        (Kind::EvictWords, Ok(_)) => met.add_words(step.value),
        _ => {}
    }
}

// The model judges the step after this run as the machine did.
fn judged_alike(run: Run, asked: Asked, answer: Answer, met: &mut Tally) -> bool {
    let verdict = model::judge(run, asked);
    note(met, run, asked, verdict);
    is_answered_alike(answer, verdict)
}

// The answer of both recoveries of the image into buffers of this length, where they give the same one and leave the same words.
fn recovered<const LENGTH: usize>(image: &[u64]) -> Option<Result<(), model::Refusal>>
    requires { LENGTH ≤ 129 }
{
    let mut cells = [UNTOUCHED; LENGTH];
    let mut others = [UNTOUCHED; LENGTH];
    let answer = recovery::recover(image, &mut cells);
    let verdict = model::recover(image, &mut others);
    let is_alike = is_answered_alike(answer, verdict.map(|_| 0)) && cells == others;
    is_alike.then_some(verdict)
}

// The answer of both recoveries of the image, now and then into buffers that are a word too short or too long.
fn recovered_somehow(image: &[u64], chance: u64) -> Option<Result<(), model::Refusal>> {
    match chance % 32 {
        0 => recovered::<TOO_FEW>(image),
        1 => recovered::<TOO_MANY>(image),
        _ => recovered::<CELLS>(image),
    }
}

// An image's length, or now and then a word less or more.
fn image_words(chance: u64) -> usize
    ensures { result ≤ 1157 }
{
    match chance % 32 {
        0 => IMAGE_WORDS - 1,
        1 => IMAGE_WORDS + 1,
        _ => IMAGE_WORDS,
    }
}

// The machine's image is the model's after this run; counts the cut where the image has a torn entry.
fn image_alike(image: &[u64; IMAGE_WORDS], run: Run, met: &mut Tally) -> bool {
    met.add_torn(
        model::has_torn_entry(run.past, false),
        model::has_torn_entry(run.past, true),
    );
    *image == model::image(run)
}

// Both recoveries take the damaged image's first words alike, now and then into buffers that are a word too short or too long, and so do
// both checkers.
fn damaged_alike(image: &[u64; IMAGE_WORDS], chance: u64, met: &mut Tally) -> bool {
    let wide = damaged(image, chance);
    let other = next(chance);
    let part = &wide[..image_words(other / 7)];
    let Some(answer) = recovered_somehow(part, other / 3) else {
        return false;
    };
    met.add_recovered(true, answer);
    orders_alike(part, true, other / 3, met)
}

// The machine's image of a cut is the model's, and both recover it and mark its undo orders alike, as it is and damaged.
fn cut_alike(image: &[u64; IMAGE_WORDS], run: Run, chance: u64, met: &mut Tally) -> bool {
    if !image_alike(image, run, met) {
        return false;
    }
    let Some(answer) = recovered::<CELLS>(image) else {
        return false;
    };
    met.add_recovered(false, answer);
    orders_alike(image, false, chance, met) && damaged_alike(image, chance, met)
}

// The machine's image of every fifth cut is the model's, and both recover it and mark its undo orders alike, as it is and damaged; other
// cuts are not tried.
fn fifth_alike(
    number: usize,
    seed: u64,
    image: &[u64; IMAGE_WORDS],
    run: Run,
    met: &mut Tally,
) -> bool {
    if number % 5 != 0 {
        return true;
    }
    let chance = next(seed % 1000000 * 1000 + (number % 1000) as u64);
    cut_alike(image, run, next(chance), met)
}

// The image of a cut of the machine.
pub(crate) fn image_of(machine: Machine) -> [u64; IMAGE_WORDS] {
    let mut image = [0u64; IMAGE_WORDS];
    let _ = machine.cut(&mut image);
    image
}

// The machine and the model take the steps alike, cut before every fifth of them and after the last, with a call before every 25th that
// logs many cells.
pub(crate) fn run_alike(steps: &[Asked], seed: u64, met: &mut Tally) -> bool {
    let started = Machine::start(&START);
    let mut machine = started.machine;
    let mut past = Past::NONE;
    for (done, wanted) in steps.iter().enumerate() {
        let image = image_of(machine);
        if !fifth_alike(done, seed, &image, past.run(), met) {
            return false;
        }
        if !called_alike(done, seed, machine, past, met) {
            return false;
        }
        let stepped = step(
            machine,
            wanted.kind,
            wanted.thread,
            wanted.place,
            wanted.value,
        );
        machine = stepped.machine;
        if !judged_alike(past.run(), *wanted, stepped.answer, met) {
            return false;
        }
        if stepped.answer.is_ok() {
            past.push(*wanted);
        }
    }
    let last = image_of(machine);
    fifth_alike(STEPS, seed, &last, past.run(), met)
}
