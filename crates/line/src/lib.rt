// What one line of a listing says.
#![tactic(auto)]

ghost use Rattle.std.specs.Prelude.{◌≡◌, ◌+◌};
ghost use Rattle.scan.specs.Find.{index_of};
ghost use Rattle.number.specs.Decimal.{number_in};
ghost use Rattle.names.specs.Text.{ascii};
ghost use Rattle.names.specs.Names.{kind_named};
ghost use Rattle.line.specs.Lines.{space, newline, before, after, after_key};
ghost use Rattle.line.specs.Lines.{step_in, undo_in, line_of, first_line};

use names::{kind_named, same};
use number::number_in;
use scan::find;

// A line says a step, or an entry of a claimed undo order by its thread and its LSN, which the text calls rank.
#[derive(Clone, Copy)]
pub enum Line {
    Step {
        kind: u64,
        thread: u64,
        place: u64,
        value: u64,
    },
    Undo {
        thread: u64,
        rank: u64,
    },
}

// What stands before the text's first space.
#[tactic(auto, unfolding(crate::specs::Lines::before))]
fn before_space(text: &[u8]) -> &[u8]
    ensures { result.now ≡ before space text.now }
{
    &text[..find(text, b' ')]
}

// What stands after the byte's first place in the text.
#[tactic(auto, unfolding(crate::specs::Lines::after))]
fn after(text: &[u8], byte: u8) -> &[u8]
    ensures { result.now ≡ after byte text.now }
{
    let end = find(text, byte);
    text.get(end + 1..).unwrap_or(&[])
}

// The kind that a line's first field says. Apart from the next, which differs in key and reader both: one function over the reader is no
// plainer.
#[tactic(auto, using(names::proofs::TextLaws::same_is), unfolding(crate::specs::Lines::after_key, names::specs::Text::ascii))]
fn kind_field(text: &[u8]) -> Option<u64>
    ensures { result ≡ after_key (ascii "step=") kind_named text.now }
{
    kind_named(text.strip_prefix(b"step=")?)
}

// The number that a field with this key says.
#[tactic(auto, using(names::proofs::TextLaws::same_is), unfolding(crate::specs::Lines::after_key))]
fn number_field(text: &[u8], key: &[u8]) -> Option<u64>
    ensures { result ≡ after_key key.now number_in text.now }
{
    number_in(text.strip_prefix(key)?)
}

// The step that a line says.
#[tactic(auto, unfolding(crate::specs::Lines::step_in, crate::specs::Lines::step_line, names::specs::Text::ascii))]
fn read_step(line: &[u8]) -> Option<Line>
    ensures { result ≡ step_in line.now }
{
    let after_step = after(line, b' ');
    let after_thread = after(after_step, b' ');
    let kind = kind_field(before_space(line))?;
    let thread = number_field(before_space(after_step), b"thread=")?;
    let place = number_field(before_space(after_thread), b"place=")?;
    let value = number_field(after(after_thread, b' '), b"value=")?;
    Some(Line::Step {
        kind,
        thread,
        place,
        value,
    })
}

// The entry of a claimed undo order that a line says after its first word.
#[tactic(auto, unfolding(crate::specs::Lines::undo_in, crate::specs::Lines::undo_line, names::specs::Text::ascii))]
fn read_undo(line: &[u8]) -> Option<Line>
    ensures { result ≡ undo_in line.now }
{
    let after_undo = after(line, b' ');
    let thread = number_field(before_space(after_undo), b"thread=")?;
    let rank = number_field(after(after_undo, b' '), b"rank=")?;
    Some(Line::Undo { thread, rank })
}

// What a line says, given without its newline; nothing where it can't be read.
#[tactic(auto, unfolding(crate::specs::Lines::line_of, names::specs::Text::ascii))]
pub fn read_line(line: &[u8]) -> Option<Line>
    ensures { result ≡ line_of line.now }
{
    if same(before_space(line), b"undo") {
        read_undo(line)
    } else {
        read_step(line)
    }
}

// What the first line of the input says; nothing where it can't be read, as where no newline ends it.
#[tactic(auto, unfolding(crate::specs::Lines::first_line, crate::specs::Lines::before))]
pub fn first_line(input: &[u8]) -> Option<Line>
    ensures { result ≡ first_line input.now }
{
    let end = find(input, b'\n');
    if end < input.len() {
        read_line(&input[..end])
    } else {
        None
    }
}

// What stands after the first line of the input and its newline: nothing where no newline ends it.
pub fn after_line(input: &[u8]) -> &[u8]
    ensures { result.now ≡ after newline input.now }
{
    after(input, b'\n')
}
