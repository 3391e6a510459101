// What is printed of a step, of a recovered cell, of a cut and of a marked order, into a lent buffer. What does not fit is not written.
#![tactic(auto)]

ghost use Rattle.std.specs.Prelude.{◌≡◌, ◌≤◌, length, All};
ghost use Rattle.buffer.specs.Pages.{Put};
ghost use Rattle.print.specs.Printed.{fields_text, result_text, cell_text, cut_line_text, marked_text};

use answer::Answer;
use buffer::Page;

// Writes a line of numbers, each after its label.
fn write_fields(page: &mut Page, fields: &[(&[u8], u64)])
    requires few { length fields.now ≤ 3 }
    requires short { All (λ field. length field.0.now ≤ 9) fields.now }
    ensures { Put page.old page.new (fields_text fields.now) }
{
    // three numbers of at most 20 digits, their labels, and a newline
    let mut bytes = [0u8; 88];
    let mut line = Page::new(&mut bytes);
    for (label, number) in fields {
        line.write(label);
        line.write_number(*number);
    }
    line.write(b"\n");
    page.write(line.text());
}

// Writes a step's number, its answer and the number given.
#[tactic(auto, unfolding(crate::specs::Printed::fields_text, crate::specs::Printed::result_text, names::specs::Text::ascii))]
pub fn write_result(page: &mut Page, number: u64, answer: Answer)
    ensures { Put page.old page.new (result_text number answer) }
{
    let given = answer::number(answer);
    let beside = answer::value(answer);
    write_fields(
        page,
        &[(b"n=", number), (b" answer=", given), (b" value=", beside)],
    )
}

// Writes a cut: the step's number, how many choices were tried, and how many recovered cells differ from the start.
#[tactic(auto, unfolding(crate::specs::Printed::fields_text, crate::specs::Printed::cut_line_text, names::specs::Text::ascii))]
pub fn write_cut_line(page: &mut Page, number: u64, choices: u64, differ: u64)
    ensures { Put page.old page.new (cut_line_text number choices differ) }
{
    write_fields(
        page,
        &[
            (b"n=", number),
            (b" choices=", choices),
            (b" differ=", differ),
        ],
    )
}

// Writes a recovered cell.
#[tactic(auto, unfolding(crate::specs::Printed::fields_text, crate::specs::Printed::cell_text, names::specs::Text::ascii))]
pub fn write_cell(page: &mut Page, cell: u64, content: u64)
    ensures { Put page.old page.new (cell_text cell content) }
{
    write_fields(page, &[(b"cell=", cell), (b" holds=", content)])
}

// Writes what a claimed order is answered: the answer's number, and the place of the first bad pair.
#[tactic(auto, unfolding(crate::specs::Printed::fields_text, crate::specs::Printed::marked_text, names::specs::Text::ascii))]
pub fn write_marked(page: &mut Page, answer: Answer, pair: u64)
    ensures { Put page.old page.new (marked_text answer pair) }
{
    let given = answer::number(answer);
    write_fields(page, &[(b"answer=", given), (b" place=", pair)])
}
