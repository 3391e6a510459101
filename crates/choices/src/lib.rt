// Every choice of the lines in which two contents differ, tried: over plain arrays, whatever machine they are of.
#![tactic(auto)]

ghost use Rattle.std.specs.Prelude.{◌≡◌, ◌≤◌, ◌<◌, length, take};
ghost use Rattle.cache.specs.Cache.{cell_count, line_count};
ghost use Rattle.choices.specs.Choices.{most_tried, differs_in, lowest_lines};
ghost use Rattle.choices.specs.Counting.{Below, choice_at, marks_of, is_alike, count_alike, alike_choices};

use sizes::{CELLS, LINE_CELLS, LINES};

// Of how many lines every choice is tried at most.
const MOST_TRIED: usize = 8;

// The lines of which every choice is tried: the first so many, each one of the machine's. An array with its count, for there is no heap.
#[derive(Clone, Copy)]
struct Tried {
    lines: [usize; MOST_TRIED],
    count: usize,
    ghost few: { count ≤ most_tried },
    ghost below: { Below line_count (take count lines) },
}

// Two contents of the cells differ in some cell of the line, which is asked below 16 as a place: a type that says so would be unwrapped
// here.
fn line_differs(seen: &[u64], kept: &[u64], line: usize) -> bool
    requires { (cell_count ≤ length seen.now) × (cell_count ≤ length kept.now) × (line < line_count) }
    ensures { result ≡ differs_in seen.now kept.now line }
{
    let first = line * LINE_CELLS;
    let end = first + LINE_CELLS;
    seen[first..end] != kept[first..end]
}

// The lines whose contents differ, at most the eight lowest.
fn differing_lines(seen: &[u64], kept: &[u64]) -> Tried
    requires { (cell_count ≤ length seen.now) × (cell_count ≤ length kept.now) }
    ensures { take result.count result.lines ≡ lowest_lines seen.now kept.now }
{
    let mut lines = [0usize; MOST_TRIED];
    let mut count = 0;
    for line in 0..LINES {
        let has_room = count < MOST_TRIED;
        if has_room {
            if line_differs(seen, kept, line) {
                lines[count] = line;
                count += 1;
            }
        }
    }
    Tried { lines, count }
}

// Which lines the choice of this number evicts: the digits of the number in base 2 tell it of each line that is tried.
fn chosen(tried: Tried, choice: usize) -> [bool; LINES]
    ensures { result ≡ marks_of (choice_at (take tried.count tried.lines) choice) }
{
    let mut marks = [false; LINES];
    let mut left = choice;
    for line in &tried.lines[..tried.count] {
        if left % 2 == 1 {
            marks[*line] = true;
        }
        left /= 2;
    }
    marks
}

// The kept cells, with the seen ones in the lines that are marked, are the kept ones. By numbers: the marks are asked
// by line, and the cells by their own.
fn is_alike(seen: &[u64; CELLS], kept: &[u64; CELLS], marks: [bool; LINES]) -> bool
    ensures { result ≡ is_alike seen.now kept.now marks }
{
    for cell in 0..CELLS {
        let differs = seen[cell] != kept[cell];
        if differs && marks[cell / LINE_CELLS] {
            return false;
        }
    }
    true
}

// Tries every choice of the lines: how many of them leave the kept cells as they are.
fn count_alike(seen: &[u64; CELLS], kept: &[u64; CELLS], tried: Tried) -> u64
    ensures { result ≡ count_alike seen.now kept.now (take tried.count tried.lines) }
{
    let total = 1usize << tried.count;
    let mut alike = 0;
    for choice in 0..total {
        if is_alike(seen, kept, chosen(tried, choice)) {
            alike += 1;
        }
    }
    alike
}

// Tries every choice of the lines in which two images' cells differ, at most the eight lowest: how many of them leave the kept cells as
// they are. The seen cells are of the image with every line evicted, the kept ones of the other. Too short an image has no choice.
pub fn alike_choices(
    evicted: &[u64],
    image: &[u64],
    seen: &[u64; CELLS],
    kept: &[u64; CELLS],
) -> u64
    ensures { result ≡ alike_choices evicted.now image.now seen.now kept.now }
{
    if evicted.len() < CELLS {
        return 0;
    }
    if image.len() < CELLS {
        return 0;
    }
    count_alike(seen, kept, differing_lines(evicted, image))
}
