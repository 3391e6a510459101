// Marks each listing that an argument names, NAME.listing, and compares what it prints, byte by byte, with the stored NAME.transcript.
// Then prints how often each name of a step met each answer, counted from the listings and the stored transcripts. These come from
// elsewhere (data/README.md), and never from what is printed here.
#![tactic(auto)]

use answer::Refusal;
use buffer::Page;
use input::read_full;
use line::Line;
use listing::{MOST_INPUT, TRANSCRIPT_ROOM};
use scan::find;
use std::env::{Env, FillError};
use std::io::Write;
use std::rt::Files;
use std::{fs, io, str};

// What became of a listing. Its three cases have names: an `Option` of whether the two agree would not show which one is missing.
#[derive(Clone, Copy, PartialEq, Eq)]
enum Verdict {
    Agrees,
    Differs,
    Missing,
}

// The answer to a line that can't be read. Answers are numbers here, each its column in the table.
const UNREADABLE: usize = Refusal::Unreadable as usize;

// The row of lines that can't be read, after those of the names 1 to 14: a number, and no kind, as EVICT has 11 and is none.
const NO_NAME: usize = 14;

// What the rows of the table count.
const ROWS: [&[u8]; 15] = [
    b"LOAD      ",
    b"LOG       ",
    b"STORE     ",
    b"ACQUIRE   ",
    b"LOGREL    ",
    b"RELEASE   ",
    b"FLUSH     ",
    b"FLUSHLOG  ",
    b"FENCE     ",
    b"PRUNE     ",
    b"EVICT     ",
    b"EVICTLOG  ",
    b"EVICTCELL ",
    b"EVICTWORDS",
    b"unreadable",
];

// How often each name of a step met each answer: 15 rows, names 1 to 14 and lines that can't be read, of 21 columns, answers 0 to 20.
type Table = [[u64; 21]; 15];

// The first bytes of the buffer, this many, or all where it has fewer.
fn first(buffer: &[u8], count: usize) -> &[u8] {
    buffer.get(..count).unwrap_or(buffer)
}

// Opens the file of this name and ending, if there is one.
fn open<R: Files>(rt: &R, name: &[u8], ending: &[u8]) -> Option<R::File> {
    let mut bytes = [0u8; 80];
    let mut path = Page::new(&mut bytes);
    path.write(name);
    path.write(ending);
    let end = path.place;
    let path = str::from_utf8(first(&bytes, end)).ok()?;
    fs::open(rt, path).ok()
}

// The digit that a byte is.
fn digit(byte: u8) -> Option<usize> {
    (byte as char).to_digit(10).map(|digit| digit as usize)
}

// The answer in a transcript's first line: it stands after a space and `answer=`, and has one digit or two. Where no digit stands there,
// which no transcript has, the first one counts as 10.
fn answer_in(transcript: &[u8]) -> usize {
    let after = transcript.get(find(transcript, b' ')..).unwrap_or(&[]);
    if after.len() < 10 {
        return UNREADABLE;
    }
    let first = digit(after[8]).unwrap_or(10);
    match digit(after[9]) {
        None => first,
        Some(second) => first.saturating_mul(10).saturating_add(second),
    }
}

// The table's row for a line: the kind less 1, and the last for a line that can't be read as a step. A listing that is too long is answered
// as if its first line couldn't be read.
fn row_of(line: Option<Line>, answer: usize) -> usize {
    match line {
        Some(Line::Step { kind, .. }) if answer != UNREADABLE => match kind {
            1..=14 => kind as usize - 1,
            _ => NO_NAME,
        },
        _ => NO_NAME,
    }
}

// Counts one more in the table, up to the 9,999 that it has room for. The answers 0 to 20 have a column each, and a larger number, which no
// transcript has, counts as 20.
fn add(counts: &mut Table, row: usize, answer: usize) {
    if let Some(columns) = counts.get_mut(row) {
        if let Some(count) = columns.get_mut(answer.min(20)) {
            *count = count.saturating_add(1).min(9999);
        }
    }
}

// Counts each line of the listing that the transcript answers. A loop of its own: two texts go side by side, a line of each at a time.
#[tactic(auto, unfolding(line::specs::Lines::after))]
fn count_lines(listing: &[u8], transcript: &[u8], counts: &mut Table) {
    let mut lines = listing;
    let mut answers = transcript;
    while !lines.is_empty() && !answers.is_empty() {
        let answer = answer_in(answers);
        add(counts, row_of(line::first_line(lines), answer), answer);
        lines = line::after_line(lines);
        answers = line::after_line(answers);
    }
}

// Marks the listing of this name, compares, and counts its lines.
fn judge<R: Files>(rt: &R, name: &[u8], counts: &mut Table) -> io::Result<Verdict> {
    let Some(mut listing) = open(rt, name, b".listing") else {
        return Ok(Verdict::Missing);
    };
    let Some(mut transcript) = open(rt, name, b".transcript") else {
        return Ok(Verdict::Missing);
    };
    // one byte more than a listing and a transcript may have, so that a longer one shows
    let mut input = [0u8; MOST_INPUT + 1];
    let mut stored = [0u8; 163841];
    let mut output = [0u8; TRANSCRIPT_ROOM];
    let given = read_full(&mut listing, &mut input)?;
    let wanted = read_full(&mut transcript, &mut stored)?;
    count_lines(&input[..given], &stored[..wanted], counts);
    let end = listing::transcript(&input[..given], &mut output);
    if first(&output, end) == &stored[..wanted] {
        return Ok(Verdict::Agrees);
    }
    Ok(Verdict::Differs)
}

// What is printed, in one write: a text that does not fit is left out. An array with its end, into which the texts go piece by piece, for
// there is no heap.
#[derive(Drop)]
struct Report<'a> {
    page: Page<'a>,
}

impl Report<'_> {
    // Writes a number of at most four digits into a column of five bytes.
    fn write_column(&mut self, number: u64) {
        let blanks: &[u8] = match number {
            0..=9 => b"    ",
            10..=99 => b"   ",
            100..=999 => b"  ",
            _ => b" ",
        };
        self.page.write(blanks);
        self.page.write_number(number);
    }

    // Writes a listing's name and its verdict.
    fn write_verdict(&mut self, name: &[u8], verdict: Verdict) {
        let text: &[u8] = match verdict {
            Verdict::Agrees => b": agrees\n",
            Verdict::Differs => b": differs\n",
            Verdict::Missing => b": missing\n",
        };
        self.page.write(name);
        self.page.write(text);
    }

    // Writes the table's first line: the answers.
    fn write_answers(&mut self) {
        self.page.write(b"\nanswer    ");
        for answer in 0..21 {
            self.write_column(answer);
        }
        self.page.write(b"\n");
    }

    // Writes a row of the table, and a dot for each count of none.
    fn write_row(&mut self, name: &[u8], counts: &[u64]) {
        self.page.write(name);
        for count in counts {
            match *count {
                0 => self.page.write(b"    ."),
                count => self.write_column(count),
            }
        }
        self.page.write(b"\n");
    }

    // Writes the table of kinds against answers.
    fn write_table(&mut self, counts: &Table) {
        self.write_answers();
        for (name, row) in ROWS.iter().zip(counts) {
            self.write_row(name, row);
        }
    }

    // Writes how many listings agree, and how many don't.
    fn write_sums(&mut self, passed: u64, failed: u64) {
        self.page.write(b"\n");
        self.page.write_number(passed);
        self.page.write(b" pass, ");
        self.page.write_number(failed);
        self.page.write(b" fail\n");
    }
}

// Marks the listings that are named, then prints the verdicts, the table and the sums in one write.
fn main(rt: HostRuntime) -> io::Result<()> {
    let mut bytes = [0u8; 8192];
    let mut report = Report {
        page: Page::new(&mut bytes),
    };
    let mut counts = [[0u64; 21]; 15];
    let mut passed: u64 = 0;
    let mut failed: u64 = 0;
    for i in 1..usize::MAX {
        let mut name = [0u8; 64];
        let length = match rt.arg(i, &mut name) {
            Ok(length) => length,
            Err(FillError::TooLong) => 0,
            Err(FillError::NotPresent) => break,
        };
        let verdict = judge(&rt, &name[..length], &mut counts)?;
        report.write_verdict(&name[..length], verdict);
        if verdict == Verdict::Agrees {
            passed += 1;
        } else {
            failed += 1;
        }
    }
    report.write_table(&counts);
    report.write_sums(passed, failed);
    let end = report.page.place;
    io::writer(&rt).write_all(first(&bytes, end))
}
