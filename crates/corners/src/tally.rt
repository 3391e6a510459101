// How often each answer was met, and the tables of that.
use crate::model::history::Kind;
use crate::model::{Asked, Refusal, Unlawful};
use crate::undo_orders::{CHANGES, Change};
use std::io;

// How often a kind's steps met each of the answers 0 to 19.
#[derive(Clone, Copy)]
struct Steps {
    answers: [u64; 20],
}

// How often claimed undo orders that were changed in one way met the answers 0, 21, 22, 23 and 26, and the places beside 27, the first
// pair's, a later one's and the end.
#[derive(Clone, Copy)]
struct Lists {
    answers: [u64; 8],
}

// The counts. Kinds and answers come by their numbers here: the table has a column for each number from 0 to 19, and a row for numbers of
// no kind.
#[derive(Clone, Copy)]
pub(crate) struct Tally {
    // Of steps, a row for each of the kinds' numbers 1 to 14, of which 11 is no kind's, and one for other numbers.
    steps: [Steps; 15],
    // Of LOGs refused by 8 that a full log would refuse too.
    crowded: u64,
    // Of accepted LOGs of a cell with an entry in the current region: of all, of those after a STORE to the cell, and of those with a full
    // log.
    again: [u64; 3],
    // Of accepted FENCEs: of those that carried nothing, lines alone, entries alone, and both.
    fences: [u64; 4],
    // Of accepted EVICTWORDS of 1, 2, 3 and 4 words.
    words: [u64; 4],
    // Of cuts with a torn entry: over zeros, and over an older entry.
    torn: [u64; 2],
    // Of accepted EVICTCELLs that altered what is kept.
    unkept: u64,
    // Of calls that log many cells: by their answers, by the lengths of their lists, and of those stopped after an accepted cell.
    calls: [u64; 8],
    lengths: [u64; 19],
    partly: u64,
    // Of recovery's answers to images of cuts, and to damaged ones.
    recovered: [u64; 5],
    recovered_damaged: [u64; 5],
    // Of answers to claimed undo orders of cuts' images, and of damaged ones, a row for each way of changing them.
    lists: [Lists; 6],
    lists_of_damaged: [Lists; 6],
}

// The answers to calls that have a column of their own; any other has the last one.
const CALL_ANSWERS: [u64; 7] = [0, 2, 3, 5, 7, 8, 25];

// The answers of recovery.
const RECOVERED_ANSWERS: [u64; 5] = [0, 21, 22, 23, 24];

// The answers to claimed undo orders but 27.
const LIST_ANSWERS: [u64; 5] = [0, 21, 22, 23, 26];

// The rows of the table of steps.
const STEP_ROWS: [&str; 15] = [
    "LOAD",
    "LOG",
    "STORE",
    "ACQUIRE",
    "LOGREL",
    "RELEASE",
    "FLUSH",
    "FLUSHLOG",
    "FENCE",
    "PRUNE",
    "11",
    "EVICTLOG",
    "EVICTCELL",
    "EVICTWORDS",
    "other",
];

// An answer's number: 0 is acceptance.
pub(crate) fn number_of<T: Copy>(answer: Result<T, Refusal>) -> u64 {
    match answer {
        Ok(_) => 0,
        Err(refusal) => refusal as u64,
    }
}

// Counts one more in a column.
fn raise(counts: &mut [u64], column: usize) {
    if let Some(count) = counts.get_mut(column) {
        *count = count.saturating_add(1);
    }
}

// Counts one more in a column of the row of a change.
fn raise_row(rows: &mut [Lists; 6], change: Change, column: usize) {
    if let Some(row) = rows.get_mut(change as usize) {
        raise(&mut row.answers, column);
    }
}

// The column of a number.
fn column_of(numbers: &[u64], number: u64) -> usize {
    numbers
        .iter()
        .position(|one| *one == number)
        .unwrap_or(numbers.len())
}

// A kind's row in the table: 0 to 13 for the numbers 1 to 14, and 14 for any other.
fn row_of(kind: u64) -> usize {
    match kind {
        1..=14 => kind as usize - 1,
        _ => 14,
    }
}

// The state can have a step of the kind refused by this number.
fn state_can_refuse(kind: Kind, answer: u64) -> bool {
    match kind {
        Kind::Load => answer == 8,
        Kind::Log => matches!(answer, 5..=8),
        Kind::Store => matches!(answer, 7 | 10 | 11),
        Kind::Acquire => matches!(answer, 5..=7 | 12),
        Kind::LogRel => matches!(answer, 5..=7 | 13),
        Kind::Release => matches!(answer, 11 | 14),
        Kind::Prune => matches!(answer, 11 | 15..=17),
        Kind::EvictLog | Kind::EvictWords => answer == 18,
        Kind::Flush | Kind::FlushLog | Kind::Fence | Kind::EvictCell => false,
    }
}

// The documents let a step of the kind be answered so; 15 stands for any number but 11 that is no kind's.
fn can_answer(kind: u64, answer: u64) -> bool {
    let Ok(kind) = Kind::try_from(kind) else {
        return answer == 1;
    };
    match answer {
        0 | 2 => true,
        1 => false,
        3 => !matches!(kind, Kind::FlushLog | Kind::Fence | Kind::Prune),
        4 => !matches!(kind, Kind::Store | Kind::EvictWords),
        19 => kind == Kind::EvictWords,
        _ => state_can_refuse(kind, answer),
    }
}

impl Tally {
    // Nothing was met.
    pub(crate) const NONE: Tally = Tally {
        steps: [Steps { answers: [0; 20] }; 15],
        crowded: 0,
        again: [0; 3],
        fences: [0; 4],
        words: [0; 4],
        torn: [0; 2],
        unkept: 0,
        calls: [0; 8],
        lengths: [0; 19],
        partly: 0,
        recovered: [0; 5],
        recovered_damaged: [0; 5],
        lists: [Lists { answers: [0; 8] }; 6],
        lists_of_damaged: [Lists { answers: [0; 8] }; 6],
    };

    // Counts a step's answer.
    pub(crate) fn add_answer(&mut self, step: Asked, answer: Result<u64, Refusal>) {
        if let Some(row) = self.steps.get_mut(row_of(step.kind)) {
            raise(&mut row.answers, number_of(answer) as usize);
        }
    }

    // Counts a LOG that is refused by 8, where 5 would refuse it too.
    pub(crate) fn add_crowded(&mut self) {
        self.crowded = self.crowded.saturating_add(1);
    }

    // Counts an accepted LOG of a cell with an entry in the current region, since which the cell was stored to, or was not; the log is
    // full, or is not.
    pub(crate) fn add_again(&mut self, is_stored: bool, is_full: bool) {
        raise(&mut self.again, 0);
        if is_stored {
            raise(&mut self.again, 1);
        }
        if is_full {
            raise(&mut self.again, 2);
        }
    }

    // Counts an accepted FENCE that carried lines, or did not, and entries, or did not.
    pub(crate) fn add_fence(&mut self, has_lines: bool, has_entries: bool) {
        let column = match (has_entries, has_lines) {
            (false, false) => 0,
            (false, true) => 1,
            (true, false) => 2,
            (true, true) => 3,
        };
        raise(&mut self.fences, column);
    }

    // Counts an accepted EVICTWORDS of so many words, 1 to 4.
    pub(crate) fn add_words(&mut self, words: u64) {
        raise(&mut self.words, (words as usize).saturating_sub(1));
    }

    // Counts a cut with an entry that is torn over zeros, or with none, and one that is torn over an older entry, or with none.
    pub(crate) fn add_torn(&mut self, is_over_zeros: bool, is_over_entry: bool) {
        if is_over_zeros {
            raise(&mut self.torn, 0);
        }
        if is_over_entry {
            raise(&mut self.torn, 1);
        }
    }

    // Counts an accepted EVICTCELL of a cell whose kept content was not its seen one.
    pub(crate) fn add_unkept(&mut self) {
        self.unkept = self.unkept.saturating_add(1);
    }

    // Counts a call with a list of so many cells, of which so many were accepted.
    pub(crate) fn add_call(&mut self, cells: usize, accepted: u64, answer: Result<(), Refusal>) {
        raise(&mut self.calls, column_of(&CALL_ANSWERS, number_of(answer)));
        raise(&mut self.lengths, cells);
        if answer.is_err() && 0 < accepted {
            self.partly = self.partly.saturating_add(1);
        }
    }

    // Counts an answer to a claimed undo order of so many pairs, changed so, of an image of a cut or of a damaged one.
    pub(crate) fn add_list(
        &mut self,
        change: Change,
        is_damaged: bool,
        pairs: usize,
        answer: Result<(), Unlawful>,
    ) {
        let column = match answer {
            Ok(()) => 0,
            Err(Unlawful::Refused(refusal)) => column_of(&LIST_ANSWERS, refusal as u64),
            Err(Unlawful::BadAt(place)) if place == pairs => 7,
            Err(Unlawful::BadAt(0)) => 5,
            Err(Unlawful::BadAt(_)) => 6,
        };
        if is_damaged {
            raise_row(&mut self.lists_of_damaged, change, column);
        } else {
            raise_row(&mut self.lists, change, column);
        }
    }

    // Counts an answer of recovery to an image of a cut or to a damaged one.
    pub(crate) fn add_recovered(&mut self, is_damaged: bool, answer: Result<(), Refusal>) {
        let column = column_of(&RECOVERED_ANSWERS, number_of(answer));
        if is_damaged {
            raise(&mut self.recovered_damaged, column);
        } else {
            raise(&mut self.recovered, column);
        }
    }

    // The pair of a kind and an answer with this number is one that the documents let occur, or do not, and was met, or was not; 6 is left
    // out.
    fn is_such(&self, pair: usize, is_allowed: bool, is_met: bool) -> bool {
        let answer = pair % 20;
        let Some(row) = self.steps.get(pair / 20) else {
            return false;
        };
        let Some(count) = row.answers.get(answer) else {
            return false;
        };
        answer != 6
            && can_answer((pair / 20 + 1) as u64, answer as u64) == is_allowed
            && (0 < *count) == is_met
    }

    // How many pairs of a kind and an answer the documents let occur, or do not, and were met, or were not.
    fn pairs(&self, is_allowed: bool, is_met: bool) -> usize {
        (0..300)
            .filter(|pair| self.is_such(*pair, is_allowed, is_met))
            .count()
    }

    // Prints the table of kinds against answers.
    fn print_steps<P: Print>(&self, rt: &P) -> io::Result<()> {
        print!(rt; "kind           0     1     2     3     4     5     6     7     8     9")?;
        println!(rt; "    10    11    12    13    14    15    16    17    18    19")?;
        for (row, counts) in STEP_ROWS.iter().zip(&self.steps) {
            print_row(rt, row, &counts.answers)?;
        }
        Ok(())
    }

    // Prints the table of recovery's answers.
    fn print_recovered<P: Print>(&self, rt: &P) -> io::Result<()> {
        println!(rt; "recovery       0    21    22    23    24")?;
        print_row(rt, "cut", &self.recovered)?;
        print_row(rt, "damaged", &self.recovered_damaged)
    }

    // Prints the tables of answers to claimed undo orders.
    fn print_lists<P: Print>(&self, rt: &P) -> io::Result<()> {
        println!(rt;
            "claimed undo orders of cuts' images by answer, 27 by the place beside it, the first pair, a later one or the end:"
        )?;
        println!(rt; "list           0    21    22    23    26 first later   end")?;
        print_changes(rt, &self.lists)?;
        println!(rt; "and of damaged ones:")?;
        print_changes(rt, &self.lists_of_damaged)
    }

    // Prints the counts of LOGs.
    fn print_logs<P: Print>(&self, rt: &P) -> io::Result<()> {
        let [all, stored, full] = self.again;
        print!(rt;
            "\nLOGs refused by 8 that 5 would refuse too: {}",
            self.crowded
        )?;
        print!(rt; "\naccepted LOGs of a cell with an entry in the current region: {all}")?;
        print!(rt; "\nof these after a STORE to the cell: {stored}")?;
        print!(rt; "\nof these with a full log: {full}")
    }

    // Prints the counts of FENCEs and of evictions.
    fn print_kept<P: Print>(&self, rt: &P) -> io::Result<()> {
        print!(rt; "\naccepted FENCEs that carried nothing, lines, entries, and both:")?;
        print_counts(rt, &self.fences)?;
        print!(rt;
            "accepted EVICTCELLs that altered what the cell keeps: {}",
            self.unkept
        )?;
        print!(rt; "\naccepted EVICTWORDS of 1, 2, 3 and 4 words:")?;
        print_counts(rt, &self.words)?;
        print!(rt; "cuts with an entry torn over zeros, and over an older entry:")?;
        print_counts(rt, &self.torn)
    }

    // Prints the counts of calls that log many cells.
    fn print_calls<P: Print>(&self, rt: &P) -> io::Result<()> {
        print!(rt;
            "calls that log many cells by answer:\n               0     2     3     5     7     8    25 other\n          "
        )?;
        print_counts(rt, &self.calls)?;
        print!(rt; "of these stopped after an accepted cell: {}", self.partly)?;
        print!(rt; "\nby the length of the list, 0 to 18 cells:\n          ")?;
        print_counts(rt, &self.lengths)
    }

    // Prints how many pairs of a kind and an answer are missing in the table of steps, and how many should be.
    fn print_pairs<P: Print>(&self, rt: &P) -> io::Result<()> {
        let met = self.pairs(true, true);
        let missing = self.pairs(true, false);
        print!(rt; "zeros among the {}", met.saturating_add(missing))?;
        print!(rt;
            " pairs that the documents let occur, 6 left out, which needs 1,000,000 entries: {missing}"
        )?;
        print!(rt; "\nother pairs that were met: {}", self.pairs(false, true))
    }

    // Prints the tables and what is missing in them.
    pub(crate) fn print<P: Print>(&self, rt: &P) -> io::Result<()> {
        println!(rt; "steps of the generated listings by kind and answer:")?;
        self.print_steps(rt)?;
        self.print_pairs(rt)?;
        self.print_logs(rt)?;
        self.print_kept(rt)?;
        self.print_calls(rt)?;
        println!(rt; "images by recovery's answer, those of cuts and damaged ones:")?;
        self.print_recovered(rt)?;
        self.print_lists(rt)
    }
}

// Prints counts, and ends the line.
fn print_counts<P: Print>(rt: &P, counts: &[u64]) -> io::Result<()> {
    for count in counts {
        print!(rt; " {count:>5}")?;
    }
    println!(rt;)
}

// Prints a row of a table.
fn print_row<P: Print>(rt: &P, name: &str, counts: &[u64]) -> io::Result<()> {
    print!(rt; "{name:<10}")?;
    print_counts(rt, counts)
}

// Prints the rows of answers to claimed undo orders, by how the list was changed.
fn print_changes<P: Print>(rt: &P, rows: &[Lists; 6]) -> io::Result<()> {
    for (change, counts) in CHANGES.iter().zip(rows) {
        print_row(rt, change.name(), &counts.answers)?;
    }
    Ok(())
}
