// An image as it is read: the tests of an image alone, 21 to 23, and its present entries. Stands on the stated behaviour of the log's
// reader.
#![tactic(auto)]

ghost use Rattle.std.specs.Prelude.{◌≡◌, ℕ, false, not, ◌||◌, [], ◌<◌, length, ltb, MatchResult, Ok, Err};
ghost use Rattle.sizes.specs.Sizes.{thread_count, lock_count};
ghost use Rattle.answer.specs.Lists.{some_below};
ghost use Rattle.answer.specs.Refusals.{first_refusal};
ghost use Rattle.ring.specs.Ring.{lsn};
ghost use Rattle.reader.specs.Stretch.{image_words};
ghost use Rattle.image.specs.Stored.{present_in, present_entries};
ghost use Rattle.image.specs.Tests.{last_sync_count, is_bad_head, is_bad_entry, has_bad_entry, image_tests};
ghost use Rattle.image.specs.Reading.{log_of, log_in, entry_in, is_bad, Headed, tested_of};

use answer::Refusal;
use reader::{HEADS_AT, IMAGE_WORDS, LOGS_AT};
use ring::Lsn;
use sizes::{THREADS, words};
use std::array;

// What an entry of an image says: document 01's kind, place and value. Any words, so no `Payload`, whose kind and place are bytes.
#[derive(Clone, Copy)]
pub struct Entry {
    pub kind: u64,
    pub place: u64,
    pub value: u64,
}

// An image that tests 21 and 22 let pass: of 1,156 words, with heads that are LSNs, or the number after the last one.
#[derive(Clone, Copy)]
pub struct HeadedImage<'a> {
    pub words: &'a [u64],
    pub ghost long: { length words.now ≡ image_words },
    pub ghost heads: { (thread : ℕ) → thread < thread_count → is_bad_head (log_in words.now thread) ≡ false },
}

// An image that test 23 lets pass too, and how many present entries each thread has.
#[derive(Clone, Copy)]
pub struct TestedImage<'a> {
    pub headed: HeadedImage<'a>,
    pub present: [usize; THREADS],
    pub ghost good: { (thread : ℕ) → thread < thread_count → has_bad_entry (log_in headed.words.now thread) ≡ false },
    pub ghost counted: { present ≡ present_entries headed.words.now },
}

// What the entry says that has so many entries before it. A slot is an LSN mod 64, so 64s may be left out, and the sum can't wrap.
fn read_entry(stretch: &[u64], head: Lsn, index: usize) -> Entry
    ensures { result ≡ entry_in (log_of stretch.now head.0) index }
{
    let number = u64::from(head.0) + index as u64 % words::SLOTS;
    Entry {
        kind: reader::word(stretch, number, 0),
        place: reader::word(stretch, number, 1),
        value: reader::word(stretch, number, 2),
    }
}

// A head outside 1 to 1,000,001.
#[tactic(auto, unfolding(crate::specs::Tests::is_bad_head))]
fn is_bad_head(head: u64) -> bool
    ensures { result ≡ is_bad_head (log_of [] head) }
{
    head == 0 || words::LAST_HEAD < head
}

// A bad lock, or a lock count over 4,000,000.
fn is_bad_lock(lock: u64, count: u64) -> bool
    ensures { result ≡ (not (ltb lock lock_count) || ltb last_sync_count count) }
{
    words::LOCKS <= lock || words::LAST_COUNT < count
}

// A bad kind or place, or a lock count over 4,000,000.
#[tactic(auto, unfolding(crate::specs::Tests::is_bad_entry))]
fn is_bad_entry(entry: Entry) -> bool
    ensures { result ≡ is_bad_entry entry.kind entry.place entry.value }
{
    match entry.kind {
        event::words::STORE_ENTRY => words::CELLS <= entry.place,
        event::words::ACQUIRE_ENTRY | event::words::RELEASE_ENTRY => {
            is_bad_lock(entry.place, entry.value)
        }
        _ => true,
    }
}

// Some thread's head is bad.
fn has_bad_heads(image: &[u64]) -> bool
    requires { length image.now ≡ image_words }
    ensures { result ≡ some_below thread_count (λ thread. is_bad_head (log_in image.now thread)) }
{
    image[HEADS_AT..LOGS_AT]
        .iter()
        .any(|head| is_bad_head(*head))
}

// A thread is asked below 4 here, as an index: a type that says so would be unwrapped at each array.
impl<'a> HeadedImage<'a> {
    // The LSN of a thread's head.
    pub fn head(self, thread: usize) -> Lsn
        requires { thread < thread_count }
        ensures { result ≡ lsn (log_in self.entry.words.now thread).head }
    {
        Lsn(self.words[HEADS_AT + thread] as u32)
    }

    // What a thread's entry says that has so many entries before it.
    pub fn entry(self, thread: usize, index: usize) -> Entry
        requires { thread < thread_count }
        ensures { result ≡ entry_in (log_in self.entry.words.now thread) index }
    {
        let stretch = reader::stretch(self.words, thread);
        read_entry(stretch, self.head(thread), index)
    }

    // How many present entries a thread has.
    fn present(self, thread: usize) -> usize
        requires { thread < thread_count }
        ensures { result ≡ present_in (log_in self.entry.words.now thread) }
    {
        let stretch = reader::stretch(self.words, thread);
        reader::present(stretch, self.head(thread).0 as u64)
    }

    // How many present entries each thread has.
    fn present_entries(self) -> [usize; THREADS]
        ensures { result ≡ present_entries self.entry.words.now }
    {
        array::from_fn(|thread| self.present(thread))
    }

    // Some of the first entries of a thread is bad.
    fn has_bad_entry(self, thread: usize, count: usize) -> bool
        requires { thread < thread_count }
        ensures { result ≡ some_below count (λ index. is_bad (entry_in (log_in self.entry.words.now thread) index)) }
    {
        let stretch = reader::stretch(self.words, thread);
        let head = self.head(thread);
        (0..count).any(|index| is_bad_entry(read_entry(stretch, head, index)))
    }

    // Some thread has a bad entry among those that are present.
    fn has_bad_entries(self, present: [usize; THREADS]) -> bool
        requires { present ≡ present_entries self.words.now }
        ensures { result ≡ some_below thread_count (λ thread. has_bad_entry (log_in self.entry.words.now thread)) }
    {
        (0..THREADS).any(|thread| self.has_bad_entry(thread, present[thread]))
    }
}

// What a thread's entry says that has so many entries before it.
pub fn entry_of(image: &[u64], thread: usize, index: usize) -> Entry
    requires { Headed image.now × (thread < thread_count) }
    ensures { result ≡ entry_in (log_in image.now thread) index }
{
    HeadedImage { words: image }.entry(thread, index)
}

// The first two tests of an image: 21 for its length, then 22.
fn headed(image: &[u64]) -> Result<HeadedImage<'_>, Refusal>
    ensures { MatchResult result (λ headed. headed.words.now ≡ image.now) (λ refusal. first_refusal (image_tests image.now) ≡ Err refusal) }
{
    if image.len() != IMAGE_WORDS {
        return Err(Refusal::WrongLength);
    }
    if has_bad_heads(image) {
        return Err(Refusal::BadHead);
    }
    Ok(HeadedImage { words: image })
}

// Tests an image alone: 21 for its length, then 22, then 23.
pub fn test(image: &[u64]) -> Result<TestedImage<'_>, Refusal>
    ensures { MatchResult result (λ tested. (tested.headed.words.now ≡ image.now) × (tested_of image.now ≡ Ok tested.present))
        (λ refusal. tested_of image.now ≡ Err refusal) }
{
    let headed = headed(image)?;
    let present = headed.present_entries();
    if headed.has_bad_entries(present) {
        return Err(Refusal::BadEntry);
    }
    Ok(TestedImage { headed, present })
}
