// A log's stretch of an image, read: a thread's own words of a lent image, the words of a slot, and how many entries are present.
#![tactic(auto)]

ghost use Rattle.std.specs.Prelude.{◌≡◌};
ghost use Rattle.reader.specs.Stretch.{stretch_of, word_at, present_of};

use sizes::{ENTRY_WORDS, LSN_WORD, SLOTS, THREADS, words};

// The words of a log in an image.
pub const STRETCH_WORDS: usize = 256;

// Where the heads stand in an image, and where the logs do.
pub const HEADS_AT: usize = 128;

pub const LOGS_AT: usize = 132;

// The words of an image.
pub const IMAGE_WORDS: usize = 1156;

// A thread's own 256 words of an image; an empty part for a thread over 3 or an image that is not of 1,156 words.
#[tactic(auto, unfolding(crate::specs::Stretch::stretch_of))]
pub fn stretch(image: &[u64], thread: usize) -> &[u64]
    ensures { result.now ≡ stretch_of image.now thread }
{
    if THREADS <= thread {
        return &image[0..0];
    }
    if image.len() != IMAGE_WORDS {
        return &image[0..0];
    }
    let first = LOGS_AT + thread * STRETCH_WORDS;
    &image[first..first + STRETCH_WORDS]
}

// A word of the slot of this LSN: 0 past the end of the stretch.
pub fn word(stretch: &[u64], number: u64, index: usize) -> u64
    ensures { result ≡ word_at stretch.now number index }
{
    let first = (number % words::SLOTS) as usize * ENTRY_WORDS;
    // No stretch is as long as the largest number is, so a sum that stops there is past the end too.
    let at = first.saturating_add(index);
    stretch.get(at).copied().unwrap_or(0)
}

// How many LSNs from the head on are found in their slots, up to the first missing one: at most 64, and none over 1,000,000.
pub fn present(stretch: &[u64], head: u64) -> usize
    ensures { result ≡ present_of stretch.now head }
{
    (head..words::LAST_LSN + 1)
        .take(SLOTS)
        .take_while(|number| word(stretch, *number, LSN_WORD) == *number)
        .count()
}
