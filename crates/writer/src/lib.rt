// A log's stretch of an image, written: over a lent part, and with the thread's head into a whole image.
#![tactic(auto)]

ghost use Rattle.std.specs.Prelude.{◌≡◌, ◌<◌, length};
ghost use Rattle.sizes.specs.Sizes.{thread_count};
ghost use Rattle.reader.specs.Stretch.{image_words};
ghost use Rattle.writer.specs.Written.{written_of, log_into};

use reader::{HEADS_AT, LOGS_AT, STRETCH_WORDS};
use sizes::ENTRY_WORDS;
use thread_log::Log;

// The first 256 words of the part become the log's persisted ones; a part that is too short stays as it was.
pub fn write_stretch(log: &Log, part: &mut [u64])
    ensures { part.new ≡ written_of log.now part.old }
{
    if part.len() < STRETCH_WORDS {
        return;
    }
    for (index, word) in part[..STRETCH_WORDS].iter_mut().enumerate() {
        *word = log.persisted[index / ENTRY_WORDS].word(index % ENTRY_WORDS);
    }
}

// Writes a thread's head, and its log's stretch from the thread's first word on, into an image. Thread and length are asked as a place in
// the image and its words: types that say so would be unwrapped here.
pub fn write_log(log: &Log, thread: usize, image: &mut [u64])
    requires { (thread < thread_count) × (length image.old ≡ image_words) }
    ensures { image.new ≡ log_into log.now thread image.old }
{
    image[HEADS_AT + thread] = log.head.0 as u64;
    write_stretch(log, &mut image[LOGS_AT + thread * STRETCH_WORDS..]);
}
