// The listing program: marks the listing on standard input, and writes the transcript to standard output in one write.
#![tactic(auto)]

use input::answer_input;
use listing::{INPUT_ROOM, TRANSCRIPT_ROOM};
use std::io;

fn main(rt: HostRuntime) -> io::Result<()> {
    answer_input::<INPUT_ROOM, TRANSCRIPT_ROOM, _>(rt, listing::transcript)?;
    Ok(())
}
