// Cuts the listing on standard input at the start and after each step, tries every choice of evicted lines at each cut, and writes a line
// for each.
#![tactic(auto)]

use input::answer_input;
use listing::{INPUT_ROOM, TRANSCRIPT_ROOM};
use std::io;

fn main(rt: HostRuntime) -> io::Result<()> {
    answer_input::<INPUT_ROOM, TRANSCRIPT_ROOM, _>(rt, cuts::all_cuts)?;
    Ok(())
}
