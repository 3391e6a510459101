// Marks the claimed undo order at the end of the listing on standard input, and writes what it is answered to standard output in one write.
#![tactic(auto)]

use claimed::VERDICT_ROOM;
use input::answer_input;
use listing::INPUT_ROOM;
use std::io;

fn main(rt: HostRuntime) -> io::Result<()> {
    answer_input::<INPUT_ROOM, VERDICT_ROOM, _>(rt, claimed::verdict)?;
    Ok(())
}
