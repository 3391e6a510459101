// Reading into a lent buffer until it is full or the input ends, and what a program does that answers its input as a whole.
#![tactic(auto)]

ghost use Rattle.std.specs.Prelude.{◌≤◌, ◌<◌, ◌^◌, ◌≡◌, IfOk, length, replicate};

use std::io;
use std::io::{Read, Write};

// Reads until the buffer is full or the input ends, and answers how many bytes it put at the start of the buffer.
pub fn read_full<R: Read>(from: &mut R, buffer: &mut [u8]) -> io::Result<usize>
    ensures { IfOk result (λ count. count ≤ length buffer.new) }
{
    let mut done = 0;
    // A `while`: a read takes as many bytes as it finds, and `read_exact` fails where the input ends before the buffer does.
    while done < buffer.len() {
        let count = from.read(&mut buffer[done..])?;
        if count == 0 {
            break;
        }
        done += count;
    }
    Ok(done)
}

// Reads standard input, of which at most so many bytes are kept, has the function write its answer to a buffer of so many bytes, and
// writes to standard output, in one write, as much of the buffer as the function says that the answer takes. It returns
// how many bytes it wrote: as many as the function may answer for some input to a buffer of zeros.
pub fn answer_input<
    const MOST_READ: usize,
    const ROOM: usize,
    F: FnOnce(&[u8], &mut [u8]) -> usize,
>(rt: HostRuntime, answer: F) -> io::Result<usize>
    requires sizes { (MOST_READ < 2 ^ 63) × (ROOM < 2 ^ 63) }
    requires callable { F.IsAlwaysCallable answer }
    requires fits { (input : _) (output : _) (count : _) (output_after : _) → F.post answer input output count output_after → count ≤ ROOM }
    ensures in_bounds { IfOk result (λ count. count ≤ ROOM) }
    ensures value { IfOk result (λ count. (input : _) × (output : _) × (output_after : _) × (length input.now ≤ MOST_READ) × (output.now ≡ replicate ROOM 0) × F.post answer input output count output_after) }
{
    let mut input = [0u8; MOST_READ];
    let mut output = [0u8; ROOM];
    let count = read_full(&mut rt.stdin(), &mut input)?;
    let end = answer(&input[..count], &mut output);
    io::writer(&rt).write_all(&output[..end])?;
    Ok(end)
}
