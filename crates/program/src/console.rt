// Reading from standard input and writing to standard output. No contract can say what is read or written: that this is done is tried in
// the gate, not proved.
ghost use Rattle.std.specs.Prelude.{◌≤◌, length, IfOk};

use crate::input::{answer, room};
use std::io;
use std::io::{Input, Print, Read, Write};

// Reads until there is no more room or the input ends, and says how many bytes were read. Of the reader's own methods none does this:
// `read_exact` fails where the input ends before the room, `read_to_end` needs the heap.
pub fn read_full<R: Read>(input: &mut R, bytes: &mut [u8]) -> io::Result<usize>
    ensures { IfOk result (λ count. count ≤ length bytes.new) }
{
    let mut count = 0;
    while count < bytes.len() {
        let more = input.read(&mut bytes[count..])?;
        if more == 0 {
            break;
        }
        count += more;
    }
    Ok(count)
}

// Reads a job, and prints its answer.
pub fn run<R: Input + Print>(rt: &R) -> io::Result<()> {
    let mut bytes = room();
    let count = read_full(&mut rt.reader(), &mut bytes)?;
    io::writer(rt).write_all(answer(&bytes, count).as_bytes())
}
