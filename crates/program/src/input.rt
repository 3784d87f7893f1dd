// The program but for reading and writing: the text that answers an input, of which a beginning is read.
ghost use Rattle.std.specs.Prelude.{◌≡◌, replicate, take};
ghost use Rattle.program.specs.Input.{InputAnswer, read_room};

use job::call::{Text, judge_job};
use job::limits::LONGEST;
use std::cmp::min;

// As many bytes of an input as are read. With one more than the longest job has, a longer input is told from the longest job.
pub const READ: usize = LONGEST + 1;

// Room for them.
pub fn room() -> [u8; READ]
    ensures { result ≡ replicate read_room 0 }
{
    [0; READ]
}

// THE PROGRAM'S ANSWER to an input whose beginning stands in the first `count` bytes, or in all of them where there are fewer. The count
// stands beside the bytes, so that the answer is promised for every count.
pub fn answer(bytes: &[u8], count: usize) -> Text
    ensures { InputAnswer (take count bytes.now) result }
{
    judge_job(&bytes[..min(count, bytes.len())])
}
