// Stored jobs. A line: the job, then the program's whole output with each newline written as `\n`. It is right if the
// library gives this output.
ghost use Rattle.notation.specs.Testing.{Tests};
ghost use Rattle.stored.specs.Jobs.{JobRight, SaysAnswer};

use crate::fields::field_bytes;
use job::call::judge_job;
use notation::lines::{TAB, field, separators};
use notation::texts::text_is;

// Is the output for a job the one that is expected?
fn output_right(job: &[u8], expected: &[u8]) -> bool
    ensures { Tests result (SaysAnswer job.now expected.now) }
{
    let output = judge_job(job);
    text_is(expected, output.as_bytes())
}

// Is a line right?
pub fn job_right(line: &[u8]) -> bool
    ensures { Tests result (JobRight line.now) }
{
    if separators(line, TAB) != 1 {
        return false;
    }
    let found = field_bytes(line, 0);
    let Some(job) = &found else {
        return false;
    };
    output_right(job.as_slice(), field(line, 1))
}
