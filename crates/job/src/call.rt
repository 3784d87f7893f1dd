// One job: its parts, both judges, and the text of the answer.
ghost use Rattle.std.specs.Prelude.{◌≡◌, take};
ghost use Rattle.word.specs.Judging.{walk_questions};
ghost use Rattle.job.specs.JobCall.{JobAnswer, PartsAnswers};

use crate::lines::{five_lines, refusal_line};
use crate::split::split_job;
use agree::both::judge_both;
use plain::limits::SCRATCH_LENGTH;
use std::cmp::min;
use tree::nodes::Tree;

// The length of a text's array: no answer to a job has more bytes.
pub const ROOM: usize = 128;

// A text: its bytes are the first `length` ones, zeros stand behind them. An array with its length, for a library has no heap. That the
// length fits is no ghost field: `text_of` of the contract is a text for every list of bytes, longer ones too.
#[derive(Clone, Copy)]
pub struct Text {
    pub bytes: [u8; ROOM],
    pub length: usize,
}

impl Text {
    // The bytes without the zeros.
    pub fn as_bytes(&self) -> &[u8]
        ensures { result.now ≡ take self.now.length self.now.bytes }
    {
        &self.bytes[..min(self.length, ROOM)]
    }
}

// Questions 1 to 6 to the table, 7 and 8 to the walk; then the five lines. Number and verdict are bytes, as the answers of the C calls have
// them.
fn judge_parts<'a>(table: &[u8], u: &'a [u8], v: &'a [u8]) -> Text
    ensures { PartsAnswers (walk_questions table.now u.now v.now) u.now v.now result }
{
    let mut names = [0; Tree::NAME];
    let mut scratch = [0; SCRATCH_LENGTH];
    let answers = judge_both(table, u, v, &mut names, &mut scratch);
    let tree = answers.tree;
    if tree.number != 0 {
        return refusal_line(tree.number);
    }
    five_lines(tree, names, answers.plain.verdict)
}

// THE CALL OF THE PROGRAM: a job's bytes to the text that is printed. Question 12, then the questions of the judges.
pub fn judge_job(job: &[u8]) -> Text
    ensures { JobAnswer job.now result }
{
    match split_job(job) {
        Err(refusal) => refusal_line(refusal.into()),
        Ok(ends) => {
            let u = ends.table + 2;
            let v = ends.lead + 2;
            judge_parts(&job[2..ends.table], &job[u..ends.lead], &job[v..])
        }
    }
}
