// The three parts of a job: question 12.
ghost use Rattle.job.specs.JobCall.{job_parts};
ghost use Rattle.job.specs.Inner.SplitCode.{Splits};

use crate::limits::{LONGEST, SHORTEST};
use base::part::part_end;
use base::refusal::Refusal;

// Where table and lead-in end. The tail ends with the job's last byte.
#[derive(Clone, Copy)]
pub struct Ends {
    pub table: usize,
    pub lead: usize,
}

// QUESTION 12: "has the job 6 to 9,354 bytes, and do its three parts end exactly with its last byte?"
pub fn split_job(job: &[u8]) -> Result<Ends, Refusal>
    ensures { Splits (job_parts job.now) job.now result }
{
    if job.len() < SHORTEST || LONGEST < job.len() {
        return Err(Refusal::JobMisfit);
    }
    let table = part_end(job, 0).ok_or(Refusal::JobMisfit)?;
    let lead = part_end(job, table).ok_or(Refusal::JobMisfit)?;
    let tail = part_end(job, lead).ok_or(Refusal::JobMisfit)?;
    if tail < job.len() {
        return Err(Refusal::JobMisfit);
    }
    Ok(Ends { table, lead })
}
