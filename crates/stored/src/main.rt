// Stored cases, with results that come from implementations that share nothing with this code, run against the library.
// Prints for each file how many cases it has and how many differ, and names each difference by file and line.
#![tactic(auto)]

mod answers;
mod calls;
mod fields;
mod files;
mod jobs;
mod rules;

use calls::call_right;
use files::run_file;
use jobs::job_right;

fn main(rt: HostRuntime) {
    run_file(&rt, "calls.txt", call_right);
    run_file(&rt, "boundaries.txt", call_right);
    run_file(&rt, "u2-calls.txt", call_right);
    run_file(&rt, "u7-calls.txt", call_right);
    run_file(&rt, "jobs.txt", job_right);
    run_file(&rt, "shortcuts.txt", job_right);
}
