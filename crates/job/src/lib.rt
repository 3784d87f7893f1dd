// Jobs: question 12, both judges, and the lines that are printed.
#![tactic(auto)]

pub mod call;
pub mod limits;
mod lines;
mod split;
mod text;
