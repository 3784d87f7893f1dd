// The plain judge. It knows the table and nothing of trees.
#![tactic(auto)]

pub mod judge;
mod lead;
pub mod limits;
mod matrix;
mod rounds;
mod scratch;
mod search;
mod tail;
