// What everything rests on: tests of bytes, parts that stand behind their length, and the refusals by number.
#![tactic(auto)]

pub mod bytes;
pub mod part;
pub mod refusal;
