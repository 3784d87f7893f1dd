// Walks written in two ways: are they one?
#![tactic(auto)]

pub mod same;
