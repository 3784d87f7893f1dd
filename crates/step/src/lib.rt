// One letter: the next tree of a tree, and the call on records.
#![tactic(auto)]

pub mod call;
pub mod pass;
