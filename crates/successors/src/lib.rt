// Where a set of states leads under a letter, and by which accepting sets.
#![tactic(auto)]

pub mod call;
