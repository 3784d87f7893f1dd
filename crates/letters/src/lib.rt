// Reading letters from tree to tree, and following the names of nodes through them. The look-ups and the number of sets go side by side
// from call to call: a struct of the two would only lend the look-ups, which are arrays of arrays, with a lifetime at each function.
#![tactic(auto)]

pub mod follow;
pub mod read;
mod root;
