// Rules: their limits, and the look-up of successors.
#![tactic(auto)]

pub mod lanes;
pub mod limits;
pub mod lookup;
