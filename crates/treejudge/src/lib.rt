// The tree judge: it follows a walk's history trees to their first repeat, and gives its verdict by names. Look-ups and the number of sets go
// side by side, as in `letters`.
#![tactic(auto)]

mod cycle;
mod entry;
pub mod judge;
mod name;
mod repeat;
mod same;
