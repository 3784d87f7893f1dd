// Walks over a rule: the questions put to a walk, its letters, and their look-ups.
#![tactic(auto)]

pub mod lookups;
pub mod questions;
pub mod walk;
