// Both judges side by side, and their agreement: demand 3.
#![tactic(auto)]

pub mod both;
