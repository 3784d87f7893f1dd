// Definitions and mathematics of history trees; the code is in the crates `tree` and `step`.
#![tactic(auto)]
