// The program: an input is read, answered and printed. All but reading and writing is in `input`.
#![tactic(auto)]

pub mod console;
pub mod input;
