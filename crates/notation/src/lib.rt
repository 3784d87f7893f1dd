// How stored cases write numbers, byte strings and texts.
#![tactic(auto)]

pub mod bytes;
pub mod decimal;
pub mod hexadecimal;
pub mod lines;
pub mod texts;
