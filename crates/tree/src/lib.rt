// History trees in code: a tree, its record, the check of a record, and the starting record.
#![tactic(auto)]

mod checks;
pub mod nodes;
pub mod packed;
mod reading;
pub mod record;
pub mod sides;
pub mod start;
pub mod writing;
