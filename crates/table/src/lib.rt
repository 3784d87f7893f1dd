// Rule tables: reader, writer, a table read into arrays of arrays; the questions to a table and a letter.
#![tactic(auto)]

mod byte_reader;
mod cells;
mod grid;
pub mod header;
pub mod letter;
pub mod reader;
pub mod writer;
