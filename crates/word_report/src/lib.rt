// What is printed of a file of Counts, byte for byte.
#![tactic(auto)]

pub mod report;
pub mod text;
mod words;
