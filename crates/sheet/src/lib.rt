// The tree sheet: numbers in columns, lines, what is wrong with a sheet, and the readers of an accepted one.
#![tactic(auto)]

pub mod field;
pub mod limits;
pub mod line;
pub mod notes;
pub mod read;
pub mod rows;
pub mod tests;
pub mod theorems;
pub mod verdict;
pub mod write;
