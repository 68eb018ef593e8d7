// A decoded sheet and its bytes, at any width of numbers.
#![tactic(auto)]

pub mod in_place;
pub mod theorems;
pub mod write;
