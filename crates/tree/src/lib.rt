// The DOM tree of an accepted sheet.
#![tactic(auto)]

pub mod attributes;
pub mod content;
pub mod questions;
pub mod relatives;
pub mod theorems;
