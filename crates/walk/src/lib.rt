// The walk over the rows of an accepted sheet.
#![tactic(auto)]

pub mod cursor;
pub mod names;
pub mod rows;
