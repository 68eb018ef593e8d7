// Which rows are main content (`is_main_content` of filters.rs).
#![tactic(auto)]

pub mod attributes;
pub mod classes;
pub mod clusters;
pub mod footer;
pub mod icon;
pub mod main_content;
pub mod names;
pub mod theorems;
pub mod values;
