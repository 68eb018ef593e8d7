// Definitions and laws only: two f64 quotients of whole numbers.
#![tactic(auto)]

pub mod theorems;
