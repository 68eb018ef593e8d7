// The extraction of a sheet: what is noted of its rows, the passes over them, and the answer.
#![tactic(auto)]

use html2text::Extracted;

pub mod passes;
pub mod sized;

// What an extraction gives, and how many bytes of escaped texts its writing read.
#[derive(Clone, Copy, Debug, PartialEq, Eq)]
pub struct Counted {
    pub extracted: Extracted,
    pub read: usize,
}
