// `collect` of html2text.rs: the entry that a visit to a row opens, and what the visit adds to the text of the open one.
#![tactic(auto)]

pub mod added;
pub mod entry;
pub mod tests;

// A row at its beginning or at its end: its number, the number of its tag, its first attribute line and where its value lies; whether it
// has children, and its depth below the root.
#[derive(Clone, Copy, Debug, PartialEq, Eq)]
pub struct Visit {
    pub row: usize,
    pub first: usize,
    pub value_at: usize,
    pub value_len: usize,
    pub depth: usize,
    pub tag: u8,
    pub children: bool,
    pub end: bool,
}
