// The types of an extraction, and what the definitions promise.
#![tactic(auto)]

ghost use Rattle.std.specs.Prelude.{◌≡◌};
ghost use Rattle.html2text.specs.declared.ExtractError.TheVariants.{Refused};

pub mod theorems;

use sheet::verdict::SheetError;

// "list levels to 1,024; open rows to 1,024"
pub const MOST_LEVELS: usize = 1024;

pub const MOST_OPEN_ROWS: usize = 1024;

// `ExtractNode` of html2text.rs, with the number of its tag, and without its text.
#[derive(Clone, Copy, Debug, PartialEq, Eq)]
pub struct ExtractNode {
    pub depth: usize,
    pub pre_depth: usize,
    pub tag: u8,
    pub has_children: bool,
    pub collapse_margins: bool,
    pub block: bool,
    pub big_block: bool,
    pub end: bool,
    pub escape: bool,
}

// How the text of an entry is shown, piece by piece: of a cell's end nothing; its blanks collapsed, and escaped, where so; `empty`: nothing
// was shown yet; `space`: a blank stands before the next byte, or counts as if it did.
#[derive(Clone, Copy, Debug, PartialEq, Eq)]
pub struct Showing {
    pub dropped: bool,
    pub squeeze: bool,
    pub escapes: bool,
    pub empty: bool,
    pub space: bool,
}

// What an extraction gives: a text's visits and length.
#[derive(Clone, Copy, Debug, PartialEq, Eq)]
pub struct Extracted {
    pub visits: usize,
    pub len: usize,
}

// Why it gives none: the sheet is refused; the line of the node whose list level or open row would be one too many; the need of a
// buffer that is too short.
#[derive(Clone, Copy, Debug, PartialEq, Eq)]
pub enum ExtractError {
    Refused(SheetError),
    ListLevels(usize),
    OpenRows(usize),
    WorkTooShort(usize),
    OutTooShort(usize),
}

impl From<SheetError> for ExtractError {
    ghost from_gives = { λ e r. r ≡ Refused e };

    fn from(e: SheetError) -> ExtractError {
        ExtractError::Refused(e)
    }
}
