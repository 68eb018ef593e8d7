// Single-row questions to a byte string: the sheet's refusals come first, then 35 where the row is not there.
ghost use Rattle.std.specs.Prelude.{◌≡◌};
ghost use Rattle.sheet.specs.Accepted.{Accepted};
ghost use Rattle.sheet.specs.Column.{parent_of};
ghost use Rattle.tree.specs.declared.questions.QuestionError.TheVariants.{Refused};
ghost use Rattle.tree.specs.Questions.{asked_of, lookup_of, numbers, relative_numbers, relative_of};
ghost use Rattle.tree.specs.Rows.{first_child_of, next_sibling_of};

use crate::relatives::{first_child, next_sibling, parent};
use sheet::line::{Layout, Row};
use sheet::read::row_at;
use sheet::verdict::{SheetError, check};

// Why a question has no answer.
#[derive(Clone, Copy, Debug, PartialEq, Eq)]
pub enum QuestionError {
    Refused(SheetError),
    NoRow(usize),
}

impl From<SheetError> for QuestionError {
    ghost from_gives = { λ e r. r ≡ Refused e };

    fn from(e: SheetError) -> QuestionError {
        QuestionError::Refused(e)
    }
}

fn find_row(s: &[u8], l: Layout, i: usize) -> Option<Row>
    requires { Accepted s.now l }
    ensures { result ≡ lookup_of s.now l i }
{
    if i < l.nodes {
        return Some(row_at(s, l, i));
    }
    None
}

// An accepted sheet's layout and the row that is asked for.
pub fn ask(s: &[u8], row: usize) -> Result<(Layout, Row), QuestionError>
    ensures { result ≡ asked_of s.now row }
{
    let l = check(s)?;
    let Some(r) = find_row(s, l, row) else {
        return Err(QuestionError::NoRow(row));
    };
    Ok((l, r))
}

pub fn parent_of(s: &[u8], row: usize) -> Result<Option<usize>, QuestionError>
    ensures { (result ≡ relative_of parent_of s.now row) × (numbers result ≡ relative_numbers parent_of s.now row) }
{
    let (l, _) = ask(s, row)?;
    Ok(parent(s, l, row))
}

pub fn first_child_of(s: &[u8], row: usize) -> Result<Option<usize>, QuestionError>
    ensures { (result ≡ relative_of first_child_of s.now row) × (numbers result ≡ relative_numbers first_child_of s.now row) }
{
    let (l, _) = ask(s, row)?;
    Ok(first_child(s, l, row))
}

pub fn next_sibling_of(s: &[u8], row: usize) -> Result<Option<usize>, QuestionError>
    ensures { (result ≡ relative_of next_sibling_of s.now row) × (numbers result ≡ relative_numbers next_sibling_of s.now row) }
{
    let (l, _) = ask(s, row)?;
    Ok(next_sibling(s, l, row))
}
