// The other text of a row: `node_format_visible_text` of serialize.rs, over a sheet.
#![tactic(auto)]

ghost use Rattle.std.specs.Prelude.{◌≡◌, ◌≤◌, ◌<◌, length};
ghost use Rattle.sheet.specs.Accepted.{Accepted};
ghost use Rattle.sheet.specs.Layout.{depths, most_depth};
ghost use Rattle.tree.specs.Page.{node_at};
ghost use Rattle.visible_text.specs.Answers.{answered_in, holding, of_question, visible_text_in, visible_text_out};
ghost use Rattle.visible_text.specs.VisibleText.{visible};

use crate::bound::bound;
use crate::names::INLINE;
use crate::rows::dom_node_walk;
use sheet::limits::MOST_DEPTH;
use sheet::line::Layout;
use sheet::verdict::SheetError;
use tree::questions::{QuestionError, ask};
use writer::Writer;

mod bound;
mod names;
mod rows;
mod steps;
mod texts;
pub mod theorems;
mod white_space;

// Why there is no text, or none that is whole: with what is wrong with the sheet, the row, or the need.
#[derive(Clone, Copy, Debug, PartialEq, Eq)]
pub enum VisibleTextError {
    Refused(SheetError),
    NoRow(usize),
    TooShort(usize),
}

impl From<QuestionError> for VisibleTextError {
    ghost from_gives = { λ e r. r ≡ of_question e };

    fn from(e: QuestionError) -> VisibleTextError {
        match e {
            QuestionError::Refused(e) => VisibleTextError::Refused(e),
            QuestionError::NoRow(i) => VisibleTextError::NoRow(i),
        }
    }
}

// A length that is enough for the text of a row: the bound, or the need itself, measured, where `out` is shorter than the bound.
fn enough(s: &[u8], l: Layout, row: usize, steps: &mut [u8], out: &mut [u8]) -> usize
    requires { Accepted s.now l × (row < l.nodes) × (most_depth ≤ length steps.old) }
    ensures same { out.new ≡ out.old }
    ensures most { (visible (node_at s.now l) (depths s.now l) row).peak ≤ result }
    ensures need { length out.old < result
        → result ≡ (visible (node_at s.now l) (depths s.now l) row).peak }
{
    let most = bound(s, l, row);
    if most <= out.len() {
        return most;
    }
    let measured = dom_node_walk(Writer::START, s, l, row, steps, out, false);
    measured.peak
}

// The text of a row of an accepted sheet, written where `out` is long enough.
fn visible_in(s: &[u8], l: Layout, row: usize, out: &mut [u8]) -> Result<usize, VisibleTextError>
    requires { Accepted s.now l × (row < l.nodes) }
    ensures answer { result
        ≡ answered_in (visible (node_at s.now l) (depths s.now l) row) (length out.old) }
    ensures buffer { out.new
        ≡ holding (visible (node_at s.now l) (depths s.now l) row) out.old }
{
    let mut steps = [INLINE; MOST_DEPTH];
    let need = enough(s, l, row, &mut steps, out);
    if out.len() < need {
        return Err(VisibleTextError::TooShort(need));
    }
    let written = dom_node_walk(Writer::START, s, l, row, &mut steps, out, true);
    let n = written.len;
    common::clear(out, n);
    Ok(n)
}

// The visible text of a row, and zeros behind it.
pub fn visible_text(sheet: &[u8], row: usize, out: &mut [u8]) -> Result<usize, VisibleTextError>
    ensures answer { result ≡ visible_text_in sheet.now row (length out.old) }
    ensures buffer { out.new ≡ visible_text_out sheet.now row out.old }
{
    let (l, _) = ask(sheet, row)?;
    visible_in(sheet, l, row, out)
}
