// Text content of a row of an accepted sheet, after collapsing: its length.
ghost use Rattle.std.specs.Prelude.{◌≡◌, ◌*◌, ◌≤◌, ◌<◌};
ghost use Rattle.sheet.specs.Accepted.{Accepted};
ghost use Rattle.sheet.specs.Layout.{depths, most_rows, row_at};
ghost use Rattle.tree.specs.Page.{node_at, widest_pool};
ghost use Rattle.tree.specs.TextContent.{text_data};
ghost use Rattle.tree.specs.TextLength.{length_numbers, length_of, numbers, squeezed_on, text_length};

use crate::questions::{QuestionError, ask};
use sheet::line::Layout;
use sheet::read::{depth_at, part, row_at};
use text::{Squeezed, collapsed_from, collapsed_len};

// A collapsed text with the data of row j more.
fn add_row(s: &[u8], l: Layout, j: usize, p: Squeezed) -> Squeezed
    requires { Accepted s.now l × (j < l.nodes) × (p.len ≤ most_rows * widest_pool) }
    ensures { result ≡ squeezed_on p (text_data (node_at s.now l j)) }
{
    let r = row_at(s, l, j);
    if r.kind != 3 {
        return p;
    }
    let q = collapsed_from(part(s, l, r.value_at, r.value_len), p.space);
    Squeezed {
        len: p.len + q.len,
        space: q.space,
    }
}

// The texts below row i, in one pass over the rows behind it up to the first one past.
fn length_below(s: &[u8], l: Layout, i: usize) -> usize
    requires { Accepted s.now l × (i < l.nodes) × ((row_at s.now l i).kind ≡ 1) }
    ensures { result ≡ text_length (node_at s.now l) (depths s.now l) i }
{
    let d = depth_at(s, l, i);
    let mut p = Squeezed {
        len: 0,
        space: false,
    };
    for j in i + 1..l.nodes {
        if depth_at(s, l, j) <= d {
            return p.len;
        }
        p = add_row(s, l, j, p);
    }
    p.len
}

pub fn text_length(s: &[u8], l: Layout, i: usize) -> usize
    requires { Accepted s.now l × (i < l.nodes) }
    ensures { result ≡ text_length (node_at s.now l) (depths s.now l) i }
{
    let r = row_at(s, l, i);
    if r.kind == 1 {
        return length_below(s, l, i);
    }
    collapsed_len(part(s, l, r.value_at, r.value_len))
}

pub fn text_length_of(s: &[u8], row: usize) -> Result<usize, QuestionError>
    ensures { (result ≡ length_of s.now row) × (numbers result ≡ length_numbers s.now row) }
{
    let (l, _) = ask(s, row)?;
    Ok(text_length(s, l, row))
}
