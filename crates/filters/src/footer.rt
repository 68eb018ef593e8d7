// The rows above a row: the nearest body, and what stands behind a footer and the rows above it.
ghost use Rattle.std.specs.Prelude.{◌≡◌, ◌<◌};
ghost use Rattle.sheet.specs.Accepted.{Accepted};
ghost use Rattle.sheet.specs.Layout.{depths};
ghost use Rattle.tree.specs.Page.{node_at};
ghost use Rattle.tree.specs.Rows.{next_sibling_of, past_of};
ghost use Rattle.filters.specs.Footer.{Above, body_above, content_follows, followed, is_body};

use sheet::line::Layout;
use sheet::read::{depth_at, part, row_at};
use tree::relatives::{next_sibling, parent, past, past_from};

fn is_body(s: &[u8], l: Layout, i: usize) -> bool
    requires { Accepted s.now l × (i < l.nodes) }
    ensures { result ≡ is_body (node_at s.now l i) }
{
    let row = row_at(s, l, i);
    row.kind == 1 && common::same(part(s, l, row.name_at, row.name_len), b"body")
}

// The nearest row named body at or above row i.
pub fn body_above(s: &[u8], l: Layout, i: usize) -> usize
    requires { Accepted s.now l × (i < l.nodes) }
    ensures { result ≡ body_above (node_at s.now l) (depths s.now l) i }
{
    let mut row = i;
    while row > 0 {
        if is_body(s, l, row) {
            return row;
        }
        let Some(above) = parent(s, l, row) else {
            return row;
        };
        row = above;
    }
    row
}

// Whether content follows row, end being the first row past it.
fn content_follows(s: &[u8], l: Layout, row: usize, end: usize) -> bool
    requires { Accepted s.now l × (row < l.nodes) × (end ≡ past_of (depths s.now l) row) }
    ensures { result ≡ content_follows (node_at s.now l) (depths s.now l) (next_sibling_of (depths s.now l) row) }
{
    if l.nodes <= end {
        return false;
    }
    let next = row_at(s, l, end);
    next.depth == depth_at(s, l, row) && (next.kind != 3 || next_sibling(s, l, end).is_some())
}

// The loop over a footer's parents, which stand in `stack` by their depths.
pub fn followed(s: &[u8], l: Layout, i: usize, stack: &[usize]) -> bool
    requires { Accepted s.now l × (i < l.nodes) × Above (depths s.now l) i stack.now }
    ensures { result ≡ followed (node_at s.now l) (depths s.now l) i }
{
    let mut row = i;
    let mut end = past(s, l, i);
    for depth in (0..depth_at(s, l, i)).rev() {
        let above = stack[depth];
        if is_body(s, l, above) {
            return false;
        }
        if content_follows(s, l, row, end) {
            return true;
        }
        end = past_from(s, l, depth, end);
        row = above;
    }
    false
}
