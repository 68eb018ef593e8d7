// Rows that are right in every way, one after the other.
ghost use Rattle.std.specs.Prelude.{◌≡◌, ◌<◌, ◌≤◌};
ghost use Rattle.sheet.specs.Layout.{node_start, pool_start};
ghost use Rattle.sheet.specs.Notes.{Sized, Whole, row_in};

use crate::line::{Layout, Row, read_node_line};
use crate::tests::row_right;

// Row i, whose line is at at and whose attributes stand behind first others, where the rows before it are right; none where it is not right.
pub fn row_in(
    s: &[u8],
    l: Layout,
    start: usize,
    whole: bool,
    i: usize,
    before: Row,
    at: usize,
    first: usize,
) -> Option<Row>
    requires start_value { (start ≡ pool_start l) × Sized s.now l × Whole s.now l whole }
    requires i_lt_nodes { (i < l.nodes) × (at ≡ node_start l i) × (first ≤ l.attributes) }
    ensures { result ≡ row_in s.now l i before at first }
{
    let r = read_node_line(s, at, l.width)?;
    if !row_right(&s[start..], whole, i, before, r) {
        return None;
    }
    if r.attributes > l.attributes - first {
        return None;
    }
    Some(r)
}
