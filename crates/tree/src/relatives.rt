// The rows that stand by a row in the tree of an accepted sheet.
ghost use Rattle.std.specs.Prelude.{◌≡◌, ◌+◌, ◌≤◌, ◌<◌, drop};
ghost use Rattle.sheet.specs.Accepted.{Accepted};
ghost use Rattle.sheet.specs.Column.{parent_of};
ghost use Rattle.sheet.specs.Layout.{depths};
ghost use Rattle.tree.specs.Rows.{first_child_of, next_sibling_of, past_from, past_of, scan_of};

use sheet::line::Layout;
use sheet::read::depth_at;

// The last earlier row that is one less deep.
pub fn parent(s: &[u8], l: Layout, i: usize) -> Option<usize>
    requires { Accepted s.now l × (i < l.nodes) }
    ensures { result ≡ parent_of (depths s.now l) i }
{
    let d = depth_at(s, l, i);
    for above in (0..i).rev() {
        if depth_at(s, l, above) + 1 == d {
            return Some(above);
        }
    }
    None
}

// The first row from row from on at depth d, before any that is less deep.
fn scan(s: &[u8], l: Layout, d: usize, from: usize) -> Option<usize>
    requires { Accepted s.now l × (from ≤ l.nodes) }
    ensures { result ≡ scan_of d from (drop from (depths s.now l)) }
{
    for j in from..l.nodes {
        let x = depth_at(s, l, j);
        if x < d {
            return None;
        }
        if x == d {
            return Some(j);
        }
    }
    None
}

pub fn first_child(s: &[u8], l: Layout, i: usize) -> Option<usize>
    requires { Accepted s.now l × (i < l.nodes) }
    ensures { result ≡ first_child_of (depths s.now l) i }
{
    let d = depth_at(s, l, i);
    scan(s, l, d + 1, i + 1)
}

pub fn next_sibling(s: &[u8], l: Layout, i: usize) -> Option<usize>
    requires { Accepted s.now l × (i < l.nodes) }
    ensures { result ≡ next_sibling_of (depths s.now l) i }
{
    let d = depth_at(s, l, i);
    scan(s, l, d, i + 1)
}

// The first row from row from on that is not deeper than d.
pub fn past_from(s: &[u8], l: Layout, d: usize, from: usize) -> usize
    requires { Accepted s.now l × (from ≤ l.nodes) }
    ensures { result ≡ past_from d from (drop from (depths s.now l)) }
{
    for j in from..l.nodes {
        if depth_at(s, l, j) <= d {
            return j;
        }
    }
    l.nodes
}

// The first row past row i and all below it.
pub fn past(s: &[u8], l: Layout, i: usize) -> usize
    requires { Accepted s.now l × (i < l.nodes) }
    ensures { result ≡ past_of (depths s.now l) i }
{
    past_from(s, l, depth_at(s, l, i), i + 1)
}
