// How long a text can get at most, by the numbers of its rows alone.
ghost use Rattle.std.specs.Prelude.{◌≡◌, ◌≤◌, ◌<◌};
ghost use Rattle.sheet.specs.Accepted.{Accepted};
ghost use Rattle.sheet.specs.Layout.{depths, row_at};
ghost use Rattle.sheet.specs.Notes.{Lined};
ghost use Rattle.tree.specs.Page.{node_at};
ghost use Rattle.visible_text.specs.VisibleText.{visible};

use sheet::line::Layout;
use sheet::read::{depth_at, digits_at};

// Where the value's length stands among the eight numbers of a row.
const VALUE_LEN: usize = 6;

// The most LFs of a row: two at its begin and two at its end.
const FEEDS: usize = 4;

// The length of the value of row `i`.
fn value_len_at(s: &[u8], l: Layout, i: usize) -> usize
    requires { Lined s.now l × (i < l.nodes) }
    ensures { result ≡ (row_at s.now l i).value_len }
{
    let width = l.width;
    digits_at(
        s,
        4 * width + 1 + (8 * width + 1) * i + VALUE_LEN * width,
        width,
    )
}

// No less than the text of `row` needs: the lengths of all values below it, and the LFs.
pub fn bound(s: &[u8], l: Layout, row: usize) -> usize
    requires { Accepted s.now l × (row < l.nodes) }
    ensures { (visible (node_at s.now l) (depths s.now l) row).peak ≤ result }
{
    let d = depth_at(s, l, row);
    let mut n = 0;
    for j in row + 1..l.nodes {
        if depth_at(s, l, j) <= d {
            return n;
        }
        n += value_len_at(s, l, j) + FEEDS;
    }
    n
}
