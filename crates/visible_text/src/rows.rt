// `dom_node_walk` over the rows, which are in document order: the next row's depth tells which open rows have no next sibling.
ghost use Rattle.std.specs.Prelude.{cond, ◌≡◌, suc, ◌-◌, ◌≤◌, ◌<◌, leb, length};
ghost use Rattle.sheet.specs.Accepted.{Accepted};
ghost use Rattle.sheet.specs.Layout.{depths, most_depth};
ghost use Rattle.text.specs.Text.{is_ascii_whitespace};
ghost use Rattle.tree.specs.Page.{node_at};
ghost use Rattle.tree.specs.Rows.{children_of, past_of};
ghost use Rattle.writer.specs.Writing.{DoesBy, ReadyBy};
ghost use Rattle.visible_text.specs.Inner.{ends_of};
ghost use Rattle.visible_text.specs.VisibleText.{walk};

use crate::names::PARAGRAPH;
use crate::steps::{begin, insert_block, step_in};
use sheet::line::Layout;
use sheet::read::{depth_at, row_at};
use tree::relatives::past;
use writer::Writer;

// Of so many open rows, the end steps of the innermost ones, until `left` are open.
fn end_rows(
    w: Writer,
    steps: &[u8],
    count: usize,
    left: usize,
    out: &mut [u8],
    write: bool,
) -> Writer
    requires { (count ≤ length steps.now) × ReadyBy is_ascii_whitespace write w out.old (ends_of steps.now count (count - left)) }
    ensures { DoesBy is_ascii_whitespace write w out.old result out.new
        (ends_of steps.now count (count - left)) }
{
    let mut q = w;
    for n in (left..count).rev() {
        q = insert_block(q, steps[n], out, write);
    }
    q
}

// The row that is met after row `k`: the walk goes below the rows of the first three steps alone.
fn next_row(s: &[u8], l: Layout, k: usize, step: u8) -> usize
    requires { Accepted s.now l × (k < l.nodes) }
    ensures { result ≡ cond (leb step 2) (suc k) (past_of (depths s.now l) k) }
{
    if step <= PARAGRAPH {
        return k + 1;
    }
    past(s, l, k)
}

// The walk below `row`; `steps`: of the open rows, by their depth below it.
pub fn dom_node_walk(
    w: Writer,
    s: &[u8],
    l: Layout,
    row: usize,
    steps: &mut [u8],
    out: &mut [u8],
    write: bool,
) -> Writer
    requires accepted { Accepted s.now l × (row < l.nodes) × (most_depth ≤ length steps.old) }
    requires ready_by { ReadyBy is_ascii_whitespace write w out.old (walk (node_at s.now l) (children_of (depths s.now l) row)) }
    ensures { DoesBy is_ascii_whitespace write w out.old result out.new
        (walk (node_at s.now l) (children_of (depths s.now l) row)) }
{
    let nodes = l.nodes;
    let base = depth_at(s, l, row);
    let mut q = w;
    let mut count = 0;
    let mut k = row + 1;
    while k < nodes {
        let r = row_at(s, l, k);
        if r.depth <= base {
            return end_rows(q, steps, count, 0, out, write);
        }
        let depth = r.depth - base;
        q = end_rows(q, steps, count, depth, out, write);
        let step = step_in(s, l, r);
        q = begin(q, s, l, k, r, step, out, write);
        steps[depth - 1] = step;
        count = depth;
        k = next_row(s, l, k, step);
    }
    end_rows(q, steps, count, 0, out, write)
}
