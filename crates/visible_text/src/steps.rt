// The begin and the end step of a row: `node_format_cb_begin` and `node_format_cb_end`.
ghost use Rattle.std.specs.Prelude.{◌≡◌, ℕ, ◌+◌, ◌≤◌, ◌<◌};
ghost use Rattle.sheet.specs.Accepted.{Accepted};
ghost use Rattle.sheet.specs.Layout.{depths, row_at};
ghost use Rattle.sheet.specs.Notes.{Lined};
ghost use Rattle.text.specs.Text.{is_ascii_whitespace};
ghost use Rattle.tree.specs.Node.{element};
ghost use Rattle.tree.specs.Page.{node_at};
ghost use Rattle.tree.specs.Rows.{children_of};
ghost use Rattle.tree.specs.TextContent.{text_content, text_data};
ghost use Rattle.writer.specs.Out.{push_all};
ghost use Rattle.writer.specs.Writing.{DoesBy, ReadyBy};
ghost use Rattle.visible_text.specs.Inner.{insert_by, step_at};
ghost use Rattle.visible_text.specs.VisibleText.{begin};

use crate::names::{BLOCK, BR, INLINE, PARAGRAPH, PRE, SILENT, step_of};
use crate::texts::{add_text, push, push_str};
use sheet::line::{Layout, Row};
use sheet::read::{depth_at, part, row_at};
use writer::Writer;

// What the steps make of the row whose numbers are `r`: a text is inline, and nothing is made of a comment.
pub fn step_in(s: &[u8], l: Layout, r: Row) -> u8
    requires { Lined s.now l × (r.name_at + r.name_len ≤ l.pool) }
    ensures { (i : ℕ) → r ≡ row_at s.now l i → result ≡ step_at (node_at s.now l) i }
{
    if r.kind == 1 {
        return step_of(part(s, l, r.name_at, r.name_len));
    }
    if r.kind == 3 {
        return INLINE;
    }
    SILENT
}

// A block's LFs, behind a text without the blanks at its end.
pub fn insert_block(w: Writer, step: u8, out: &mut [u8], write: bool) -> Writer
    requires { ReadyBy is_ascii_whitespace write w out.old (insert_by step) }
    ensures { DoesBy is_ascii_whitespace write w out.old result out.new (insert_by step) }
{
    match step {
        BLOCK | PRE => push(w.trim_end(), b'\n', out, write),
        PARAGRAPH => push_str(w.trim_end(), b"\n\n", out, write),
        _ => w,
    }
}

// The data of row `i`, where it is a text.
fn push_data(w: Writer, s: &[u8], l: Layout, i: usize, out: &mut [u8], write: bool) -> Writer
    requires accepted { Accepted s.now l × (i < l.nodes) }
    requires ready_by { ReadyBy is_ascii_whitespace write w out.old (push_all (text_data (node_at s.now l i))) }
    ensures { DoesBy is_ascii_whitespace write w out.old result out.new
        (push_all (text_data (node_at s.now l i))) }
{
    let r = row_at(s, l, i);
    if r.kind != 3 {
        return w;
    }
    push_str(w, part(s, l, r.value_at, r.value_len), out, write)
}

// All text below row `i`, as it stands.
fn push_content(w: Writer, s: &[u8], l: Layout, i: usize, out: &mut [u8], write: bool) -> Writer
    requires accepted { Accepted s.now l × (i < l.nodes) × ((node_at s.now l i).kind ≡ element) }
    requires ready_by { ReadyBy is_ascii_whitespace write w out.old
        (push_all (text_content (node_at s.now l) i (children_of (depths s.now l) i))) }
    ensures { DoesBy is_ascii_whitespace write w out.old result out.new
        (push_all (text_content (node_at s.now l) i (children_of (depths s.now l) i))) }
{
    let d = depth_at(s, l, i);
    let mut q = w;
    for j in i + 1..l.nodes {
        if depth_at(s, l, j) <= d {
            return q;
        }
        q = push_data(q, s, l, j, out, write);
    }
    q
}

// Row `i` begins, whose numbers are `r`.
pub fn begin(
    w: Writer,
    s: &[u8],
    l: Layout,
    i: usize,
    r: Row,
    step: u8,
    out: &mut [u8],
    write: bool,
) -> Writer
    requires accepted { Accepted s.now l × (i < l.nodes) × (r ≡ row_at s.now l i) × (step ≡ step_at (node_at s.now l) i) }
    requires ready_by { ReadyBy is_ascii_whitespace write w out.old (begin (node_at s.now l) i (children_of (depths s.now l) i)) }
    ensures { DoesBy is_ascii_whitespace write w out.old result out.new
        (begin (node_at s.now l) i (children_of (depths s.now l) i)) }
{
    if r.kind == 3 {
        return add_text(w, part(s, l, r.value_at, r.value_len), out, write);
    }
    match step {
        PRE => push_content(w, s, l, i, out, write),
        BR => push(w, b'\n', out, write),
        _ => insert_block(w, step, out, write),
    }
}
