// What every pass over the rows reads, noted once: a row's numbers stand in columns.
ghost use Rattle.std.specs.Prelude.{◌||◌, true, ◌≡◌, ℕ, ◌+◌, ◌≤◌, eqb};
ghost use Rattle.sheet.specs.Layout.{pool_start, row_at};
ghost use Rattle.sheet.specs.Notes.{Sized, Whole};
ghost use Rattle.sheet.specs.Verdict.{is_sheet, judged};
ghost use Rattle.tags.specs.Tags.{tag_of};
ghost use Rattle.tree.specs.Node.{tag};
ghost use Rattle.tree.specs.Page.{node_at};
ghost use Rattle.walk.specs.Rows.{Columns, RowsRead};

use sheet::line::{Layout, Row};
use sheet::rows::row_in;
use sheet::verdict::rest_right;

// The number of the tag of the row whose numbers are r.
fn tag_in(s: &[u8], l: Layout, start: usize, r: Row) -> u8
    requires { (start ≡ pool_start l) × Sized s.now l × (r.name_at + r.name_len ≤ l.pool) }
    ensures { (i : ℕ) → r ≡ row_at s.now l i → result ≡ tag_of (tag (node_at s.now l i)) }
{
    if r.kind == 1 {
        let from = start + r.name_at;
        let to = from + r.name_len;
        tags::tag_of(&s[from..to])
    } else {
        tags::OTHER
    }
}

// Whether a row is a comment or marked.
fn comment_or_marked(r: Row) -> bool
    ensures { result ≡ (eqb r.kind 8 || eqb r.skip 1) }
{
    r.kind == 8 || r.skip == 1
}

// Whether a sheet is accepted, by one look at its rows; and of each row its depth, the number of its tag, its first attribute line, where its
// value lies in the pool, and whether it is a comment or marked.
pub fn take_rows(
    s: &[u8],
    l: Layout,
    whole: bool,
    depths: &mut [u16],
    tags: &mut [u8],
    attributes: &mut [u32],
    values: &mut [u32],
    lengths: &mut [u32],
    left: &mut [bool],
) -> bool
    requires sized { Sized s.now l × Whole s.now l whole }
    requires columns { Columns l.nodes depths.old tags.old attributes.old values.old lengths.old left.old }
    ensures accepted { result ≡ is_sheet (judged s.now l) }
    ensures rows { result ≡ true → RowsRead s.now l l.nodes depths.new tags.new attributes.new values.new lengths.new left.new }
{
    let width = l.width;
    let start = s.len() - l.pool;
    let step = 8 * width + 1;
    let mut before = Row {
        depth: 0,
        kind: 0,
        skip: 0,
        name_at: 0,
        name_len: 0,
        value_at: 0,
        value_len: 0,
        attributes: 0,
    };
    let mut at = 4 * width + 1;
    let mut first = 0;
    for i in 0..l.nodes {
        let Some(r) = row_in(s, l, start, whole, i, before, at, first) else {
            return false;
        };
        depths[i] = r.depth as u16;
        tags[i] = tag_in(s, l, start, r);
        attributes[i] = first as u32;
        values[i] = r.value_at as u32;
        lengths[i] = r.value_len as u32;
        left[i] = comment_or_marked(r);
        before = r;
        at += step;
        first += r.attributes;
    }
    rest_right(s, l, whole, first)
}
