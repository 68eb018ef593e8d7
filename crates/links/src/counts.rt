// Text bytes and link bytes of a row, in one pass over what stands below it.
ghost use Rattle.std.specs.Prelude.{◌≡◌, ◌+◌, ◌*◌, ◌<◌, ◌≤◌, length, replicate};
ghost use Rattle.sheet.specs.Accepted.{Accepted};
ghost use Rattle.sheet.specs.Layout.{depths, most_depth, most_rows, row_at};
ghost use Rattle.text.specs.Text.{collapse, collapse_from, is_space};
ghost use Rattle.tree.specs.Page.{node_at, widest_pool};
ghost use Rattle.links.specs.Counting.{CountsUpTo, Room, around_after, count_row, counts_in, with_text};
ghost use Rattle.links.specs.Links.{is_link};

use sheet::limits::MOST_DEPTH;
use sheet::line::{Layout, Row};
use sheet::read::{depth_at, part, row_at};
use text::{collapsed_from, is_space};

#[derive(Clone, Copy, Debug, PartialEq, Eq)]
pub struct Counts {
    pub text: usize,
    pub links: usize,
}

// The counts of the rows so far. space: the text ends in a blank. low: of the links that are open, those at this depth or deeper have no text yet.
#[derive(Clone, Copy, Debug, PartialEq, Eq)]
pub struct Counting {
    pub text: usize,
    pub links: usize,
    pub space: bool,
    pub low: usize,
}

impl Counting {
    fn counts(self) -> Counts
        ensures { result ≡ counts_in self }
    {
        Counts {
            text: self.text,
            links: self.links,
        }
    }
}

fn is_link(s: &[u8], l: Layout, j: usize, r: Row) -> bool
    requires { Accepted s.now l × (j < l.nodes) × (r ≡ row_at s.now l j) }
    ensures { result ≡ is_link (node_at s.now l j) }
{
    r.kind == 1 && common::same(part(s, l, r.name_at, r.name_len), b"a")
}

// The collapsed length of a text by itself, where it has len bytes behind another.
fn own_len(t: &[u8], space: bool, len: usize) -> usize
    requires { len ≡ length (collapse_from is_space space t.now) }
    ensures { result ≡ length (collapse t.now) }
{
    if space && !t.is_empty() && is_space(t[0]) {
        len + 1
    } else {
        len
    }
}

fn more_links(links: usize, old: usize, len: usize, new: usize, own: usize) -> usize
    requires { links + old * len + new * own ≤ most_depth * (most_rows * widest_pool) }
    ensures { result ≡ links + old * len + new * own }
{
    links + old * len + new * own
}

fn add_text(t: &[u8], c: Counting, depth: usize, above: usize, old: usize) -> Counting
    requires { (old ≤ above) × ((with_text c depth above old t.now).text ≤ most_rows * widest_pool) × ((with_text c depth above old t.now).links ≤ most_depth * (most_rows * widest_pool)) }
    ensures { result ≡ with_text c depth above old t.now }
{
    if t.is_empty() {
        return c;
    }
    let q = collapsed_from(t, c.space);
    let own = own_len(t, c.space, q.len);
    Counting {
        text: c.text + q.len,
        links: more_links(c.links, old, q.len, above - old, own),
        space: q.space,
        low: depth,
    }
}

// One row more. around has for each depth how many links stand around a row there.
fn count_row(s: &[u8], l: Layout, j: usize, r: Row, c: Counting, around: &mut [usize]) -> Counting
    requires { Accepted s.now l × (j < l.nodes) × (r ≡ row_at s.now l j) × Room (node_at s.now l j) r.depth c around.old }
    ensures counted { result ≡ count_row (node_at s.now l j) r.depth c around.old }
    ensures links { around.new ≡ around_after (node_at s.now l j) r.depth around.old }
{
    let depth = r.depth;
    let low = c.low.min(depth);
    let above = around[depth];
    let old = around[low];
    let next = Counting { low, ..c };
    if is_link(s, l, j, r) {
        around[depth + 1] = above + 1;
        return next;
    }
    around[depth + 1] = above;
    if r.kind != 3 {
        return next;
    }
    add_text(part(s, l, r.value_at, r.value_len), next, depth, above, old)
}

// The rows behind row i up to the first one past, or to a text of more than most bytes.
fn count_rows(s: &[u8], l: Layout, i: usize, most: usize, around: &mut [usize]) -> Counts
    requires { Accepted s.now l × (i < l.nodes) × ((row_at s.now l i).kind ≡ 1) × (around.old ≡ replicate (most_depth + 2) 0) }
    ensures { CountsUpTo most (node_at s.now l) (depths s.now l) i result }
{
    let d = depth_at(s, l, i);
    let mut c = Counting {
        text: 0,
        links: 0,
        space: false,
        low: 0,
    };
    for j in i + 1..l.nodes {
        let r = row_at(s, l, j);
        if r.depth <= d {
            return c.counts();
        }
        c = count_row(s, l, j, r, c, around);
        if c.text > most {
            return c.counts();
        }
    }
    c.counts()
}

// `around` has a place for each depth from 0 on, and one more.
pub fn count_up_to(s: &[u8], l: Layout, i: usize, most: usize) -> Counts
    requires { Accepted s.now l × (i < l.nodes) × ((row_at s.now l i).kind ≡ 1) }
    ensures { CountsUpTo most (node_at s.now l) (depths s.now l) i result }
{
    let mut around = [0; MOST_DEPTH + 2];
    count_rows(s, l, i, most, &mut around)
}
