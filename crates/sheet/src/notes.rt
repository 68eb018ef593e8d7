// The passes over the lines: the first line at fault of each stage.
ghost use Rattle.std.specs.Prelude.{◌≡◌, ◌+◌, ◌^◌, ◌<◌};
ghost use Rattle.sheet.specs.Notes.{Sized, Whole, WholePool, attributes_read, nodes_read, note_attribute, note_row};

use crate::line::{Layout, Quad, Row, read_node_line, read_short_line};
use crate::tests::{kind_right, note, ranges_right, texts_right, tree_right};

// Of each stage over the node lines the first that is not right, and the sum of the attribute counts.
#[derive(Clone, Copy)]
pub struct Notes {
    pub kind: Option<usize>,
    pub tree: Option<usize>,
    pub range: Option<usize>,
    pub encoding: Option<usize>,
    pub counts: usize,
}

fn note_row(pool: &[u8], whole: bool, n: Notes, i: usize, before: Row, r: Row) -> Notes
    requires { WholePool pool.now whole × (n.counts + r.attributes < 2 ^ 64) }
    ensures { result ≡ note_row pool.now n i before r }
{
    let kind = n.kind;
    let tree = n.tree;
    let range = n.range;
    let encoding = n.encoding;
    let kind = note(kind, kind_right(r), i);
    let tree = note(tree, tree_right(pool, i, before, r), i);
    let range = note(
        range,
        ranges_right(pool, r.name_at, r.name_len, r.value_at, r.value_len),
        i,
    );
    let encoding = note(
        encoding,
        texts_right(pool, whole, r.name_at, r.name_len, r.value_at, r.value_len),
        i,
    );
    Notes {
        kind,
        tree,
        range,
        encoding,
        counts: n.counts + r.attributes,
    }
}

// The node lines' notes, or the first line whose format is not right.
pub fn read_nodes(s: &[u8], l: Layout, whole: bool) -> Result<Notes, usize>
    requires { Sized s.now l × Whole s.now l whole }
    ensures { result ≡ nodes_read s.now l }
{
    let width = l.width;
    let start = s.len() - l.pool;
    let step = 8 * width + 1;
    let mut n = Notes {
        kind: None,
        tree: None,
        range: None,
        encoding: None,
        counts: 0,
    };
    let mut before = Row {
        depth: 0,
        kind: 0,
        skip: 0,
        name_at: 0,
        name_len: 0,
        value_at: 0,
        value_len: 0,
        attributes: 0,
    };
    let mut at = 4 * width + 1;
    for i in 0..l.nodes {
        let Some(r) = read_node_line(s, at, width) else {
            return Err(i);
        };
        n = note_row(&s[start..], whole, n, i, before, r);
        before = r;
        at += step;
    }
    Ok(n)
}

// Of each stage over the attribute lines the first that is not right.
#[derive(Clone, Copy)]
pub struct AttributeNotes {
    pub range: Option<usize>,
    pub encoding: Option<usize>,
}

fn note_attribute(pool: &[u8], whole: bool, n: AttributeNotes, j: usize, q: Quad) -> AttributeNotes
    requires { WholePool pool.now whole }
    ensures { result ≡ note_attribute pool.now n j q }
{
    let range = n.range;
    let encoding = n.encoding;
    let range = note(
        range,
        ranges_right(pool, q.first, q.second, q.third, q.fourth),
        j,
    );
    let encoding = note(
        encoding,
        texts_right(pool, whole, q.first, q.second, q.third, q.fourth),
        j,
    );
    AttributeNotes { range, encoding }
}

// The attribute lines' notes, or the first line whose format is not right.
pub fn read_attributes(s: &[u8], l: Layout, whole: bool) -> Result<AttributeNotes, usize>
    requires { Sized s.now l × Whole s.now l whole }
    ensures { result ≡ attributes_read s.now l }
{
    let width = l.width;
    let start = s.len() - l.pool;
    let step = 4 * width + 1;
    let mut n = AttributeNotes {
        range: None,
        encoding: None,
    };
    let mut at = 4 * width + 1 + (8 * width + 1) * l.nodes;
    for j in 0..l.attributes {
        let Some(q) = read_short_line(s, at, width) else {
            return Err(j);
        };
        n = note_attribute(&s[start..], whole, n, j, q);
        at += step;
    }
    Ok(n)
}
