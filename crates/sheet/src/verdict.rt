// What is wrong with a sheet.
ghost use Rattle.std.specs.Prelude.{is_none, ◌&&◌, ◌≡◌, ◌+◌, ◌<◌, ◌≤◌, length};
ghost use Rattle.utf8.specs.Valid.{valid};
ghost use Rattle.sheet.specs.Layout.{most_attributes, most_rows, pool_limit, pool_of, row_at, size_of};
ghost use Rattle.sheet.specs.Lines.{number_at};
ghost use Rattle.sheet.specs.Notes.{Formatted, Sized, Whole, attributes_notes, attributes_right, nodes_notes, rest_right};
ghost use Rattle.sheet.specs.Verdict.{counts_right, header_of, judged, node_format, nodes, numbers, verdict, verdict_of};

use crate::field::read_field;
use crate::limits::{MOST_ATTRIBUTES, MOST_POOL, MOST_ROWS};
use crate::line::{Layout, read_short_line};
use crate::notes::{AttributeNotes, Notes, read_attributes, read_nodes};

// What is wrong with a sheet, with its line or the length that it should have.
#[derive(Clone, Copy, Debug, PartialEq, Eq)]
pub enum SheetError {
    Length(usize),
    Format(usize),
    Counts,
    Kind(usize),
    Tree(usize),
    Range(usize),
    Encoding(usize),
}

// The number in the width columns at at, or 0 where there is none.
pub fn number_at(s: &[u8], at: usize, width: usize) -> usize
    requires { (at + width ≤ length s.now) × (width ≤ 19) }
    ensures { result ≡ number_at width s.now at }
{
    read_field(s, at, width).unwrap_or(0)
}

fn kind_at(s: &[u8], l: Layout, i: usize) -> usize
    requires { Sized s.now l × (i < l.nodes) }
    ensures { result ≡ (row_at s.now l i).kind }
{
    let width = l.width;
    let at = 4 * width + 1 + (8 * width + 1) * i;
    number_at(s, at + width, width)
}

// 15, 14, 16 and 17, by the notes of both passes.
fn decide(s: &[u8], l: Layout, n: Notes, a: AttributeNotes) -> Result<Layout, SheetError>
    requires { Sized s.now l × Formatted s.now l × (n ≡ nodes_notes s.now l) × (a ≡ attributes_notes s.now l) }
    ensures { result ≡ judged s.now l }
{
    let nodes = l.nodes;
    if let Some(i) = n.kind {
        return Err(SheetError::Kind(i + 1));
    }
    if let Some(i) = n.tree {
        return Err(SheetError::Tree(i + 1));
    }
    if kind_at(s, l, l.root) != 1 {
        return Err(SheetError::Tree(0));
    }
    if let Some(i) = n.range {
        return Err(SheetError::Range(i + 1));
    }
    if let Some(j) = a.range {
        return Err(SheetError::Range(nodes + j + 1));
    }
    if n.counts != l.attributes {
        return Err(SheetError::Range(0));
    }
    if let Some(i) = n.encoding {
        return Err(SheetError::Encoding(i + 1));
    }
    if let Some(j) = a.encoding {
        return Err(SheetError::Encoding(nodes + j + 1));
    }
    Ok(l)
}

fn judge_attributes(s: &[u8], l: Layout, whole: bool, n: Notes) -> Result<Layout, SheetError>
    requires { Sized s.now l × Whole s.now l whole × (nodes s.now l (node_format s.now l) ≡ None) × (n ≡ nodes_notes s.now l) }
    ensures { result ≡ judged s.now l }
{
    match read_attributes(s, l, whole) {
        Ok(a) => decide(s, l, n, a),
        Err(j) => Err(SheetError::Format(l.nodes + j + 1)),
    }
}

fn is_clean(a: AttributeNotes) -> bool
    ensures { result ≡ (is_none a.range && is_none a.encoding) }
{
    a.range.is_none() && a.encoding.is_none()
}

// Whether no attribute line is at fault.
fn attributes_right(s: &[u8], l: Layout, whole: bool) -> bool
    requires { Sized s.now l × Whole s.now l whole }
    ensures { result ≡ attributes_right s.now l }
{
    match read_attributes(s, l, whole) {
        Ok(a) => is_clean(a),
        Err(_) => false,
    }
}

// Whether a sheet whose rows are right is accepted; counts: the sum of their attribute counts.
pub fn rest_right(s: &[u8], l: Layout, whole: bool, counts: usize) -> bool
    requires { Sized s.now l × Whole s.now l whole }
    ensures { result ≡ rest_right s.now l counts }
{
    if counts != l.attributes {
        return false;
    }
    if kind_at(s, l, l.root) != 1 {
        return false;
    }
    attributes_right(s, l, whole)
}

// 12 to 17; whole: whether the pool is known to be UTF-8.
pub fn judge(s: &[u8], l: Layout, whole: bool) -> Result<Layout, SheetError>
    requires { Sized s.now l × Whole s.now l whole }
    ensures { result ≡ judged s.now l }
{
    match read_nodes(s, l, whole) {
        Ok(n) => judge_attributes(s, l, whole, n),
        Err(i) => Err(SheetError::Format(i + 1)),
    }
}

fn counts_right(l: Layout) -> bool
    ensures { result ≡ counts_right l }
{
    if l.nodes < 1 {
        return false;
    }
    if l.nodes > MOST_ROWS {
        return false;
    }
    if l.attributes > MOST_ATTRIBUTES {
        return false;
    }
    if l.pool > MOST_POOL {
        return false;
    }
    l.root < l.nodes
}

fn size_of(l: Layout) -> usize
    requires { (l.width ≤ 10) × (l.nodes ≤ most_rows) × (l.attributes ≤ most_attributes) × (l.pool ≤ pool_limit l.width) }
    ensures { result ≡ size_of l }
{
    let width = l.width;
    4 * width + 1 + (8 * width + 1) * l.nodes + (4 * width + 1) * l.attributes + l.pool
}

// The layout, where the header is right and the length is what it says; or what is wrong up to there.
pub fn header_in(s: &[u8], width: usize) -> Result<Layout, SheetError>
    requires { width ≤ 10 }
    ensures { result ≡ header_of width s.now }
{
    let header = 4 * width + 1;
    if s.len() < header {
        return Err(SheetError::Length(header));
    }
    let Some(q) = read_short_line(s, 0, width) else {
        return Err(SheetError::Format(0));
    };
    let l = Layout {
        width,
        nodes: q.first,
        attributes: q.second,
        pool: q.third,
        root: q.fourth,
    };
    if !counts_right(l) {
        return Err(SheetError::Counts);
    }
    let size = size_of(l);
    if s.len() != size {
        return Err(SheetError::Length(size));
    }
    Ok(l)
}

// Whether the pool is UTF-8 as a whole.
pub fn is_whole(s: &[u8], l: Layout) -> bool
    requires { Sized s.now l }
    ensures { result ≡ valid (pool_of s.now l) }
{
    let start = s.len() - l.pool;
    utf8::valid(&s[start..])
}

// The verdict on a sheet whose numbers have width columns.
pub fn check_in(s: &[u8], width: usize) -> Result<Layout, SheetError>
    requires { width ≤ 10 }
    ensures { result ≡ verdict_of width s.now }
{
    let l = header_in(s, width)?;
    judge(s, l, is_whole(s, l))
}

// The verdict on a sheet: its numbers have 8 columns.
pub fn check(s: &[u8]) -> Result<Layout, SheetError>
    ensures answer { result ≡ verdict s.now }
    ensures said { numbers result ≡ numbers (verdict s.now) }
{
    check_in(s, 8)
}
