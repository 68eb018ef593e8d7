// The lines of a sheet.
ghost use Rattle.std.specs.Prelude.{◌≡◌, ◌+◌, ◌*◌, ◌≤◌, ◌<◌, length};
ghost use Rattle.sheet.specs.Lines.{four_of, node_line_of, row_of, short_line_of};

use crate::field::read_number;

// What the header says, and the width of a number.
#[derive(Clone, Copy)]
pub struct Layout {
    pub width: usize,
    pub nodes: usize,
    pub attributes: usize,
    pub pool: usize,
    pub root: usize,
}

// The numbers of a node line.
#[derive(Clone, Copy)]
pub struct Row {
    pub depth: usize,
    pub kind: usize,
    pub skip: usize,
    pub name_at: usize,
    pub name_len: usize,
    pub value_at: usize,
    pub value_len: usize,
    pub attributes: usize,
}

// The numbers of an attribute line.
#[derive(Clone, Copy)]
pub struct Attribute {
    pub name_at: usize,
    pub name_len: usize,
    pub value_at: usize,
    pub value_len: usize,
}

// Four numbers in a row.
#[derive(Clone, Copy)]
pub struct Quad {
    pub first: usize,
    pub second: usize,
    pub third: usize,
    pub fourth: usize,
}

pub fn read_four(s: &[u8], at: usize, width: usize) -> Option<Quad>
    requires { (at + 4 * width ≤ length s.now) × (width ≤ 19) }
    ensures { result ≡ four_of width s.now at }
{
    let first = read_number(s, at, width)?;
    let at1 = at + width;
    let second = read_number(s, at1, width)?;
    let at2 = at1 + width;
    let third = read_number(s, at2, width)?;
    let at3 = at2 + width;
    let fourth = read_number(s, at3, width)?;
    Some(Quad {
        first,
        second,
        third,
        fourth,
    })
}

// Four numbers and LF: the header, or an attribute line.
pub fn read_short_line(s: &[u8], at: usize, width: usize) -> Option<Quad>
    requires { (at + 4 * width + 1 ≤ length s.now) × (width ≤ 19) }
    ensures { result ≡ short_line_of width s.now at }
{
    let end = at + width + width + width + width;
    if s[end] != 10 {
        return None;
    }
    read_four(s, at, width)
}

pub fn row_of(x: Quad, y: Quad) -> Row
    ensures { result ≡ row_of x y }
{
    Row {
        depth: x.first,
        kind: x.second,
        skip: x.third,
        name_at: x.fourth,
        name_len: y.first,
        value_at: y.second,
        value_len: y.third,
        attributes: y.fourth,
    }
}

// Eight numbers and LF.
pub fn read_node_line(s: &[u8], at: usize, width: usize) -> Option<Row>
    requires { (at + 8 * width + 1 ≤ length s.now) × (width ≤ 19) }
    ensures { result ≡ node_line_of width s.now at }
{
    let middle = at + width + width + width + width;
    let end = middle + width + width + width + width;
    if s[end] != 10 {
        return None;
    }
    let x = read_four(s, at, width)?;
    let y = read_four(s, middle, width)?;
    Some(row_of(x, y))
}
