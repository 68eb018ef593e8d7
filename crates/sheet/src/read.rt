// Readers of a sheet whose lines are right.
ghost use Rattle.std.specs.Prelude.{◌≡◌, ℕ, ◌+◌, ◌*◌, ◌<◌, ◌≤◌, length};
ghost use Rattle.sheet.specs.Columns.{InColumns};
ghost use Rattle.sheet.specs.Layout.{attribute_at, range, row_at};
ghost use Rattle.sheet.specs.Lines.{attribute_of, number_at, quad_from};
ghost use Rattle.sheet.specs.Notes.{Lined};

use crate::line::{Attribute, Layout, Quad, Row, row_of};

// The number in the eight columns at at: the last four bits of a space are 0, those of a digit its value.
fn eight_at(s: &[u8], at: usize) -> usize
    requires { (at + 8 ≤ length s.now) × InColumns 8 s.now at }
    ensures { result ≡ number_at 8 s.now at }
{
    let a = (s[at] % 16) as usize;
    let b = (s[at + 1] % 16) as usize;
    let c = (s[at + 2] % 16) as usize;
    let d = (s[at + 3] % 16) as usize;
    let e = (s[at + 4] % 16) as usize;
    let f = (s[at + 5] % 16) as usize;
    let g = (s[at + 6] % 16) as usize;
    let h = (s[at + 7] % 16) as usize;
    ((a * 10 + b) * 100 + (c * 10 + d)) * 10000 + ((e * 10 + f) * 100 + (g * 10 + h))
}

// The same, by one look where there is one digit behind seven spaces, as in most columns.
fn eight_digits(s: &[u8], at: usize) -> usize
    requires { (at + 8 ≤ length s.now) × InColumns 8 s.now at }
    ensures { result ≡ number_at 8 s.now at }
{
    let w = common::word_at(s, at);
    if w % 0x100000000000000 != 0x20202020202020 {
        return eight_at(s, at);
    }
    let b = w / 0x100000000000000;
    if b < 48 {
        return 0;
    }
    if b > 57 {
        return 0;
    }
    b - 48
}

// The number in the width columns at at.
pub fn digits_at(s: &[u8], at: usize, width: usize) -> usize
    requires { (at + width ≤ length s.now) × (width ≤ 10) × InColumns width s.now at }
    ensures { result ≡ number_at width s.now at }
{
    if width == 8 {
        return eight_digits(s, at);
    }
    let end = at + width;
    let mut n = 0;
    for i in at..end {
        n = n * 10 + usize::from(s[i] % 16);
    }
    n
}

// Four numbers, one after the other.
fn quad_at(s: &[u8], at: usize, width: usize) -> Quad
    requires { (at + 4 * width ≤ length s.now) × (width ≤ 10) × ((k : ℕ) → k < 4 → InColumns width s.now (at + k * width)) }
    ensures { result ≡ quad_from width s.now at }
{
    let at1 = at + width;
    let at2 = at1 + width;
    let at3 = at2 + width;
    Quad {
        first: digits_at(s, at, width),
        second: digits_at(s, at1, width),
        third: digits_at(s, at2, width),
        fourth: digits_at(s, at3, width),
    }
}

// The numbers of row i.
pub fn row_at(s: &[u8], l: Layout, i: usize) -> Row
    requires { Lined s.now l × (i < l.nodes) }
    ensures { result ≡ row_at s.now l i }
{
    let width = l.width;
    let at = 4 * width + 1 + (8 * width + 1) * i;
    let middle = at + width + width + width + width;
    row_of(quad_at(s, at, width), quad_at(s, middle, width))
}

fn attribute_of(x: Quad) -> Attribute
    ensures { result ≡ attribute_of x }
{
    Attribute {
        name_at: x.first,
        name_len: x.second,
        value_at: x.third,
        value_len: x.fourth,
    }
}

// The numbers of attribute line j.
pub fn attribute_at(s: &[u8], l: Layout, j: usize) -> Attribute
    requires { Lined s.now l × (j < l.attributes) }
    ensures { result ≡ attribute_at s.now l j }
{
    let width = l.width;
    let at = 4 * width + 1 + (8 * width + 1) * l.nodes + (4 * width + 1) * j;
    attribute_of(quad_at(s, at, width))
}

// The depth of row i.
pub fn depth_at(s: &[u8], l: Layout, i: usize) -> usize
    requires { Lined s.now l × (i < l.nodes) }
    ensures { result ≡ (row_at s.now l i).depth }
{
    let width = l.width;
    digits_at(s, 4 * width + 1 + (8 * width + 1) * i, width)
}

// A range of the pool.
pub fn part(s: &[u8], l: Layout, at: usize, len: usize) -> &[u8]
    requires { Lined s.now l × (at + len ≤ l.pool) }
    ensures { result.now ≡ range s.now l at len }
{
    let from = s.len() - l.pool + at;
    let to = from + len;
    &s[from..to]
}
