// A sheet, written into a lent buffer in columns of any width.
ghost use Rattle.std.specs.Prelude.{◌+◌, ◌*◌, ◌≤◌, length};
ghost use Rattle.common.specs.Puts.{Puts};
ghost use Rattle.sheet.specs.Layout.{attribute_at, attribute_length, header_length, node_length, row_at, size_of};
ghost use Rattle.sheet.specs.Notes.{Lined};
ghost use Rattle.sheet.specs.Writing.{line};
ghost use Rattle.sheet_form.specs.Decoded.{attribute_numbers, header_numbers, row_numbers};
ghost use Rattle.sheet_form.specs.Encoding.{decode, encode, lines, listed};
ghost use Rattle.sheet_form.specs.Writing.{at_width};

use sheet::line::{Attribute, Layout, Quad, Row};
use sheet::read::{attribute_at, row_at};
use sheet::write::{put_four, put_short_line};

// The header of a sheet that has l's numbers, at its start.
pub fn put_header(out: &mut [u8], width: usize, l: Layout) -> usize
    requires { header_length width ≤ length out.old }
    ensures { Puts out.old 0 (line width (header_numbers l)) out.new result }
{
    let x = Quad {
        first: l.nodes,
        second: l.attributes,
        third: l.pool,
        fourth: l.root,
    };
    put_short_line(out, 0, width, x)
}

// A row's line.
pub fn put_row(out: &mut [u8], at: usize, width: usize, r: Row) -> usize
    requires { at + node_length width ≤ length out.old }
    ensures { Puts out.old at (line width (row_numbers r)) out.new result }
{
    let x = Quad {
        first: r.depth,
        second: r.kind,
        third: r.skip,
        fourth: r.name_at,
    };
    let y = Quad {
        first: r.name_len,
        second: r.value_at,
        third: r.value_len,
        fourth: r.attributes,
    };
    let middle = put_four(out, at, width, x);
    put_short_line(out, middle, width, y)
}

// An attribute's line.
pub fn put_attribute(out: &mut [u8], at: usize, width: usize, a: Attribute) -> usize
    requires { at + attribute_length width ≤ length out.old }
    ensures { Puts out.old at (line width (attribute_numbers a)) out.new result }
{
    let x = Quad {
        first: a.name_at,
        second: a.name_len,
        third: a.value_at,
        fourth: a.value_len,
    };
    put_short_line(out, at, width, x)
}

// The lines of a sheet's rows.
fn put_rows(out: &mut [u8], at: usize, width: usize, s: &[u8], l: Layout) -> usize
    requires { Lined s.now l × (at + node_length width * l.nodes ≤ length out.old) }
    ensures { Puts out.old at (lines row_numbers width (listed (row_at s.now l) 0 l.nodes)) out.new result }
{
    let mut at = at;
    for i in 0..l.nodes {
        at = put_row(out, at, width, row_at(s, l, i));
    }
    at
}

// The lines of its attributes. Not one function with put_rows: that would take the reading and the writing of a line as closures, with the
// requires of each.
fn put_attributes(out: &mut [u8], at: usize, width: usize, s: &[u8], l: Layout) -> usize
    requires { Lined s.now l × (at + attribute_length width * l.attributes ≤ length out.old) }
    ensures { Puts out.old at (lines attribute_numbers width (listed (attribute_at s.now l) 0 l.attributes)) out.new result }
{
    let mut at = at;
    for j in 0..l.attributes {
        at = put_attribute(out, at, width, attribute_at(s, l, j));
    }
    at
}

// The sheet s in columns of another width.
pub fn put_sheet(out: &mut [u8], width: usize, s: &[u8], l: Layout) -> usize
    requires { Lined s.now l × (size_of (at_width width l) ≤ length out.old) }
    ensures { Puts out.old 0 (encode width (decode l s.now)) out.new result }
{
    let at1 = put_header(out, width, l);
    let at2 = put_rows(out, at1, width, s, l);
    let at3 = put_attributes(out, at2, width, s, l);
    common::put(out, at3, sheet::read::part(s, l, 0, l.pool))
}
