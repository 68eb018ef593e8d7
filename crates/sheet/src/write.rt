// Numbers in columns, written into a lent buffer.
ghost use Rattle.std.specs.Prelude.{◌≡◌, ◌+◌, ◌*◌, ◌≤◌, length};
ghost use Rattle.common.specs.Puts.{Puts};
ghost use Rattle.sheet.specs.Columns.{columns};
ghost use Rattle.sheet.specs.Layout.{attribute_length};
ghost use Rattle.sheet.specs.Writing.{column_of, four_columns, front, quad_line};

use crate::line::Quad;

// The last digit of q, or a space where nothing is left of the number.
fn column(q: usize) -> u8
    ensures { result ≡ column_of q }
{
    if q == 0 {
        return 32;
    }
    48 + (q % 10) as u8
}

// q in front of a last digit: spaces and its digits, from the right.
fn put_front(out: &mut [u8], at: usize, width: usize, q: usize) -> usize
    requires { at + width ≤ length out.old }
    ensures { Puts out.old at (front width q) out.new result }
{
    let mut q = q;
    for left in (0..width).rev() {
        out[at + left] = column(q);
        q /= 10;
    }
    at + width
}

// n in width columns: of a number that has more digits, the last ones.
pub fn put_columns(out: &mut [u8], at: usize, width: usize, n: usize) -> usize
    requires { at + width ≤ length out.old }
    ensures { Puts out.old at (columns width n) out.new result }
{
    if width == 0 {
        return at;
    }
    let last = put_front(out, at, width - 1, n / 10);
    out[last] = 48 + (n % 10) as u8;
    last + 1
}

// Four numbers, with no line end.
pub fn put_four(out: &mut [u8], at: usize, width: usize, q: Quad) -> usize
    requires { at + 4 * width ≤ length out.old }
    ensures { Puts out.old at (four_columns width q) out.new result }
{
    let at1 = put_columns(out, at, width, q.first);
    let at2 = put_columns(out, at1, width, q.second);
    let at3 = put_columns(out, at2, width, q.third);
    put_columns(out, at3, width, q.fourth)
}

// Four numbers and LF, as a header and an attribute line have them.
pub fn put_short_line(out: &mut [u8], at: usize, width: usize, q: Quad) -> usize
    requires { at + attribute_length width ≤ length out.old }
    ensures { Puts out.old at (quad_line width q) out.new result }
{
    let end = put_four(out, at, width, q);
    out[end] = 10;
    end + 1
}
