// Numbers of a sheet's rows, one by one: read, and changed in place.
ghost use Rattle.std.specs.Prelude.{◌≡◌, ◌<◌, get_or};
ghost use Rattle.sheet.specs.Layout.{row_at};
ghost use Rattle.sheet.specs.Notes.{Lined};
ghost use Rattle.sheet_form.specs.Decoded.{row_numbers, set_number};
ghost use Rattle.sheet_form.specs.Encoding.{decode, encode};
ghost use Rattle.sheet_form.specs.Marks.{set_skip};

use sheet::line::Layout;
use sheet::read::digits_at;
use sheet::write::put_columns;

// The places of a row's numbers in its line.
pub const KIND: usize = 1;

pub const SKIP: usize = 2;

pub const NAME_AT: usize = 3;

pub const NAME_LEN: usize = 4;

// Number k of row i.
pub fn number_at(s: &[u8], l: Layout, i: usize, k: usize) -> usize
    requires { Lined s.now l × (i < l.nodes) × (k < 8) }
    ensures { result ≡ get_or (row_numbers (row_at s.now l i)) k 0 }
{
    let width = l.width;
    let at = 4 * width + 1 + (8 * width + 1) * i + k * width;
    digits_at(s, at, width)
}

// n for number k of row i.
pub fn set_number(s: &mut [u8], l: Layout, i: usize, k: usize, n: usize)
    requires { Lined s.old l × (i < l.nodes) × (k < 8) }
    ensures { s.new ≡ encode l.width (set_number i k n (decode l s.old)) }
{
    let width = l.width;
    let at = 4 * width + 1 + (8 * width + 1) * i + k * width;
    put_columns(s, at, width, n);
}

// Another mark for row i.
pub fn set_skip(s: &mut [u8], l: Layout, i: usize, mark: usize)
    requires { Lined s.old l × (i < l.nodes) }
    ensures { s.new ≡ encode l.width (set_skip i mark (decode l s.old)) }
{
    set_number(s, l, i, SKIP, mark);
}
