// Rows of tables, and their cells.
ghost use Rattle.std.specs.Prelude.{false, true, ◌≡◌, ◌<◌, length};
ghost use Rattle.html2text.specs.Serialize.{between, cell, in_row, rows};
ghost use Rattle.tags.specs.Tags.{is_tr};
ghost use Rattle.writer.specs.Writing.{Does, Ready};
ghost use Rattle.serializer.specs.Serializing.{AbleCells, WorksCells, WorksRows};

use crate::margins::{collapses, margin};
use crate::{Serializer, less_one};
use html2text::ExtractNode;
use writer::Writer;

// A row opens or closes.
pub fn rows(s: Serializer, n: ExtractNode, cells: &mut [bool]) -> Serializer
    requires { is_tr n.tag ≡ true → n.end ≡ false → s.rows < length cells.old }
    ensures { WorksRows s cells.old result cells.new (rows n) }
{
    if n.tag == tags::TR {
        let mut r = s;
        if n.end {
            r.rows = less_one(s.rows);
            return r;
        }
        let at = s.rows;
        cells[at] = false;
        r.rows = at + 1;
        return r;
    }
    s
}

// What stands between two cells.
fn between(w: Writer, off: bool, out: &mut [u8], write: bool) -> Writer
    requires { Ready write w out.old (between off) }
    ensures { Does write w out.old result out.new (between off) }
{
    if off {
        if w.len == 0 {
            return w;
        }
        if w.kept < w.len {
            return w;
        }
        return w.push(32, out, write);
    }
    w.put(b"\t\t", out, write)
}

// A cell in the open row.
fn in_row(s: Serializer, off: bool, cells: &mut [bool], out: &mut [u8], write: bool) -> Serializer
    requires { AbleCells write s cells.old out.old (in_row off) }
    ensures { WorksCells write s cells.old out.old result cells.new out.new (in_row off) }
{
    if s.rows == 0 {
        return s;
    }
    let at = s.rows - 1;
    if cells[at] {
        let w = between(s.writer, off, out, write);
        let mut r = s;
        r.writer = w;
        return r;
    }
    cells[at] = true;
    s
}

// A cell begins.
pub fn cell(
    s: Serializer,
    n: ExtractNode,
    off: bool,
    cells: &mut [bool],
    out: &mut [u8],
    write: bool,
) -> Serializer
    requires { AbleCells write s cells.old out.old (cell off n) }
    ensures { WorksCells write s cells.old out.old result cells.new out.new (cell off n) }
{
    if n.tag == tags::CELL {
        let a = margin(s, collapses(off, n), off, out, write);
        return in_row(a, off, cells, out, write);
    }
    s
}
