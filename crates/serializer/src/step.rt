// An entry of `serialize`, all but its text.
ghost use Rattle.std.specs.Prelude.{◌&&◌, false, [], ◌≡◌, ◌<◌};
ghost use Rattle.common.specs.Bytes.{length_limit};
ghost use Rattle.html2text.specs.Serialize.{after, after_basic, after_html, after_off, block_after_tag, step};
ghost use Rattle.html2text.specs.Showing.{dropped_showing};
ghost use Rattle.options.specs.Options.{is_off};
ghost use Rattle.tags.specs.Tags.{is_cell};
ghost use Rattle.serializer.specs.Progress.{AbleLevels, Begins, block_before};
ghost use Rattle.serializer.specs.Serializing.{Able, AbleListed, Limits, ListLimits, Numbers, WorksAlone, WorksLevels, WorksListed, lent};

use crate::html::{block_after_tag, finish_html, html_marks};
use crate::lists::{item, levels};
use crate::margins::block_margin;
use crate::rows::{cell, rows};
use crate::texts::showing_of;
use crate::{Begun, Serializer};
use html2text::{ExtractNode, Showing};
use options::Formatting;

// A cell's end is dropped, with all that it has gathered.
fn is_dropped(n: ExtractNode) -> bool
    ensures { result ≡ (is_cell n.tag && n.end) }
{
    n.tag == tags::CELL && n.end
}

fn after_off(s: Serializer, n: ExtractNode, bullets: bool) -> Serializer
    requires { s.margins < length_limit }
    ensures { WorksAlone s result (after_off bullets n []) }
{
    block_margin(s, n.block, n)
}

fn after_basic(s: Serializer, n: ExtractNode, bullets: bool, numbering: &mut [usize]) -> Serializer
    requires list_limits { ListLimits s numbering.old n × Numbers s numbering.old }
    requires able_levels { AbleLevels s numbering.old (after_basic bullets n []) }
    ensures { WorksLevels s numbering.old result numbering.new (after_basic bullets n []) }
{
    let a = levels(s, n, numbering);
    let b = item(a, n, bullets, numbering);
    block_margin(b, n.block, n)
}

fn after_html(
    s: Serializer,
    n: ExtractNode,
    bullets: bool,
    numbering: &mut [usize],
    out: &mut [u8],
    write: bool,
) -> Serializer
    requires list_limits { ListLimits s numbering.old n }
    requires able_listed { AbleListed write s numbering.old out.old (after_html bullets n []) }
    ensures { WorksListed write s numbering.old out.old result numbering.new out.new (after_html bullets n []) }
{
    let a = levels(s, n, numbering);
    let b = html_marks(a, n, bullets, out, write);
    finish_html(b, n, bullets, out, write)
}

// What the formatting asks for, before the text.
fn after(
    f: Formatting,
    s: Serializer,
    n: ExtractNode,
    bullets: bool,
    numbering: &mut [usize],
    out: &mut [u8],
    write: bool,
) -> Serializer
    requires margins_in_bounds { (s.margins < length_limit) × (is_off f ≡ false → ListLimits s numbering.old n) × Numbers s numbering.old }
    requires able_listed { AbleListed write s numbering.old out.old (after f bullets n []) }
    ensures { WorksListed write s numbering.old out.old result numbering.new out.new (after f bullets n []) }
{
    match f {
        Formatting::Off => after_off(s, n, bullets),
        Formatting::Basic => after_basic(s, n, bullets, numbering),
        Formatting::MinimalHtml => after_html(s, n, bullets, numbering, out, write),
    }
}

// `n.block` where the text is put, by the uncollapsed line ends before the entry.
fn block_before(f: Formatting, bullets: bool, n: ExtractNode, uncollapsed: usize) -> bool
    ensures { result ≡ block_before f bullets n uncollapsed }
{
    match f {
        Formatting::Off => n.block,
        Formatting::Basic => n.block,
        Formatting::MinimalHtml => block_after_tag(bullets, n, uncollapsed),
    }
}

pub fn dropped_showing() -> Showing
    ensures { result ≡ dropped_showing }
{
    Showing {
        dropped: true,
        squeeze: false,
        escapes: false,
        empty: true,
        space: false,
    }
}

// One pass of `serialize`'s loop up to its text, and how the text is shown.
pub fn begin(
    f: Formatting,
    s: Serializer,
    n: ExtractNode,
    bullets: bool,
    numbering: &mut [usize],
    cells: &mut [bool],
    out: &mut [u8],
    write: bool,
) -> Begun
    requires limits { Limits f s numbering.old cells.old n }
    requires able { Able write s (lent numbering.old cells.old out.old) (step f bullets n []) }
    ensures { Begins f bullets n write s (lent numbering.old cells.old out.old) result (lent numbering.new cells.new out.new) }
{
    let a = rows(s, n, cells);
    if is_dropped(n) {
        let showing = dropped_showing();
        return Begun {
            serializer: a,
            showing,
        };
    }
    let b = cell(a, n, f.is_off(), cells, out, write);
    let block = block_before(f, bullets, n, b.uncollapsed);
    let serializer = after(f, b, n, bullets, numbering, out, write);
    let showing = showing_of(f.is_off(), n, block, serializer.writer);
    Begun {
        serializer,
        showing,
    }
}
