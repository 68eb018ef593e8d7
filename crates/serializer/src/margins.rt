// Margins between blocks.
ghost use Rattle.std.specs.Prelude.{◌&&◌, cond, ◌≡◌, ◌<◌, eqb};
ghost use Rattle.common.specs.Bytes.{length_limit};
ghost use Rattle.html2text.specs.Serialize.{block_margin, collapses, margin, margin_out, separated};
ghost use Rattle.writer.specs.Writing.{Does, Ready, trimmed};
ghost use Rattle.serializer.specs.Serializing.{AbleOut, WorksAlone, WorksOut};

use crate::Serializer;
use html2text::ExtractNode;
use writer::Writer;

// `n.pre_depth == 0 || opts.formatting == Formatting::Off`
pub fn collapses(off: bool, n: ExtractNode) -> bool
    ensures { result ≡ collapses off n }
{
    n.pre_depth == 0 || off
}

// The blanks at the end away, where asked.
pub fn strip_if(w: Writer, bare: bool) -> Writer
    ensures { result ≡ cond bare (trimmed w) w }
{
    if bare {
        return w.trim_end();
    }
    w
}

// `size` line ends, or one blank where `off`, behind a text that is not empty.
fn separate(w: Writer, off: bool, size: usize, out: &mut [u8], write: bool) -> Writer
    requires { Ready write w out.old (separated off size) }
    ensures { Does write w out.old result out.new (separated off size) }
{
    if w.len == 0 {
        return w;
    }
    if off {
        return w.push(32, out, write);
    }
    w.pad(10, size, out, write)
}

fn put_margin(w: Writer, bare: bool, off: bool, size: usize, out: &mut [u8], write: bool) -> Writer
    requires { Ready write w out.old (margin_out bare off size) }
    ensures { Does write w out.old result out.new (margin_out bare off size) }
{
    if size == 0 {
        return w;
    }
    separate(strip_if(w, bare), off, size, out, write)
}

// `margin`
pub fn margin(s: Serializer, bare: bool, off: bool, out: &mut [u8], write: bool) -> Serializer
    requires { AbleOut write s out.old (margin bare off) }
    ensures { WorksOut write s out.old result out.new (margin bare off) }
{
    let w = put_margin(s.writer, bare, off, s.margins, out, write);
    let mut r = s;
    r.writer = w;
    r.margins = 0;
    r
}

fn size(big: bool) -> usize
    ensures { result ≡ cond big 2 1 }
{
    if big {
        return 2;
    }
    1
}

fn is_big(n: ExtractNode) -> bool
    ensures { result ≡ (n.big_block && eqb n.pre_depth 0) }
{
    n.big_block && n.pre_depth == 0
}

// A block asks for a margin; `block` is `n.block` there.
pub fn block_margin(s: Serializer, block: bool, n: ExtractNode) -> Serializer
    requires { s.margins < length_limit }
    ensures { WorksAlone s result (block_margin block n) }
{
    if block {
        let mut r = s;
        if n.collapse_margins {
            r.margins = s.margins.max(size(is_big(n)));
            return r;
        }
        r.margins = s.margins + size(n.big_block);
        return r;
    }
    s
}
