// The text of an entry, piece by piece, and what stands before it.
ghost use Rattle.std.specs.Prelude.{◌&&◌, ◌||◌, cond, false, ◌≡◌, ◌+◌, ◌<◌, ◌≤◌, eqb, ltb, length};
ghost use Rattle.common.specs.Bytes.{length_limit};
ghost use Rattle.html2text.specs.Serialize.{indent_text, lead, one};
ghost use Rattle.html2text.specs.Showing.{lead_in};
ghost use Rattle.writer.specs.Out.{push_all};
ghost use Rattle.writer.specs.Shown.{escaped_if};
ghost use Rattle.writer.specs.Texts.{BeginsAt};
ghost use Rattle.writer.specs.Writing.{Does, Ready};
ghost use Rattle.serializer.specs.Progress.{PassedBy, ShowReady, Shows, read_of, shown_then, showing_behind, times_of};
ghost use Rattle.serializer.specs.Serializing.{AbleOut, WorksOut, prefix_text};

use crate::margins::{collapses, margin};
use crate::{Progress, Serializer};
use html2text::{ExtractNode, Showing};
use options::Formatting;
use writer::Writer;
use writer::texts::{First, first_of};

// `n.block || out.chars().last().is_some_and(is_space)`
fn trims(block: bool, w: Writer) -> bool
    ensures { result ≡ (block || ltb w.kept w.len) }
{
    block || w.kept < w.len
}

fn is_indented(basic: bool, depth: usize) -> bool
    ensures { result ≡ (basic && ltb 0 depth) }
{
    basic && 0 < depth
}

// `usize::from(opts.list_bullets && !bullet)`
fn without_bullet(bullets: bool, bullet: usize) -> usize
    ensures { result ≡ one (bullets && eqb bullet 0) }
{
    usize::from(bullets && bullet == 0)
}

// `indent`
fn indent(s: Serializer, basic: bool, bullets: bool, out: &mut [u8], write: bool) -> Serializer
    requires { AbleOut write s out.old (indent_text basic bullets) }
    ensures { WorksOut write s out.old result out.new (indent_text basic bullets) }
{
    if is_indented(basic, s.depth) {
        let more = without_bullet(bullets, s.bullet);
        let w = s.writer.pad(32, (s.depth + more) * 2, out, write);
        let mut r = s;
        r.writer = w;
        r.bullet = 0;
        return r;
    }
    s
}

fn put_prefix(w: Writer, prefix: usize, out: &mut [u8], write: bool) -> Writer
    requires { Ready write w out.old (push_all (prefix_text prefix)) }
    ensures { Does write w out.old result out.new (push_all (prefix_text prefix)) }
{
    if prefix == 0 {
        return w;
    }
    if prefix == 1 {
        return w.put(b"\xE2\x80\xA2 ", out, write);
    }
    let q = w.put_number(prefix - 1, out, write);
    q.put(b". ", out, write)
}

// Indentation and prefix.
fn lead(s: Serializer, basic: bool, bullets: bool, out: &mut [u8], write: bool) -> Serializer
    requires { AbleOut write s out.old (lead basic bullets) }
    ensures { WorksOut write s out.old result out.new (lead basic bullets) }
{
    let a = indent(s, basic, bullets, out, write);
    let w = put_prefix(a.writer, a.prefix, out, write);
    let mut r = a;
    r.writer = w;
    r.prefix = 0;
    r
}

// How the text of an entry is shown, behind what stands before it.
pub fn showing_of(off: bool, n: ExtractNode, block: bool, w: Writer) -> Showing
    ensures { result ≡ showing_behind off n block w }
{
    let squeeze = collapses(off, n);
    let space = trims(block, w);
    Showing {
        dropped: false,
        squeeze,
        escapes: n.escape,
        empty: true,
        space,
    }
}

// Margin, indentation and prefix, where nothing was shown yet.
fn lead_in(
    f: Formatting,
    bullets: bool,
    s: Serializer,
    w: Showing,
    out: &mut [u8],
    write: bool,
) -> Serializer
    requires { AbleOut write s out.old (lead_in f bullets w) }
    ensures { WorksOut write s out.old result out.new (lead_in f bullets w) }
{
    if w.empty {
        let mut a = margin(s, w.squeeze, f.is_off(), out, write);
        a.uncollapsed = 0;
        return lead(a, f.is_basic(), bullets, out, write);
    }
    s
}

// How often a piece is escaped: with its entry, and by `collect`.
fn times_of(escapes: bool, escaped: bool) -> u8
    ensures { result ≡ times_of escapes escaped }
{
    u8::from(escapes) + u8::from(escaped)
}

// What was read of a text, if it is escaped.
fn counted(escapes: bool, escaped: bool, read: usize) -> usize
    ensures { result ≡ cond (escapes || escaped) read 0 }
{
    if escapes {
        return read;
    }
    if escaped {
        return read;
    }
    0
}

// The length of the entry's text with a piece more, which is kept where nothing is written.
fn longer(len: usize, piece: &[u8], escaped: bool, write: bool) -> usize
    requires { write ≡ false → len + length (escaped_if escaped piece.now) < length_limit }
    ensures { write ≡ false → result ≡ len + length (escaped_if escaped piece.now) }
{
    if write {
        return len;
    }
    if escaped {
        return len + text::escaped_len(piece);
    }
    len + piece.len()
}

// A piece of which nothing is shown; read: how many bytes of it were read.
fn pass_by(p: Progress, piece: &[u8], escaped: bool, read: usize, write: bool) -> Progress
    requires piece_in_bounds { write ≡ false → p.len + length (escaped_if escaped piece.now) < length_limit }
    requires read_in_bounds { (p.read < length_limit) × (read ≤ length piece.now) }
    ensures { PassedBy write p result (escaped_if escaped piece.now) read }
{
    let len = longer(p.len, piece, escaped, write);
    let need = p.need.max(len);
    let mut q = p;
    q.len = len;
    q.need = need;
    q.read = p.read + read;
    q
}

// How more of the text is shown, behind something that was.
fn shown_then(w: Showing, space: bool) -> Showing
    ensures { result ≡ shown_then w space }
{
    Showing {
        dropped: w.dropped,
        squeeze: w.squeeze,
        escapes: w.escapes,
        empty: false,
        space,
    }
}

// A piece from its first byte on that is shown, which is in hand.
fn show_from(
    f: Formatting,
    bullets: bool,
    p: Progress,
    piece: &[u8],
    first: First,
    escaped: bool,
    out: &mut [u8],
    write: bool,
) -> Progress
    requires dropped_value { (p.showing.dropped ≡ false) × BeginsAt (p.showing.squeeze && p.showing.space) piece.now first × (first.at < length piece.now) }
    requires show_ready { ShowReady f bullets write p out.old (escaped_if escaped piece.now) 0 }
    ensures { Shows f bullets write p out.old result out.new (escaped_if escaped piece.now) (read_of p.showing escaped piece.now) }
{
    let w = p.showing;
    let len = longer(p.len, piece, escaped, write);
    let need = p.need.max(len);
    let a = lead_in(f, bullets, p.serializer, w, out, write);
    let times = times_of(w.escapes, escaped);
    let q = a
        .writer
        .put_text(piece, first, w.squeeze, times, out, write);
    let writer = q.writer;
    let mut serializer = a;
    serializer.writer = writer;
    let read = p.read + counted(w.escapes, escaped, q.read);
    let showing = shown_then(w, q.space);
    Progress {
        serializer,
        len,
        need,
        read,
        showing,
    }
}

// Whether blanks in front of a piece are not shown.
fn trims_front(w: Showing) -> bool
    ensures { result ≡ (w.squeeze && w.space) }
{
    w.squeeze && w.space
}

// A piece more of the open entry's text, which `collect` escapes where `escaped`.
pub fn show(
    f: Formatting,
    bullets: bool,
    p: Progress,
    piece: &[u8],
    escaped: bool,
    out: &mut [u8],
    write: bool,
) -> Progress
    requires { ShowReady f bullets write p out.old (escaped_if escaped piece.now) 0 }
    ensures { Shows f bullets write p out.old result out.new (escaped_if escaped piece.now) (read_of p.showing escaped piece.now) }
{
    let w = p.showing;
    if piece.len() == 0 {
        return p;
    }
    if w.dropped {
        return pass_by(p, piece, escaped, 0, write);
    }
    let first = first_of(piece, trims_front(w));
    if first.at == piece.len() {
        return pass_by(
            p,
            piece,
            escaped,
            counted(w.escapes, escaped, first.read),
            write,
        );
    }
    show_from(f, bullets, p, piece, first, escaped, out, write)
}

// Words of our own, which are no text of the sheet, or a text where nothing is escaped: nothing of them counts as read.
pub fn say(
    f: Formatting,
    bullets: bool,
    p: Progress,
    words: &[u8],
    out: &mut [u8],
    write: bool,
) -> Progress
    requires { ShowReady f bullets write p out.old words.now 0 }
    ensures { Shows f bullets write p out.old result out.new words.now 0 }
{
    let mut q = show(f, bullets, p, words, false, out, write);
    q.read = p.read;
    q
}
