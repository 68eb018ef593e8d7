// Reduced markup, formatting MinimalHtml.
ghost use Rattle.std.specs.Prelude.{◌&&◌, ◌||◌, cond, not, true, [], ◌≡◌, ◌*◌, ◌-◌, ◌<◌, eqb};
ghost use Rattle.common.specs.Bytes.{codes, length_limit};
ghost use Rattle.html2text.specs.Serialize.{before_tag, block_after_marks, block_after_tag, finish_html, html_br, html_item, html_marks, html_pre, html_tag, item_out, one, opens_tag, tag_margins, tag_out, wants_tag};
ghost use Rattle.tags.specs.Tags.{is_heading_or_p, is_li, is_list, name_of};
ghost use Rattle.writer.specs.Out.{push_all};
ghost use Rattle.writer.specs.Writing.{Does, Ready};
ghost use Rattle.serializer.specs.Serializing.{AbleOut, WorksOut, tag_end, tag_indent};

use crate::lists::is_item;
use crate::margins::{block_margin, collapses, margin, strip_if};
use crate::{Serializer, is_list, less_one, one};
use html2text::ExtractNode;
use writer::Writer;

fn put_item(w: Writer, end: bool, bare: bool, depth: usize, out: &mut [u8], write: bool) -> Writer
    requires { Ready write w out.old (item_out end bare depth) }
    ensures { Does write w out.old result out.new (item_out end bare depth) }
{
    if end {
        let q = strip_if(w, bare);
        return q.put(b"</li>\n", out, write);
    }
    let q = w.pad(32, depth * 2, out, write);
    q.put(b"<li>", out, write)
}

fn html_item(
    s: Serializer,
    n: ExtractNode,
    bullets: bool,
    out: &mut [u8],
    write: bool,
) -> Serializer
    requires { AbleOut write s out.old (html_item bullets n) }
    ensures { WorksOut write s out.old result out.new (html_item bullets n) }
{
    if is_item(bullets, n) {
        let a = margin(s, collapses(false, n), false, out, write);
        let w = put_item(a.writer, n.end, n.pre_depth == 0, a.depth, out, write);
        let mut r = a;
        r.writer = w;
        r.margins = 0;
        return r;
    }
    s
}

fn html_pre(s: Serializer, n: ExtractNode, out: &mut [u8], write: bool) -> Serializer
    requires { AbleOut write s out.old (html_pre n) }
    ensures { WorksOut write s out.old result out.new (html_pre n) }
{
    if n.tag == tags::PRE {
        if n.end {
            let w = s.writer.put(b"</pre>", out, write);
            let mut r = s;
            r.writer = w;
            r.margins = 0;
            return r;
        }
        let a = margin(s, collapses(false, n), false, out, write);
        let w = a.writer.put(b"<pre>", out, write);
        let mut r = a;
        r.writer = w;
        r.margins = 0;
        return r;
    }
    s
}

fn html_br(s: Serializer, n: ExtractNode, out: &mut [u8], write: bool) -> Serializer
    requires { AbleOut write s out.old (html_br n) }
    ensures { WorksOut write s out.old result out.new (html_br n) }
{
    if n.tag == tags::BR {
        let w = s.writer.put(b"<br>", out, write);
        let mut r = s;
        r.writer = w;
        return r;
    }
    s
}

// The markup before a tag.
pub fn html_marks(
    s: Serializer,
    n: ExtractNode,
    bullets: bool,
    out: &mut [u8],
    write: bool,
) -> Serializer
    requires { AbleOut write s out.old (html_marks bullets n) }
    ensures { WorksOut write s out.old result out.new (html_marks bullets n) }
{
    let a = html_item(s, n, bullets, out, write);
    let b = html_pre(a, n, out, write);
    html_br(b, n, out, write)
}

fn is_heading_or_p(tag: u8) -> bool
    ensures { result ≡ is_heading_or_p tag }
{
    tags::H1 <= tag && tag <= tags::P
}

// `n.has_children && (matches!(..) || (list && opts.list_bullets))`
fn wants_tag(bullets: bool, n: ExtractNode) -> bool
    ensures { result ≡ wants_tag bullets n }
{
    n.has_children && (is_heading_or_p(n.tag) || (is_list(n.tag) && bullets))
}

fn opens_plain(n: ExtractNode) -> bool
    ensures { result ≡ (not n.end && eqb n.pre_depth 0) }
{
    !n.end && n.pre_depth == 0
}

// `(!n.end && n.pre_depth == 0) || (uncollapsed > 0 && n.collapse_margins)`
fn opens_tag(n: ExtractNode, uncollapsed: usize) -> bool
    ensures { result ≡ opens_tag n uncollapsed }
{
    opens_plain(n) || (0 < uncollapsed && n.collapse_margins)
}

fn tag_margins(n: ExtractNode, block: bool, margins: usize) -> usize
    requires { margins < length_limit }
    ensures { result ≡ tag_margins n block margins }
{
    let size = one(block) + one(n.big_block);
    if n.collapse_margins {
        return margins.max(size);
    }
    margins + size
}

// The margin before a tag.
fn before_tag(s: Serializer, n: ExtractNode, block: bool, out: &mut [u8], write: bool) -> Serializer
    requires margins_in_bounds { s.margins < length_limit }
    requires able_out { AbleOut write s out.old (before_tag n block) }
    ensures { WorksOut write s out.old result out.new (before_tag n block) }
{
    if opens_tag(n, s.uncollapsed) {
        let mut a = s;
        a.margins = tag_margins(n, block, s.margins);
        let mut r = margin(a, collapses(false, n), false, out, write);
        r.uncollapsed = 0;
        return r;
    }
    s
}

// `list && !n.end`
fn opens_list(n: ExtractNode) -> bool
    ensures { result ≡ (is_list n.tag && not n.end) }
{
    is_list(n.tag) && !n.end
}

fn less_if(list: bool, depth: usize) -> usize
    ensures { result ≡ depth - one list }
{
    if list {
        return less_one(depth);
    }
    depth
}

fn ends_line(n: ExtractNode) -> bool
    ensures { result ≡ ((is_list n.tag && not n.end) && eqb n.pre_depth 0) }
{
    opens_list(n) && n.pre_depth == 0
}

fn indent_tag(w: Writer, bullets: bool, depth: usize, out: &mut [u8], write: bool) -> Writer
    requires { Ready write w out.old (tag_indent bullets depth) }
    ensures { Does write w out.old result out.new (tag_indent bullets depth) }
{
    if bullets {
        return w.pad(32, depth * 2, out, write);
    }
    w
}

fn begin_tag(w: Writer, end: bool, out: &mut [u8], write: bool) -> Writer
    requires { Ready write w out.old (push_all (cond end (codes "</") (codes "<"))) }
    ensures { Does write w out.old result out.new (push_all (cond end (codes "</") (codes "<"))) }
{
    if end {
        return w.put(b"</", out, write);
    }
    w.put(b"<", out, write)
}

// The name of a heading, of a paragraph or of a list.
fn put_name(w: Writer, tag: u8, out: &mut [u8], write: bool) -> Writer
    requires tag_value { (is_heading_or_p tag || is_list tag) ≡ true }
    requires ready { Ready write w out.old (push_all (name_of tag)) }
    ensures { Does write w out.old result out.new (push_all (name_of tag)) }
{
    if tag == tags::UL {
        return w.put(b"ul", out, write);
    }
    if tag == tags::OL {
        return w.put(b"ol", out, write);
    }
    if tag == tags::P {
        return w.put(b"p", out, write);
    }
    let q = w.push(104, out, write);
    q.push(49 + (tag - tags::H1), out, write)
}

fn end_tag(w: Writer, line: bool, out: &mut [u8], write: bool) -> Writer
    requires { Ready write w out.old (tag_end line) }
    ensures { Does write w out.old result out.new (tag_end line) }
{
    if line {
        return w.put(b">\n", out, write);
    }
    w.put(b">", out, write)
}

// A tag, with its indentation.
fn put_tag(
    w: Writer,
    n: ExtractNode,
    bullets: bool,
    depth: usize,
    out: &mut [u8],
    write: bool,
) -> Writer
    requires tag_value { (is_heading_or_p n.tag || is_list n.tag) ≡ true }
    requires ready { Ready write w out.old (tag_out bullets n depth) }
    ensures { Does write w out.old result out.new (tag_out bullets n depth) }
{
    let a = indent_tag(w, bullets, less_if(opens_list(n), depth), out, write);
    let b = begin_tag(a, n.end, out, write);
    let d = put_name(b, n.tag, out, write);
    end_tag(d, ends_line(n), out, write)
}

// The tag of a heading, of a paragraph or of a list.
fn html_tag(
    s: Serializer,
    n: ExtractNode,
    bullets: bool,
    block: bool,
    out: &mut [u8],
    write: bool,
) -> Serializer
    requires margins_in_bounds { s.margins < length_limit }
    requires able_out { AbleOut write s out.old (html_tag bullets n block) }
    ensures { WorksOut write s out.old result out.new (html_tag bullets n block) }
{
    if wants_tag(bullets, n) {
        let a = before_tag(s, n, block, out, write);
        let w = put_tag(a.writer, n, bullets, a.depth, out, write);
        let mut r = a;
        r.writer = w;
        return r;
    }
    s
}

fn opens_item(bullets: bool, n: ExtractNode) -> bool
    ensures { result ≡ ((bullets && is_li n.tag) && not n.end) }
{
    is_item(bullets, n) && !n.end
}

// `n.block` behind an item's start and `if n.pre_depth > 0`.
fn block_after_marks(bullets: bool, n: ExtractNode) -> bool
    ensures { result ≡ block_after_marks bullets n }
{
    n.block && (!opens_item(bullets, n) && n.pre_depth == 0)
}

// `n.block` behind a tag.
pub fn block_after_tag(bullets: bool, n: ExtractNode, uncollapsed: usize) -> bool
    ensures { result ≡ block_after_tag bullets n uncollapsed }
{
    block_after_marks(bullets, n) && !(wants_tag(bullets, n) && opens_tag(n, uncollapsed))
}

// The tag and the margin.
pub fn finish_html(
    s: Serializer,
    n: ExtractNode,
    bullets: bool,
    out: &mut [u8],
    write: bool,
) -> Serializer
    requires margins_in_bounds { s.margins < length_limit }
    requires able_out { AbleOut write s out.old (finish_html bullets n []) }
    ensures { WorksOut write s out.old result out.new (finish_html bullets n []) }
{
    let block = block_after_tag(bullets, n, s.uncollapsed);
    let a = html_tag(s, n, bullets, block_after_marks(bullets, n), out, write);
    block_margin(a, block, n)
}
