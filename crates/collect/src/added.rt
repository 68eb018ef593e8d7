// What a visit adds to the text of the open entry: shown at once, written or only measured.
ghost use Rattle.std.specs.Prelude.{◌&&◌, ◌||◌, cond, false, true, [], ◌++◌, ◌≡◌};
ghost use Rattle.common.specs.Bytes.{codes};
ghost use Rattle.html2text.specs.Collect.{added, added_by_element, alt_text, attr, field_value, is_unshown_type, link_text, missing_alt};
ghost use Rattle.options.specs.Options.{is_minimal_html};
ghost use Rattle.tags.specs.Tags.{is_a, is_button, is_image, is_input, is_textarea};
ghost use Rattle.text.specs.Text.{escape, trim};
ghost use Rattle.tree.specs.Attributes.{range_of};
ghost use Rattle.tree.specs.Page.{node_at};
ghost use Rattle.writer.specs.Shown.{escaped_if};
ghost use Rattle.serializer.specs.Progress.{ShowReady, Shows, read_of};
ghost use Rattle.collect.specs.Reads.{element_read, field_read, input_read, link_read, read_by};
ghost use Rattle.collect.specs.Visits.{Visits, field_text, input_text};

use crate::Visit;
use crate::tests::{is_bracketed, is_break, is_image, is_link};
use options::{ExtractOptions, Formatting};
use serializer::Progress;
use serializer::texts::{say, show};
use sheet::line::Layout;
use sheet::read::{part, row_at};
use tree::attributes::{Span, find, or_empty};

// The attribute of that name, or that there is none.
fn attribute(s: &[u8], l: Layout, v: Visit, name: &[u8]) -> Option<Span>
    requires { Visits s.now l v }
    ensures { result ≡ range_of s.now l v.row name.now }
{
    let r = row_at(s, l, v.row);
    find(s, l, v.first, r.attributes, name)
}

// `attr(node, name)`: an absent one reads as empty.
fn attribute_or_empty<'a, 'b>(s: &'a [u8], l: Layout, v: Visit, name: &'b [u8]) -> &'a [u8]
    requires { Visits s.now l v }
    ensures { result.now ≡ attr (node_at s.now l v.row) name.now }
{
    or_empty(s, l, attribute(s, l, v, name))
}

// A text between two others, escaped where asked.
fn put_between(
    o: ExtractOptions,
    p: Progress,
    before: &[u8],
    text: &[u8],
    escapes: bool,
    after: &[u8],
    out: &mut [u8],
    write: bool,
) -> Progress
    requires { ShowReady o.formatting o.list_bullets write p out.old (before.now ++ (escaped_if escapes text.now ++ after.now)) (read_of p.showing escapes text.now) }
    ensures { Shows o.formatting o.list_bullets write p out.old result out.new (before.now ++ (escaped_if escapes text.now ++ after.now)) (read_of p.showing escapes text.now) }
{
    let f = o.formatting;
    let a = say(f, o.list_bullets, p, before, out, write);
    let b = show(f, o.list_bullets, a, text, escapes, out, write);
    say(f, o.list_bullets, b, after, out, write)
}

// A link's address, trimmed, at its end; nothing is escaped there.
fn put_address(
    o: ExtractOptions,
    p: Progress,
    href: &[u8],
    end: bool,
    out: &mut [u8],
    write: bool,
) -> Progress
    requires { ShowReady o.formatting o.list_bullets write p out.old (cond end (codes " (" ++ (href.now ++ codes ")")) []) 0 }
    ensures { Shows o.formatting o.list_bullets write p out.old result out.new (cond end (codes " (" ++ (href.now ++ codes ")")) []) 0 }
{
    if end {
        let f = o.formatting;
        let a = say(f, o.list_bullets, p, b" (", out, write);
        let b = say(f, o.list_bullets, a, href, out, write);
        return say(f, o.list_bullets, b, b")", out, write);
    }
    p
}

// A link's tag.
fn put_link_tag(
    o: ExtractOptions,
    p: Progress,
    href: &[u8],
    end: bool,
    out: &mut [u8],
    write: bool,
) -> Progress
    requires { ShowReady o.formatting o.list_bullets write p out.old (cond end (codes "</a>") (codes "<a href=\"" ++ (escape href.now ++ codes "\">"))) (cond end 0 (read_of p.showing true href.now)) }
    ensures { Shows o.formatting o.list_bullets write p out.old result out.new (cond end (codes "</a>") (codes "<a href=\"" ++ (escape href.now ++ codes "\">"))) (cond end 0 (read_of p.showing true href.now)) }
{
    if end {
        let f = o.formatting;
        return say(f, o.list_bullets, p, b"</a>", out, write);
    }
    put_between(o, p, b"<a href=\"", href, true, b"\">", out, write)
}

fn put_link(
    o: ExtractOptions,
    s: &[u8],
    l: Layout,
    v: Visit,
    p: Progress,
    out: &mut [u8],
    write: bool,
) -> Progress
    requires visits { Visits s.now l v }
    requires show_ready { ShowReady o.formatting o.list_bullets write p out.old (link_text o.formatting v.end (attr (node_at s.now l v.row) (codes "href"))) (link_read o.formatting v.end p.showing (attr (node_at s.now l v.row) (codes "href"))) }
    ensures { Shows o.formatting o.list_bullets write p out.old result out.new (link_text o.formatting v.end (attr (node_at s.now l v.row) (codes "href"))) (link_read o.formatting v.end p.showing (attr (node_at s.now l v.row) (codes "href"))) }
{
    let href = text::trim(attribute_or_empty(s, l, v, b"href"));
    let f = o.formatting;
    match f {
        Formatting::Off | Formatting::Basic => put_address(o, p, href, v.end, out, write),
        Formatting::MinimalHtml => put_link_tag(o, p, href, v.end, out, write),
    }
}

fn put_bracket(o: ExtractOptions, p: Progress, end: bool, out: &mut [u8], write: bool) -> Progress
    requires { ShowReady o.formatting o.list_bullets write p out.old (cond end (codes " ] ") (codes "[ ")) 0 }
    ensures { Shows o.formatting o.list_bullets write p out.old result out.new (cond end (codes " ] ") (codes "[ ")) 0 }
{
    let f = o.formatting;
    if end {
        return say(f, o.list_bullets, p, b" ] ", out, write);
    }
    say(f, o.list_bullets, p, b"[ ", out, write)
}

// "the six types named in `collect`"
fn is_unshown(s: &[u8], l: Layout, v: Visit) -> bool
    requires { Visits s.now l v }
    ensures { result ≡ is_unshown_type (trim (attr (node_at s.now l v.row) (codes "type"))) }
{
    let kind = text::trim(attribute_or_empty(s, l, v, b"type"));
    tags::one_of(kind, b"checkbox color file hidden radio reset")
}

// `if trim(&value).is_empty() { attr(node, "placeholder") } else { value }`
fn field_value(s: &[u8], l: Layout, v: Visit) -> &[u8]
    requires { Visits s.now l v }
    ensures { result.now ≡ field_value (node_at s.now l v.row) }
{
    let value = attribute_or_empty(s, l, v, b"value");
    if text::trim(value).is_empty() {
        attribute_or_empty(s, l, v, b"placeholder")
    } else {
        value
    }
}

fn put_field(
    o: ExtractOptions,
    s: &[u8],
    l: Layout,
    v: Visit,
    p: Progress,
    out: &mut [u8],
    write: bool,
) -> Progress
    requires visits { Visits s.now l v }
    requires show_ready { ShowReady o.formatting o.list_bullets write p out.old (field_text (node_at s.now l v.row)) (field_read p.showing (node_at s.now l v.row)) }
    ensures { Shows o.formatting o.list_bullets write p out.old result out.new (field_text (node_at s.now l v.row)) (field_read p.showing (node_at s.now l v.row)) }
{
    let value = text::trim(field_value(s, l, v));
    if value.is_empty() {
        return p;
    }
    put_between(o, p, b"[ ", value, false, b" ] ", out, write)
}

// An input, unless it is of a type that is not shown.
fn put_input(
    o: ExtractOptions,
    s: &[u8],
    l: Layout,
    v: Visit,
    p: Progress,
    out: &mut [u8],
    write: bool,
) -> Progress
    requires visits { Visits s.now l v }
    requires show_ready { ShowReady o.formatting o.list_bullets write p out.old (input_text (node_at s.now l v.row)) (input_read p.showing (node_at s.now l v.row)) }
    ensures { Shows o.formatting o.list_bullets write p out.old result out.new (input_text (node_at s.now l v.row)) (input_read p.showing (node_at s.now l v.row)) }
{
    if is_unshown(s, l, v) {
        return p;
    }
    put_field(o, s, l, v, p, out, write)
}

// What stands for an alt that is absent.
fn put_missing_alt(o: ExtractOptions, p: Progress, out: &mut [u8], write: bool) -> Progress
    requires { ShowReady o.formatting o.list_bullets write p out.old (missing_alt o.missing_alt) (read_of p.showing false (missing_alt o.missing_alt)) }
    ensures { Shows o.formatting o.list_bullets write p out.old result out.new (missing_alt o.missing_alt) (read_of p.showing false (missing_alt o.missing_alt)) }
{
    if o.missing_alt {
        let f = o.formatting;
        return show(f, o.list_bullets, p, b"[picture]", false, out, write);
    }
    p
}

// An img's or area's alt.
fn put_alt(
    o: ExtractOptions,
    s: &[u8],
    l: Layout,
    v: Visit,
    p: Progress,
    out: &mut [u8],
    write: bool,
) -> Progress
    requires visits { Visits s.now l v }
    requires show_ready { ShowReady o.formatting o.list_bullets write p out.old (alt_text o (node_at s.now l v.row)) (read_of p.showing false (alt_text o (node_at s.now l v.row))) }
    ensures { Shows o.formatting o.list_bullets write p out.old result out.new (alt_text o (node_at s.now l v.row)) (read_of p.showing false (alt_text o (node_at s.now l v.row))) }
{
    match attribute(s, l, v, b"alt") {
        None => put_missing_alt(o, p, out, write),
        Some(a) => {
            let alt = part(s, l, a.at, a.len);
            show(o.formatting, o.list_bullets, p, alt, false, out, write)
        }
    }
}

fn shows_alt(o: ExtractOptions, tag: u8) -> bool
    ensures { result ≡ (o.alt_texts && is_image tag) }
{
    o.alt_texts && is_image(tag)
}

fn shows_brackets(o: ExtractOptions, tag: u8) -> bool
    ensures { result ≡ (o.form_fields && (is_textarea tag || is_button tag)) }
{
    o.form_fields && is_bracketed(tag)
}

fn shows_input(o: ExtractOptions, tag: u8) -> bool
    ensures { result ≡ (o.form_fields && is_input tag) }
{
    o.form_fields && tag == tags::INPUT
}

// What an element adds.
fn add_element(
    o: ExtractOptions,
    s: &[u8],
    l: Layout,
    v: Visit,
    p: Progress,
    out: &mut [u8],
    write: bool,
) -> Progress
    requires visits { Visits s.now l v }
    requires show_ready { ShowReady o.formatting o.list_bullets write p out.old (added_by_element o (node_at s.now l v.row) v.end) (element_read o p.showing (node_at s.now l v.row) v.end) }
    ensures { Shows o.formatting o.list_bullets write p out.old result out.new (added_by_element o (node_at s.now l v.row) v.end) (element_read o p.showing (node_at s.now l v.row) v.end) }
{
    if is_break(o, v.tag) {
        return p;
    }
    if is_link(o, v.tag) {
        return put_link(o, s, l, v, p, out, write);
    }
    if shows_alt(o, v.tag) {
        return put_alt(o, s, l, v, p, out, write);
    }
    if shows_brackets(o, v.tag) {
        return put_bracket(o, p, v.end, out, write);
    }
    if shows_input(o, v.tag) {
        return put_input(o, s, l, v, p, out, write);
    }
    p
}

fn is_escaped(f: Formatting, current: u8) -> bool
    ensures { result ≡ (is_minimal_html f && is_a current) }
{
    f.is_minimal_html() && current == tags::A
}

// What a visit to a row without a tag adds: a text, or an element that is not told apart, which has no value and adds nothing.
fn add_text(
    o: ExtractOptions,
    s: &[u8],
    l: Layout,
    v: Visit,
    current: u8,
    p: Progress,
    out: &mut [u8],
    write: bool,
) -> Progress
    requires visits { Visits s.now l v × (v.tag ≡ 0) }
    requires show_ready { ShowReady o.formatting o.list_bullets write p out.old (added o (node_at s.now l v.row) v.end current) (read_by o p.showing (node_at s.now l v.row) v.end current) }
    ensures { Shows o.formatting o.list_bullets write p out.old result out.new (added o (node_at s.now l v.row) v.end current) (read_by o p.showing (node_at s.now l v.row) v.end current) }
{
    if v.value_len == 0 {
        return p;
    }
    let f = o.formatting;
    let value = part(s, l, v.value_at, v.value_len);
    show(
        f,
        o.list_bullets,
        p,
        value,
        is_escaped(f, current),
        out,
        write,
    )
}

// What a visit adds to the text of the current entry, whose tag is current. The names before A add nothing.
pub fn add(
    o: ExtractOptions,
    s: &[u8],
    l: Layout,
    v: Visit,
    current: u8,
    p: Progress,
    out: &mut [u8],
    write: bool,
) -> Progress
    requires visits { Visits s.now l v }
    requires show_ready { ShowReady o.formatting o.list_bullets write p out.old (added o (node_at s.now l v.row) v.end current) (read_by o p.showing (node_at s.now l v.row) v.end current) }
    ensures { Shows o.formatting o.list_bullets write p out.old result out.new (added o (node_at s.now l v.row) v.end current) (read_by o p.showing (node_at s.now l v.row) v.end current) }
{
    if v.tag == tags::OTHER {
        return add_text(o, s, l, v, current, p, out, write);
    }
    if v.tag < tags::A {
        return p;
    }
    add_element(o, s, l, v, p, out, write)
}
