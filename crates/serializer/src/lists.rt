// List levels, and the prefixes of items.
ghost use Rattle.std.specs.Prelude.{◌&&◌, false, not, true, ◌≡◌, ◌-◌, ◌<◌, ◌≤◌, length};
ghost use Rattle.common.specs.Bytes.{length_limit};
ghost use Rattle.html2text.specs.Serialize.{changes_level, item, level, one};
ghost use Rattle.tags.specs.Tags.{is_li, is_ol};
ghost use Rattle.serializer.specs.Serializing.{Numbers, WorksLevels, counted, last_number, levels, set_bullet, set_depth, set_prefix};

use crate::{Serializer, changes_level, less_one, one};
use html2text::ExtractNode;

fn first_number(tag: u8) -> usize
    ensures { result ≡ one (is_ol tag) }
{
    one(tag == tags::OL)
}

fn prefixed(s: Serializer, prefix: usize, bullet: bool) -> Serializer
    ensures { result ≡ set_bullet bullet (set_prefix prefix s) }
{
    let writer = s.writer;
    let bullet = one(bullet);
    Serializer {
        writer,
        prefix,
        bullet,
        depth: s.depth,
        margins: s.margins,
        uncollapsed: s.uncollapsed,
        rows: s.rows,
    }
}

fn close_level(s: Serializer) -> Serializer
    ensures { result ≡ set_bullet false (set_prefix 0 (set_depth (s.depth - 1) s)) }
{
    let mut r = prefixed(s, 0, false);
    r.depth = less_one(s.depth);
    r
}

// A list level opens or closes.
fn level(s: Serializer, n: ExtractNode, numbering: &mut [usize]) -> Serializer
    requires { changes_level n.tag s.depth ≡ true → n.end ≡ false → s.depth < length numbering.old }
    ensures works_levels { WorksLevels s numbering.old result numbering.new (level n) }
    ensures numbers { Numbers s numbering.old → Numbers result numbering.new }
{
    if changes_level(n.tag, s.depth) {
        if n.end {
            return close_level(s);
        }
        let at = s.depth;
        numbering[at] = first_number(n.tag);
        let mut r = s;
        r.depth = at + 1;
        return r;
    }
    s
}

// `n.block && !n.collapse_margins`
fn is_uncollapsed(n: ExtractNode) -> bool
    ensures { result ≡ (n.block && not n.collapse_margins) }
{
    n.block && !n.collapse_margins
}

// An explicit line end is counted.
fn count_uncollapsed(s: Serializer, n: ExtractNode) -> Serializer
    requires { s.uncollapsed < length_limit }
    ensures { result ≡ counted s n }
{
    if is_uncollapsed(n) {
        let mut r = s;
        r.uncollapsed = s.uncollapsed + 1;
        return r;
    }
    s
}

pub fn levels(s: Serializer, n: ExtractNode, numbering: &mut [usize]) -> Serializer
    requires uncollapsed_in_bounds { s.uncollapsed < length_limit }
    requires depth_in_bounds { changes_level n.tag s.depth ≡ true → n.end ≡ false → s.depth < length numbering.old }
    ensures works_levels { WorksLevels s numbering.old result numbering.new (levels n) }
    ensures numbers { Numbers s numbering.old → Numbers result numbering.new }
{
    level(count_uncollapsed(s, n), n, numbering)
}

// `opts.list_bullets && n.tag == "li"`
pub fn is_item(bullets: bool, n: ExtractNode) -> bool
    ensures { result ≡ (bullets && is_li n.tag) }
{
    bullets && n.tag == tags::LI
}

// The number of the innermost level.
fn last_number(numbering: &[usize], depth: usize) -> usize
    requires { depth ≤ length numbering.now }
    ensures { result ≡ last_number numbering.now depth }
{
    if depth == 0 { 0 } else { numbering[depth - 1] }
}

// An item's prefix, formatting Basic.
pub fn item(s: Serializer, n: ExtractNode, bullets: bool, numbering: &mut [usize]) -> Serializer
    requires { Numbers s numbering.old }
    ensures { WorksLevels s numbering.old result numbering.new (item bullets n) }
{
    if is_item(bullets, n) {
        let number = last_number(&numbering[..], s.depth);
        if number == 0 {
            return prefixed(s, 1, !n.end);
        }
        if n.end {
            return prefixed(s, number + 1, false);
        }
        let at = s.depth - 1;
        numbering[at] = number + 1;
        return prefixed(s, number + 1, true);
    }
    s
}
