// Whether a visit opens an entry, and the one that it opens.
ghost use Rattle.std.specs.Prelude.{◌&&◌, ◌≡◌, ◌<◌};
ghost use Rattle.common.specs.Bytes.{length_limit};
ghost use Rattle.html2text.specs.Collect.{is_link, marked, pre_depth_of};
ghost use Rattle.options.specs.Options.{is_minimal_html};
ghost use Rattle.collect.specs.Entries.{node_of, opens_on};

use crate::Visit;
use crate::tests::{is_big_block, is_block, is_break, is_link, is_pre, pushes_after};
use html2text::ExtractNode;
use options::ExtractOptions;

fn pre_depth(tag: u8, end: bool, before: usize) -> usize
    requires { before < length_limit }
    ensures { result ≡ pre_depth_of tag end before }
{
    if !is_pre(tag) {
        before
    } else if end {
        before.saturating_sub(1)
    } else {
        before + 1
    }
}

// `ExtractNode { .. }`; before is the pre_depth of the entry before.
fn pushed_node(o: ExtractOptions, before: usize, v: Visit) -> ExtractNode
    requires { before < length_limit }
    ensures { result ≡ node_of o before v }
{
    let f = o.formatting;
    ExtractNode {
        tag: v.tag,
        has_children: v.children,
        depth: v.depth,
        pre_depth: pre_depth(v.tag, v.end, before),
        collapse_margins: true,
        block: is_block(v.tag),
        big_block: is_big_block(v.tag),
        end: v.end,
        escape: f.is_minimal_html(),
    }
}

fn is_link_tag(o: ExtractOptions, tag: u8) -> bool
    ensures { result ≡ (is_minimal_html o.formatting && is_link o tag) }
{
    let f = o.formatting;
    f.is_minimal_html() && is_link(o, tag)
}

// What a br and a link set in the current entry.
fn marked_node(o: ExtractOptions, tag: u8, n: ExtractNode) -> ExtractNode
    ensures { result ≡ marked o tag n }
{
    ExtractNode {
        collapse_margins: n.collapse_margins && !is_break(o, tag),
        block: n.block && !is_link(o, tag),
        escape: n.escape && !is_link_tag(o, tag),
        ..n
    }
}

// The entry that a visit pushes; before is the pre_depth of the entry before.
pub fn node_of(o: ExtractOptions, before: usize, v: Visit) -> ExtractNode
    requires { before < length_limit }
    ensures { result ≡ marked o v.tag (node_of o before v) }
{
    marked_node(o, v.tag, pushed_node(o, before, v))
}

// Whether a visit opens an entry; any: whether one is open, at depth last.
pub fn opens(o: ExtractOptions, any: bool, last: usize, v: Visit) -> bool
    ensures { result ≡ opens_on o any last v }
{
    !any || pushes_after(o, last, v.tag, v.depth)
}
