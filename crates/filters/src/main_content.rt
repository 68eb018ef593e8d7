// `is_main_content`, a function for each stage of its definition. `set` has the candidates of the class, `both` those of class and id
// as one text.
ghost use Rattle.std.specs.Prelude.{◌&&◌, List, ◌≡◌, ℕ, ◌+◌, ◌≤◌, ◌<◌};
ghost use Rattle.common.specs.Bytes.{Bytes, is_empty};
ghost use Rattle.patterns.specs.Candidates.{Candidates};
ghost use Rattle.byte_regex.specs.Joined.{joined};
ghost use Rattle.sheet.specs.Accepted.{Accepted};
ghost use Rattle.sheet.specs.Layout.{depths};
ghost use Rattle.sheet.specs.Verdict.{counts_from};
ghost use Rattle.sheet.specs.declared.line.Layout.{Layout};
ghost use Rattle.tags.specs.Tags.{tag_of};
ghost use Rattle.tree.specs.Attributes.{attributes_from};
ghost use Rattle.tree.specs.Node.{Attribute};
ghost use Rattle.tree.specs.Page.{node_at};
ghost use Rattle.filters.specs.Classes.{Joinable};
ghost use Rattle.filters.specs.Filters.{by_attributes, by_block, by_class_and_id, by_name, is_main_content, logo_or_ad};
ghost use Rattle.filters.specs.Footer.{Above};
ghost use Rattle.filters.specs.Gathered.{Gathered, Readable};
ghost use Rattle.filters.specs.Sheet.{cluster_at, IsTag, tag_number};

use crate::attributes;
use crate::attributes::{SLOTS, Slots};
use crate::classes::{
    article, comment_section, landmark, not_displayed, signin_meta_or_social, skip_link,
};
use crate::clusters::{article_cluster, div_cluster, footer, ul_cluster, unnamed};
use crate::icon::is_icon;
use crate::names::{is_dropped, is_kept, not_block};
use crate::values::{ad_attribute, hidden_by_attribute, rel_main, role_outside};
use options::ExtractOptions;
use patterns::{Pattern, candidates, matches_among};
use sheet::line::Layout;
use sheet::read::{part, row_at};

fn logo_or_ad(set: u32, both: u32, slots: &Slots, class: &[u8], id: &[u8]) -> bool
    requires { Joinable class.now id.now × Candidates set class.now × Candidates both (joined class.now id.now) }
    ensures { (s : List ℕ) (l : Layout) (attributes : List Attribute) → Gathered s l attributes slots.now.spans → result ≡ logo_or_ad attributes class.now (joined class.now id.now) }
{
    matches_among(both, Pattern::LogoCls, class, id)
        || matches_among(both, Pattern::AdsCls, class, id)
        || ad_attribute(slots)
        || matches_among(set, Pattern::OtherJunkCls, b"", class)
}

// From `rel` being "main" on.
fn by_block(
    both: u32,
    s: &[u8],
    l: Layout,
    slots: &Slots,
    o: ExtractOptions,
    i: usize,
    tag: u8,
    depth: usize,
    class: &[u8],
    id: &[u8],
) -> bool
    requires { Accepted s.now l × (i < l.nodes) × Readable l slots.now.spans × IsTag tag × Joinable class.now id.now × Candidates both (joined class.now id.now) }
    ensures { (name : Bytes) (attributes : List Attribute) → tag ≡ tag_of name → Gathered s.now l attributes slots.now.spans → result ≡ by_block o (cluster_at s.now l i) depth name attributes class.now id.now }
{
    if rel_main(s, l, slots) {
        return true;
    }
    if role_outside(s, l, slots) {
        return false;
    }
    if comment_section(both, o.comments, class, id) {
        return false;
    }
    if article(both, tag, class, id) {
        return true;
    }
    if landmark(both, class, id) {
        return false;
    }
    !div_cluster(s, l, i, tag, depth)
}

// From `combined` on.
fn by_class_and_id(
    set: u32,
    s: &[u8],
    l: Layout,
    slots: &Slots,
    o: ExtractOptions,
    i: usize,
    name: &[u8],
    tag: u8,
    depth: usize,
    class: &[u8],
    id: &[u8],
) -> bool
    requires { Accepted s.now l × (i < l.nodes) × Readable l slots.now.spans × (tag ≡ tag_of name.now) × Joinable class.now id.now × Candidates set class.now }
    ensures { (attributes : List Attribute) → Gathered s.now l attributes slots.now.spans → result ≡ by_class_and_id o (cluster_at s.now l i) depth name.now attributes class.now id.now }
{
    let both = candidates(class, id);
    if skip_link(both, tag, class, id) {
        return false;
    }
    if signin_meta_or_social(set, o.post_meta, depth, class) {
        return false;
    }
    if logo_or_ad(set, both, slots, class, id) {
        return false;
    }
    if not_block(name, tag) {
        return true;
    }
    by_block(both, s, l, slots, o, i, tag, depth, class, id)
}

fn are_empty(class: &[u8], id: &[u8]) -> bool
    ensures { result ≡ (is_empty class.now && is_empty id.now) }
{
    class.is_empty() && id.is_empty()
}

// From `hidden` on.
fn by_attributes(
    s: &[u8],
    l: Layout,
    slots: &Slots,
    o: ExtractOptions,
    i: usize,
    name: &[u8],
    tag: u8,
    depth: usize,
) -> bool
    requires { Accepted s.now l × (i < l.nodes) × Readable l slots.now.spans × (tag ≡ tag_of name.now) }
    ensures { (attributes : List Attribute) → Gathered s.now l attributes slots.now.spans → result ≡ by_attributes o (cluster_at s.now l i) depth name.now attributes }
{
    if hidden_by_attribute(s, l, slots) {
        return false;
    }
    let class = slots.value(s, l, attributes::CLASS);
    let id = slots.value(s, l, attributes::ID);
    let style = slots.value(s, l, attributes::STYLE);
    let set = candidates(b"", class);
    if not_displayed(set, o.hidden_elements, class, style) {
        return false;
    }
    if are_empty(class, id) {
        return unnamed(s, l, i, tag, depth);
    }
    by_class_and_id(set, s, l, slots, o, i, name, tag, depth, class, id)
}

// An element with count attribute lines from line first on.
fn by_name(
    s: &[u8],
    l: Layout,
    o: ExtractOptions,
    i: usize,
    name: &[u8],
    tag: u8,
    first: usize,
    count: usize,
    depth: usize,
    stack: &[usize],
) -> bool
    requires { Accepted s.now l × (i < l.nodes) × (tag ≡ tag_of name.now) × (first + count ≤ l.attributes) × Above (depths s.now l) i stack.now }
    ensures { result ≡ by_name (node_at s.now l) (depths s.now l) o i depth name.now (attributes_from s.now l first count) }
{
    if is_kept(name, tag) {
        return true;
    }
    if tag == tags::FOOTER {
        return footer(s, l, i, depth, stack);
    }
    if ul_cluster(s, l, i, tag, depth) {
        return false;
    }
    if article_cluster(s, l, i, tag, depth) {
        return false;
    }
    if is_dropped(name, tag) {
        return false;
    }
    let mut slots = Slots {
        spans: [None; SLOTS],
    };
    slots.gather(s, l, first, count);
    by_attributes(s, l, &slots, o, i, name, tag, depth)
}

// Row i, with the number of its tag, its first attribute line, its depth below body and the rows that it stands in.
pub fn is_main_content(
    s: &[u8],
    l: Layout,
    o: ExtractOptions,
    i: usize,
    tag: u8,
    first: usize,
    depth: usize,
    stack: &[usize],
) -> bool
    requires { Accepted s.now l × (i < l.nodes) × (tag ≡ tag_number s.now l i) × (first ≡ counts_from s.now l 0 i) × Above (depths s.now l) i stack.now }
    ensures { result ≡ is_main_content (node_at s.now l) (depths s.now l) o i depth }
{
    let row = row_at(s, l, i);
    if row.kind == 3 {
        return !is_icon(o.icons, text::trim(part(s, l, row.value_at, row.value_len)));
    }
    if row.kind != 1 {
        return true;
    }
    by_name(
        s,
        l,
        o,
        i,
        part(s, l, row.name_at, row.name_len),
        tag,
        first,
        row.attributes,
        depth,
        stack,
    )
}
