// The tests of `collect`, on options and on the number of a tag (crates/tags).
ghost use Rattle.std.specs.Prelude.{◌&&◌, ◌||◌, ◌≡◌};
ghost use Rattle.html2text.specs.Collect.{is_break, is_link, pushes_after};
ghost use Rattle.tags.specs.Tags.{is_big_block, is_block_tag, is_button, is_cell, is_image, is_pre, is_textarea};

use options::ExtractOptions;

// The names of blocks are TR and UL to TABLE.
pub fn is_block(tag: u8) -> bool
    ensures { result ≡ is_block_tag tag }
{
    tag == tags::TR || (tags::UL <= tag && tag <= tags::TABLE)
}

pub fn is_big_block(tag: u8) -> bool
    ensures { result ≡ is_big_block tag }
{
    (tags::H1 <= tag && tag <= tags::H4) || tag == tags::P
}

pub fn is_pre(tag: u8) -> bool
    ensures { result ≡ (is_pre tag || is_textarea tag) }
{
    tag == tags::PRE || tag == tags::TEXTAREA
}

pub fn is_image(tag: u8) -> bool
    ensures { result ≡ is_image tag }
{
    tag == tags::IMG || tag == tags::AREA
}

pub fn is_bracketed(tag: u8) -> bool
    ensures { result ≡ (is_textarea tag || is_button tag) }
{
    tag == tags::TEXTAREA || tag == tags::BUTTON
}

// `name == "br" && opts.formatting == Formatting::Basic`
pub fn is_break(o: ExtractOptions, tag: u8) -> bool
    ensures { result ≡ is_break o tag }
{
    let f = o.formatting;
    f.is_basic() && tag == tags::BR
}

// `opts.links && name == "a"`
pub fn is_link(o: ExtractOptions, tag: u8) -> bool
    ensures { result ≡ is_link o tag }
{
    o.links && tag == tags::A
}

fn is_textarea_or_cell(tag: u8) -> bool
    ensures { result ≡ (is_textarea tag || is_cell tag) }
{
    tag == tags::TEXTAREA || tag == tags::CELL
}

// Whether a visit at depth opens an entry, where one is open already, of a row at depth last.
pub fn pushes_after(o: ExtractOptions, last: usize, tag: u8, depth: usize) -> bool
    ensures { result ≡ pushes_after o last tag depth }
{
    is_block(tag) || depth < last || is_link(o, tag) || is_textarea_or_cell(tag)
}
