// What the steps make of an element, by its name.
ghost use Rattle.std.specs.Prelude.{◌≡◌, ◌≤◌, length};
ghost use Rattle.tags.specs.Packed.{packed};
ghost use Rattle.tags.specs.Words.{words};
ghost use Rattle.visible_text.specs.Inner.{step_of};

use tags::pack;

// Nothing but what is below it.
pub const INLINE: u8 = 0;

// An LF at its begin, and at its end where it is the last child.
pub const BLOCK: u8 = 1;

// Two of them: p.
pub const PARAGRAPH: u8 = 2;

// Copied whole; a block at its end.
pub const PRE: u8 = 3;

// An LF, and nothing of what is below it.
pub const BR: u8 = 4;

// Nothing of it: script, style and noscript.
pub const SILENT: u8 = 5;

// Names of up to 2 bytes.
fn step_of_two(v: u64) -> u8
    ensures { result ≡ packed step_of 0 (words "p li br dd dt dl hr h1 h2 h3 h4 h5 h6 ol ul") v }
{
    match v {
        // p
        368 => PARAGRAPH,
        // li
        92524 => BLOCK,
        // br
        94818 => BR,
        // dd
        91236 => BLOCK,
        // dt
        95332 => BLOCK,
        // dl
        93284 => BLOCK,
        // hr
        94824 => BLOCK,
        // h1
        78184 => BLOCK,
        // h2
        78440 => BLOCK,
        // h3
        78696 => BLOCK,
        // h4
        78952 => BLOCK,
        // h5
        79208 => BLOCK,
        // h6
        79464 => BLOCK,
        // ol
        93295 => BLOCK,
        // ul
        93301 => BLOCK,
        _ => INLINE,
    }
}

// Names of 3 to 5 bytes.
fn step_of_five(v: u64) -> u8
    ensures { result ≡ packed step_of 0 (words "pre div nav form main aside style table tfoot video") v }
{
    match v {
        // pre
        23425648 => PRE,
        // div
        24537444 => BLOCK,
        // nav
        24535406 => BLOCK,
        // form
        6131183462 => BLOCK,
        // main
        6147367277 => BLOCK,
        // aside
        1534987957089 => BLOCK,
        // style
        1535123223667 => SILENT,
        // table
        1535121711476 => BLOCK,
        // tfoot
        1599597405812 => BLOCK,
        // video
        1577954077046 => BLOCK,
        _ => INLINE,
    }
}

// Names of 6 or 7 bytes.
fn step_of_seven(v: u64) -> u8
    ensures { result ≡ packed step_of 0 (words "script canvas figure footer header address article section") v }
{
    match v {
        // script
        409501130974067 => SILENT,
        // canvas
        408337412677987 => BLOCK,
        // figure
        393017247099238 => BLOCK,
        // footer
        407255047434086 => BLOCK,
        // header
        407254778078568 => BLOCK,
        // address
        104554095907726433 => BLOCK,
        // article
        100605740912505441 => BLOCK,
        // section
        103142340191020403 => BLOCK,
        _ => INLINE,
    }
}

// Names of 8 bytes and more.
fn step_of_long(name: &[u8]) -> u8
    requires { 8 ≤ length name.now }
    ensures { result ≡ step_of name.now }
{
    if common::same(name, b"noscript") {
        return SILENT;
    }
    if common::same(name, b"fieldset")
        || common::same(name, b"blockquote")
        || common::same(name, b"figcaption")
    {
        return BLOCK;
    }
    INLINE
}

// What the steps make of an element with this name.
pub fn step_of(name: &[u8]) -> u8
    ensures { result ≡ step_of name.now }
{
    let n = name.len();
    if n <= 2 {
        return step_of_two(pack(name));
    }
    if n <= 5 {
        return step_of_five(pack(name));
    }
    if n <= 7 {
        return step_of_seven(pack(name));
    }
    step_of_long(name)
}
