// Tests on an element's name, with its tag's number at hand.
ghost use Rattle.std.specs.Prelude.{◌≡◌};
ghost use Rattle.tags.specs.Tags.{tag_of};
ghost use Rattle.tags.specs.Words.{one_of, words};
ghost use Rattle.filters.specs.Filters.{not_block};

pub fn is_kept(name: &[u8], tag: u8) -> bool
    requires { tag ≡ tag_of name.now }
    ensures { result ≡ one_of name.now (words "body main h1") }
{
    match tag {
        tags::MAIN | tags::H1 => true,
        tags::OTHER => common::same(name, b"body"),
        _ => false,
    }
}

pub fn is_dropped(name: &[u8], tag: u8) -> bool
    requires { tag ≡ tag_of name.now }
    ensures { result ≡ one_of name.now (words "nav aside audio video time") }
{
    match tag {
        tags::NAV | tags::ASIDE => true,
        tags::OTHER => common::same(name, b"audio")
            || common::same(name, b"video")
            || common::same(name, b"time"),
        _ => false,
    }
}

// td is no block, and is told from th by its name.
pub fn not_block(name: &[u8], tag: u8) -> bool
    requires { tag ≡ tag_of name.now }
    ensures { result ≡ not_block name.now }
{
    match tag {
        tags::OTHER => true,
        tags::CELL => !common::same(name, b"td"),
        _ => tag > tags::TABLE,
    }
}
