// One step of `serialize`, over numbers and lent arrays, its text piece by piece: it is written, or only measured.
#![tactic(auto)]

mod html;
mod lists;
mod margins;
mod rows;
pub mod step;
pub mod texts;

ghost use Rattle.std.specs.Prelude.{◌≡◌, ◌-◌};
ghost use Rattle.html2text.specs.Serialize.{changes_level, one};
ghost use Rattle.tags.specs.Tags.{is_list};
ghost use Rattle.serializer.specs.Serializing.{no_serializer};

use html2text::Showing;
use writer::Writer;

// The state of `serialize`. `numbering` and `row_has_cell` are lent; their first `depth` and `rows` elements are in use. prefix: what stands
// before an item's text, 0 nothing, 1 a bullet, k + 1 the number k; bullet: 1 where `bullet`. Words alone, so that a copy has no gaps.
#[derive(Clone, Copy)]
pub struct Serializer {
    pub writer: Writer,
    pub depth: usize,
    pub margins: usize,
    pub uncollapsed: usize,
    pub rows: usize,
    pub prefix: usize,
    pub bullet: usize,
}

// Behind all of a step but the text, and how the text is shown.
#[derive(Clone, Copy)]
pub struct Begun {
    pub serializer: Serializer,
    pub showing: Showing,
}

// Along an entry: the state with what is known of its text; how more of it is shown; the length of its text before it is shortened, and
// the greatest such length so far, both kept where nothing is written; and how many bytes of escaped texts were read.
#[derive(Clone, Copy)]
pub struct Progress {
    pub serializer: Serializer,
    pub len: usize,
    pub need: usize,
    pub read: usize,
    pub showing: Showing,
}

impl Serializer {
    // Before the first entry.
    pub fn new() -> Serializer
        ensures { result ≡ no_serializer }
    {
        Serializer {
            writer: Writer::START,
            prefix: 0,
            bullet: 0,
            depth: 0,
            margins: 0,
            uncollapsed: 0,
            rows: 0,
        }
    }
}

// `usize::from(b)`
fn one(b: bool) -> usize
    ensures { result ≡ one b }
{
    usize::from(b)
}

// `x.saturating_sub(1)`
pub fn less_one(x: usize) -> usize
    ensures { result ≡ x - 1 }
{
    x.saturating_sub(1)
}

// `matches!(n.tag.as_str(), "ul" | "ol")`
fn is_list(tag: u8) -> bool
    ensures { result ≡ is_list tag }
{
    tag == tags::UL || tag == tags::OL
}

// Whether a list level opens or closes.
pub fn changes_level(tag: u8, depth: usize) -> bool
    ensures { result ≡ changes_level tag depth }
{
    is_list(tag) || (tag == tags::LI && depth == 0)
}
