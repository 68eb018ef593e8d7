// The names that `extract_plain_text` of html2text.rs takes out, and the lists that have them.
ghost use Rattle.std.specs.Prelude.{◌≡◌, ◌≤◌, length};
ghost use Rattle.tags.specs.Packed.{packed};
ghost use Rattle.tags.specs.Words.{one_of};
ghost use Rattle.marking.specs.Lists.{list_of, short_names};
ghost use Rattle.marking.specs.Names.{skip_names};
ghost use Rattle.marking.specs.declared.names.SkipList.TheVariants.{Unlisted};

use options::ExtractOptions;
use tags::pack;

// The list that a name stands in.
#[derive(Clone, Copy, Debug, PartialEq, Eq)]
pub enum SkipList {
    Always,
    Media,
    Noscript,
    Fields,
    Unlisted,
}

// Names of up to 7 bytes, by their numbers: one comparison each, and a goal each, where a match on byte strings tests byte by byte, with a
// goal wherever one differs.
fn list_of_seven(v: u64) -> SkipList
    ensures { result ≡ packed list_of Unlisted short_names v }
{
    match v {
        // script
        409501130974067 => SkipList::Always,
        // style
        1535123223667 => SkipList::Always,
        // iframe
        392995437438569 => SkipList::Always,
        // frame
        1535138427494 => SkipList::Always,
        // object
        409445228765807 => SkipList::Media,
        // video
        1577954077046 => SkipList::Media,
        // audio
        1578021188961 => SkipList::Media,
        // embed
        1530709306725 => SkipList::Media,
        // img
        23555433 => SkipList::Media,
        // area
        5929005665 => SkipList::Media,
        // svg
        23557747 => SkipList::Media,
        // figure
        393017247099238 => SkipList::Media,
        // input
        1599698136681 => SkipList::Fields,
        // button
        402899950925154 => SkipList::Fields,
        // select
        409445228897651 => SkipList::Fields,
        // option
        402899766374511 => SkipList::Fields,
        // label
        1565069042028 => SkipList::Fields,
        _ => SkipList::Unlisted,
    }
}

// Names of 8 bytes and more. A match on their byte strings has a goal for each byte at which one differs.
fn list_of_long(name: &[u8]) -> SkipList
    requires { 8 ≤ length name.now }
    ensures { result ≡ list_of name.now }
{
    if common::same(name, b"template") {
        return SkipList::Always;
    }
    if common::same(name, b"noscript") {
        return SkipList::Noscript;
    }
    if common::same(name, b"textarea") {
        return SkipList::Fields;
    }
    if common::same(name, b"figcaption") {
        return SkipList::Media;
    }
    SkipList::Unlisted
}

fn list_of(name: &[u8]) -> SkipList
    ensures { result ≡ list_of name.now }
{
    if name.len() <= 7 {
        return list_of_seven(pack(name));
    }
    list_of_long(name)
}

// Whether the Rust's list of selectors, under these options, has the name.
pub fn is_skip_name(name: &[u8], options: ExtractOptions, noscript: bool) -> bool
    ensures { result ≡ one_of name.now (skip_names options noscript) }
{
    match list_of(name) {
        SkipList::Always => true,
        SkipList::Media => !options.alt_texts,
        SkipList::Noscript => !noscript,
        SkipList::Fields => !options.form_fields,
        SkipList::Unlisted => false,
    }
}
