// Names of elements, and lists of words.
#![tactic(auto)]

ghost use Rattle.std.specs.Prelude.{◌≡◌, ◌≤◌, length};
ghost use Rattle.tags.specs.Line.{WordAt};
ghost use Rattle.tags.specs.Packed.{pack_of, short_names, tag_packed};
ghost use Rattle.tags.specs.Tags.{tag_of};
ghost use Rattle.tags.specs.Words.{one_of, words_of};

pub mod theorems;

// The numbers of the names that are told apart, td and th as CELL; those of blocks are TR and UL to TABLE. OTHER is any other name's, and
// that of a row without a name.
pub const OTHER: u8 = 0;

pub const TR: u8 = 1;

pub const CELL: u8 = 2;

pub const UL: u8 = 3;

pub const OL: u8 = 4;

pub const LI: u8 = 5;

pub const PRE: u8 = 6;

pub const BR: u8 = 7;

pub const H1: u8 = 8;

pub const H2: u8 = 9;

pub const H3: u8 = 10;

pub const H4: u8 = 11;

pub const H5: u8 = 12;

pub const H6: u8 = 13;

pub const P: u8 = 14;

pub const ADDRESS: u8 = 15;

pub const ARTICLE: u8 = 16;

pub const ASIDE: u8 = 17;

pub const BLOCKQUOTE: u8 = 18;

pub const CENTER: u8 = 19;

pub const DETAILS: u8 = 20;

pub const DD: u8 = 21;

pub const DT: u8 = 22;

pub const DIV: u8 = 23;

pub const DL: u8 = 24;

pub const FIELDSET: u8 = 25;

pub const FIGCAPTION: u8 = 26;

pub const FIGURE: u8 = 27;

pub const FOOTER: u8 = 28;

pub const FORM: u8 = 29;

pub const HEADER: u8 = 30;

pub const HGROUP: u8 = 31;

pub const HR: u8 = 32;

pub const MAIN: u8 = 33;

pub const NAV: u8 = 34;

pub const SECTION: u8 = 35;

pub const TABLE: u8 = 36;

pub const A: u8 = 37;

pub const TEXTAREA: u8 = 38;

pub const IMG: u8 = 39;

pub const AREA: u8 = 40;

pub const BUTTON: u8 = 41;

pub const INPUT: u8 = 42;

// Where the word at from ends: before the first space, or with the line.
fn word_end(words: &[u8], from: usize) -> usize
    requires { from ≤ length words.now }
    ensures { WordAt words.now from result }
{
    for i in from..words.len() {
        if words[i] == b' ' {
            return i;
        }
    }
    words.len()
}

// Whether s is one of the words of a line, with one space between two.
pub fn one_of(s: &[u8], words: &[u8]) -> bool
    ensures { result ≡ one_of s.now (words_of words.now) }
{
    let mut from = 0;
    let mut to = word_end(words, from);
    while to < words.len() {
        if common::same(s, &words[from..to]) {
            return true;
        }
        from = to + 1;
        to = word_end(words, from);
    }
    common::same(s, &words[from..])
}

// The bytes as one number to base 256, the last one first, behind a 1.
pub fn pack(name: &[u8]) -> u64
    requires { length name.now ≤ 7 }
    ensures { result ≡ pack_of name.now }
{
    let mut v: u64 = 1;
    for i in (0..name.len()).rev() {
        v = v * 256 + u64::from(name[i]);
    }
    v
}

// Names of up to 7 bytes.
#[tactic(auto, unfolding(crate::specs::Packed::packed, crate::specs::Packed::pack_of, crate::specs::Tags::tag_of, crate::specs::Tags::tag_names, crate::specs::Words::number_from, crate::specs::Words::words, crate::specs::Words::first_word, crate::specs::Words::other_words, common::specs::Bytes::codes, common::specs::Bytes::same))]
fn tag_of_short(v: u64) -> u8
    ensures { result ≡ tag_packed short_names v }
{
    match v {
        // tr
        94836 => TR,
        // td
        91252 => CELL,
        // th
        92276 => CELL,
        // ul
        93301 => UL,
        // ol
        93295 => OL,
        // li
        92524 => LI,
        // br
        94818 => BR,
        // h1
        78184 => H1,
        // h2
        78440 => H2,
        // h3
        78696 => H3,
        // h4
        78952 => H4,
        // h5
        79208 => H5,
        // h6
        79464 => H6,
        // p
        368 => P,
        // dd
        91236 => DD,
        // dt
        95332 => DT,
        // dl
        93284 => DL,
        // hr
        94824 => HR,
        // a
        353 => A,
        // pre
        23425648 => PRE,
        // aside
        1534987957089 => ASIDE,
        // div
        24537444 => DIV,
        // form
        6131183462 => FORM,
        // main
        6147367277 => MAIN,
        // nav
        24535406 => NAV,
        // table
        1535121711476 => TABLE,
        // img
        23555433 => IMG,
        // area
        5929005665 => AREA,
        // input
        1599698136681 => INPUT,
        // address
        104554095907726433 => ADDRESS,
        // article
        100605740912505441 => ARTICLE,
        // center
        407255047365987 => CENTER,
        // details
        104546416222037348 => DETAILS,
        // figure
        393017247099238 => FIGURE,
        // footer
        407255047434086 => FOOTER,
        // header
        407254778078568 => HEADER,
        // hgroup
        405124659963752 => HGROUP,
        // section
        103142340191020403 => SECTION,
        // button
        402899950925154 => BUTTON,
        _ => OTHER,
    }
}

// Names of 8 bytes and more.
fn tag_of_long(name: &[u8]) -> u8
    requires { 8 ≤ length name.now }
    ensures { result ≡ tag_of name.now }
{
    if common::same(name, b"textarea") {
        return TEXTAREA;
    }
    if common::same(name, b"fieldset") {
        return FIELDSET;
    }
    if common::same(name, b"blockquote") {
        return BLOCKQUOTE;
    }
    if common::same(name, b"figcaption") {
        return FIGCAPTION;
    }
    OTHER
}

// The number of a name, and 0 for one that is not told apart.
pub fn tag_of(name: &[u8]) -> u8
    ensures { result ≡ tag_of name.now }
{
    if name.len() <= 7 {
        tag_of_short(pack(name))
    } else {
        tag_of_long(name)
    }
}
