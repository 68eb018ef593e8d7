// The regexes of filters.rs: is one of them found in a text?
#![tactic(auto)]

ghost use Rattle.std.specs.Prelude.{true, ◌≡◌, ◌+◌, ◌*◌, ◌≤◌, ◌<◌, drop, length};
ghost use Rattle.common.specs.Bytes.{length_limit};
ghost use Rattle.byte_regex.specs.Joined.{joined};
ghost use Rattle.byte_regex.specs.Steps.{start_of};
ghost use Rattle.byte_regex.specs.Meaning.{holds, still};
ghost use Rattle.patterns.specs.Patterns.{patterns};
ghost use Rattle.patterns.specs.Match.{matches_of};
ghost use Rattle.patterns.specs.Numbers.{number_of, Numbered};
ghost use Rattle.patterns.specs.Steps.{all_steps};
ghost use Rattle.patterns.specs.Candidates.{bit, CanBegin, Candidates, code_of, group_at, mask_of, mask_row};
ghost use Rattle.patterns.specs.Answers.{answer_of, matched, numbers};

use crate::masks::lent_masks;
use crate::table::lent_steps;

pub mod masks;
pub mod table;
pub mod theorems;

// The patterns, numbered in the order of filters.rs.
#[derive(Clone, Copy, Debug, PartialEq, Eq)]
pub enum Pattern {
    ArticleCls,
    NavCls,
    RecommendedCls,
    LandmarkId,
    HeaderCls,
    FooterCls,
    PostMetaCls,
    SidebarCls,
    SearchCls,
    SkipLinkCls,
    DisplayCls,
    DisplayCss,
    ModalCls,
    GalleryCls,
    SigninCls,
    AdsCls,
    SocialCls,
    CommentsCls,
    LogoCls,
    PrintCls,
    OtherJunkCls,
}

// There is no pattern of this number.
#[derive(Clone, Copy, Debug, PartialEq, Eq)]
pub struct NoPattern(pub usize);

impl Pattern {
    fn number(self) -> usize
        ensures { result ≡ number_of self }
    {
        self as usize
    }
}

// The pattern of a number.
impl TryFrom<usize> for Pattern {
    type Error = NoPattern;

    ghost try_from_gives = { Numbered };

    fn try_from(number: usize) -> Result<Pattern, NoPattern> {
        match number {
            0 => Ok(Pattern::ArticleCls),
            1 => Ok(Pattern::NavCls),
            2 => Ok(Pattern::RecommendedCls),
            3 => Ok(Pattern::LandmarkId),
            4 => Ok(Pattern::HeaderCls),
            5 => Ok(Pattern::FooterCls),
            6 => Ok(Pattern::PostMetaCls),
            7 => Ok(Pattern::SidebarCls),
            8 => Ok(Pattern::SearchCls),
            9 => Ok(Pattern::SkipLinkCls),
            10 => Ok(Pattern::DisplayCls),
            11 => Ok(Pattern::DisplayCss),
            12 => Ok(Pattern::ModalCls),
            13 => Ok(Pattern::GalleryCls),
            14 => Ok(Pattern::SigninCls),
            15 => Ok(Pattern::AdsCls),
            16 => Ok(Pattern::SocialCls),
            17 => Ok(Pattern::CommentsCls),
            18 => Ok(Pattern::LogoCls),
            19 => Ok(Pattern::PrintCls),
            20 => Ok(Pattern::OtherJunkCls),
            _ => Err(NoPattern(number)),
        }
    }
}

// Where the steps of each pattern begin, and where the last ends.
const STARTS: [u16; 22] = [
    0, 83, 290, 433, 497, 571, 705, 973, 1040, 1076, 1205, 1319, 1370, 1432, 1458, 1536, 1648,
    1928, 1994, 2014, 2025, 2059,
];

// Where the steps of a pattern begin.
fn start(pattern: Pattern) -> u16
    ensures { result ≡ start_of patterns (number_of pattern) }
{
    STARTS[pattern.number()]
}

// The code of a byte.
fn code_of(x: u8) -> usize
    ensures { result ≡ code_of x }
{
    lent_masks()[usize::from(x)] as usize
}

// The patterns that can begin where two bytes stand, by one of the four groups of rows.
#[tactic(auto, using(crate::proofs::ByteCodes::code_lt))]
fn pair(group: usize, x: u8, y: u8) -> u32
    requires { group < 4 }
    ensures { result ≡ mask_of (mask_row (group * 32 + code_of x)) (code_of y) }
{
    let row = group * 32 + code_of(x);
    lent_masks()[256 + (row * 32 + code_of(y))]
}

// Which rows of masks are for a place.
fn group_at(at: usize) -> usize
    ensures { (result ≡ group_at at) × (result < 3) }
{
    if at == 0 { 2 } else { 0 }
}

// The patterns that can begin at a place, by the four bytes there.
fn beginning(class: &[u8], id: &[u8], n: usize, at: usize) -> u32
    requires { (at < n) × (n ≡ length (joined class.now id.now)) }
    ensures { CanBegin (still true at) (drop at (joined class.now id.now)) result }
{
    if n - at < 2 {
        return 0;
    }
    let group = group_at(at);
    let near = pair(
        group,
        byte_regex::byte(class, id, at),
        byte_regex::byte(class, id, at + 1),
    );
    if near == 0 || n - at < 4 {
        return near;
    }
    near & pair(
        group + 1,
        byte_regex::byte(class, id, at + 2),
        byte_regex::byte(class, id, at + 3),
    )
}

// Whether a pattern is in a set.
fn has(set: u32, pattern: Pattern) -> bool
    ensures { result ≡ bit set (number_of pattern) }
{
    (set >> pattern.number()) % 2 == 1
}

// A set of patterns with each that class and id as one text match.
pub fn candidates(class: &[u8], id: &[u8]) -> u32
    requires { length class.now + length id.now < length_limit }
    ensures { Candidates result (joined class.now id.now) }
{
    let n = byte_regex::size(class, id);
    let mut set = 0;
    for at in 0..n {
        set |= beginning(class, id, n, at);
    }
    set
}

// Whether the pattern fits from a place on.
fn begins(pattern: Pattern, first: usize, class: &[u8], id: &[u8], n: usize, at: usize) -> bool
    requires { (first ≡ start_of patterns (number_of pattern)) × (at < n) × (n ≡ length (joined class.now id.now)) }
    ensures { result ≡ holds all_steps first (joined class.now id.now) at }
{
    has(beginning(class, id, n, at), pattern)
        && byte_regex::run(lent_steps(), first, class, id, n, at)
}

// The places one after the other.
fn search(pattern: Pattern, class: &[u8], id: &[u8], n: usize) -> bool
    requires { n ≡ length (joined class.now id.now) }
    ensures { result ≡ matches_of (number_of pattern) (joined class.now id.now) }
{
    let first = usize::from(start(pattern));
    for at in 0..n {
        if begins(pattern, first, class, id, n, at) {
            return true;
        }
    }
    false
}

// Whether class and id as one text match the pattern. A single text goes in as the id, with an empty class.
pub fn matches_joined(pattern: Pattern, class: &[u8], id: &[u8]) -> bool
    requires { length class.now + length id.now < length_limit }
    ensures { result ≡ matches_of (number_of pattern) (joined class.now id.now) }
{
    search(pattern, class, id, byte_regex::size(class, id))
}

// The same, with the candidates at hand.
pub fn matches_among(set: u32, pattern: Pattern, class: &[u8], id: &[u8]) -> bool
    requires { (length class.now + length id.now < length_limit) × Candidates set (joined class.now id.now) }
    ensures { result ≡ matches_of (number_of pattern) (joined class.now id.now) }
{
    has(set, pattern) && matches_joined(pattern, class, id)
}

// Whether the bytes match the pattern: some run of them fits.
pub fn matches(pattern: usize, s: &[u8]) -> Result<bool, NoPattern>
    ensures { (result ≡ matched pattern s.now) × (numbers result ≡ answer_of pattern s.now) }
{
    Ok(search(Pattern::try_from(pattern)?, b"", s, s.len()))
}
