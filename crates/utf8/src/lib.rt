// Whether bytes are UTF-8 (RFC 3629).
#![tactic(auto)]

pub mod character;
pub mod theorems;

ghost use Rattle.std.specs.Prelude.{true, ◌≡◌, ◌+◌, ◌<◌, ◌≤◌, drop, get_or, length, take};
ghost use Rattle.utf8.specs.Abnf.{UTF8_char, UTF8_tail};
ghost use Rattle.utf8.specs.State.{Ascii, Passed, Passes, ranges, second};
ghost use Rattle.utf8.specs.Valid.{between, follow, valid, within};

// What has to come before the next character: count octets, the first from low to high, the others tails.
#[derive(Clone, Copy)]
struct Expected {
    count: u8,
    low: u8,
    high: u8,
}

// What has to follow a first octet. Nothing can where low is above high, as of the range `never` (specs/Valid).
fn first(b: u8) -> Expected
    ensures { ranges result ≡ follow UTF8_char b }
{
    let (count, low, high) = match b {
        ..=0x7F => (0, 0x80, 0xBF),
        ..=0xC1 => (1, 1, 0),
        ..=0xDF => (1, 0x80, 0xBF),
        0xE0 => (2, 0xA0, 0xBF),
        0xED => (2, 0x80, 0x9F),
        ..=0xEF => (2, 0x80, 0xBF),
        0xF0 => (3, 0x90, 0xBF),
        ..=0xF3 => (3, 0x80, 0xBF),
        0xF4 => (3, 0x80, 0x8F),
        _ => (1, 1, 0),
    };
    Expected { count, low, high }
}

// Whether an octet is from low to high.
fn is_second(e: Expected, b: u8) -> bool
    ensures { result ≡ within (second e) b }
{
    e.low <= b && b <= e.high
}

pub fn is_tail(b: u8) -> bool
    ensures { result ≡ within UTF8_tail b }
{
    matches!(b, 0x80..=0xBF)
}

// The place behind the character at i, whose first octet is followed by e.
fn pass_tails(s: &[u8], i: usize, e: Expected) -> Option<usize>
    requires { (i < length s.now) × (e.count ≤ 3) × (ranges e ≡ follow UTF8_char (get_or s.now i 0)) }
    ensures { Passes s.now i result }
{
    if s.len() - i <= usize::from(e.count) {
        return None;
    }
    if e.count == 0 {
        return Some(i + 1);
    }
    if !is_second(e, s[i + 1]) {
        return None;
    }
    if e.count == 1 {
        return Some(i + 2);
    }
    if !is_tail(s[i + 2]) {
        return None;
    }
    if e.count == 2 {
        return Some(i + 3);
    }
    if !is_tail(s[i + 3]) {
        return None;
    }
    Some(i + 4)
}

// Whether the eight octets at i are ASCII: none has its highest bit set.
fn is_ascii(s: &[u8], i: usize) -> bool
    requires { i + 8 ≤ length s.now }
    ensures { result ≡ true → Ascii s.now i (i + 8) }
{
    common::word_at(s, i) & 0x8080808080808080 == 0
}

// The place behind the octet of ASCII at i, or behind more of ASCII by one look at eight octets.
fn pass_ascii(s: &[u8], i: usize) -> usize
    requires { (i < length s.now) × (get_or s.now i 0 < 0x80) }
    ensures { Passed s.now i result }
{
    if s.len() < 8 {
        return i + 1;
    }
    let last = s.len() - 8;
    if i <= last {
        if is_ascii(s, i) {
            return i + 8;
        }
        return i + 1;
    }
    if is_ascii(s, last) {
        return s.len();
    }
    i + 1
}

// The place behind the character at i, or behind more of ASCII.
fn pass(s: &[u8], i: usize) -> Option<usize>
    requires { i < length s.now }
    ensures { Passes s.now i result }
{
    let b = s[i];
    if b < 0x80 {
        return Some(pass_ascii(s, i));
    }
    pass_tails(s, i, first(b))
}

// Whether the bytes are UTF-8, in one pass.
pub fn valid(s: &[u8]) -> bool
    ensures { result ≡ valid s.now }
{
    let mut i = 0;
    while i < s.len() {
        let Some(next) = pass(s, i) else {
            return false;
        };
        i = next;
    }
    true
}

// Whether a place of UTF-8 stands between two characters, or at an end: no tail is there.
fn is_between(s: &[u8], i: usize) -> bool
    requires { i ≤ length s.now }
    ensures { result ≡ between s.now i }
{
    i == s.len() || !is_tail(s[i])
}

// Whether a part of UTF-8 is UTF-8, without reading it: it is where it is empty, or begins and ends between two characters.
pub fn valid_part(s: &[u8], at: usize, len: usize) -> bool
    requires { (valid s.now ≡ true) × (at + len ≤ length s.now) }
    ensures { result ≡ valid (take len (drop at s.now)) }
{
    len == 0 || (is_between(s, at) && is_between(s, at + len))
}
