// The inverse of `escape`: the four names become their characters, all else is copied.
#![tactic(auto)]

pub mod theorems;

ghost use Rattle.std.specs.Prelude.{true, ◌≡◌, ◌≤◌, drop, length};
ghost use Rattle.common.specs.Lanes.{Each};
ghost use Rattle.common.specs.Puts.{Puts};
ghost use Rattle.common.specs.Word.{octets};
ghost use Rattle.unescape.specs.Answers.{unescaped_in, unescaped_out};
ghost use Rattle.unescape.specs.Inner.{FreeOf, NextAmpersand, measure, part_of};
ghost use Rattle.unescape.specs.Unescape.{ampersand, entity, unescape, unescaped};

// The ampersand at this offset starts none of the names; or the output is shorter than the need.
#[derive(Clone, Copy, Debug, PartialEq, Eq)]
pub enum UnescapeError {
    NoEntity(usize),
    TooShort(usize),
}

// What an ampersand starts: a character and its name's length, or the ampersand itself with length 1, since it is stored and passed over
// as a name is.
#[derive(Clone, Copy)]
struct Part {
    character: u8,
    len: usize,
}

// Whether no byte of the eight is an ampersand.
fn is_free(w: usize) -> bool
    ensures { result ≡ true → Each (λ c. c ≡ ampersand → ⊥) (octets 8 w) }
{
    let low = w & 0x7F7F7F7F7F7F7F7F;
    let other = (low ^ 0x2626262626262626) + 0x7F7F7F7F7F7F7F7F;
    (other | w) & 0x8080808080808080 == 0x8080808080808080
}

// A place from `from` on up to which no ampersand stands, by eight bytes at a time.
fn free_words(s: &[u8], from: usize) -> usize
    requires { from ≤ length s.now }
    ensures { FreeOf s.now from result }
{
    let mut i = from;
    while s.len() - i >= 8 {
        if !is_free(common::word_at(s, i)) {
            return i;
        }
        i += 8;
    }
    i
}

// Where the first ampersand from `from` on stands; the text's end where there is none.
fn next_ampersand(s: &[u8], from: usize) -> usize
    requires { from ≤ length s.now }
    ensures { NextAmpersand s.now from result }
{
    for i in free_words(s, from)..s.len() {
        if s[i] == b'&' {
            return i;
        }
    }
    s.len()
}

// What the ampersand at `at` starts.
fn part_at(s: &[u8], at: usize) -> Part
    requires { at ≤ length s.now }
    ensures { result ≡ part_of (entity (drop at s.now)) }
{
    let text = &s[at..];
    if text.starts_with(b"&amp;") {
        return Part {
            character: b'&',
            len: 5,
        };
    }
    if text.starts_with(b"&quot;") {
        return Part {
            character: b'"',
            len: 6,
        };
    }
    if text.starts_with(b"&lt;") {
        return Part {
            character: b'<',
            len: 4,
        };
    }
    if text.starts_with(b"&gt;") {
        return Part {
            character: b'>',
            len: 4,
        };
    }
    Part {
        character: b'&',
        len: 1,
    }
}

// How many bytes the characters of a text have, or where an ampersand starts none of the names.
fn measure(s: &[u8]) -> Result<usize, UnescapeError>
    ensures { result ≡ measure (unescape s.now) }
{
    let mut n = s.len();
    let mut i = next_ampersand(s, 0);
    while i < s.len() {
        let p = part_at(s, i);
        if p.len == 1 {
            return Err(UnescapeError::NoEntity(i));
        }
        n -= p.len - 1;
        i = next_ampersand(s, i + p.len);
    }
    Ok(n)
}

// The characters from the start of `out` on; the place past them.
fn put_unescaped(out: &mut [u8], s: &[u8]) -> usize
    requires { length (unescaped s.now) ≤ length out.old }
    ensures { Puts out.old 0 (unescaped s.now) out.new result }
{
    let mut i = next_ampersand(s, 0);
    let mut at = common::put(out, 0, &s[..i]);
    while i < s.len() {
        let p = part_at(s, i);
        out[at] = p.character;
        let past = i + p.len;
        i = next_ampersand(s, past);
        at = common::put(out, at + 1, &s[past..i]);
    }
    at
}

// The characters of an escaped text, and zeros behind them; how many they are.
pub fn unescape(s: &[u8], out: &mut [u8]) -> Result<usize, UnescapeError>
    ensures answer { result ≡ unescaped_in s.now (length out.old) }
    ensures buffer { out.new ≡ unescaped_out s.now out.old }
{
    let need = measure(s)?;
    if out.len() < need {
        return Err(UnescapeError::TooShort(need));
    }
    let n = put_unescaped(out, s);
    common::clear(out, n);
    Ok(n)
}
