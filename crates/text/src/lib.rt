// The functions on bytes of html2text.rs.
#![tactic(auto)]

pub mod theorems;

ghost use Rattle.std.specs.Prelude.{◌≡◌, ◌+◌, ◌≤◌, drop, length};
ghost use Rattle.common.specs.Answer.{capped, numbers, out_after, written_in};
ghost use Rattle.common.specs.Puts.{Puts};
ghost use Rattle.text.specs.Text.{collapse, collapse_from, escape, escaped, is_space, rstrip, space_after, squeezed, trim, trim_start_by};

use common::TooShort;

// How many bytes a collapsed text has, and whether a blank is the last of them.
#[derive(Clone, Copy)]
pub struct Squeezed {
    pub len: usize,
    pub space: bool,
}

// ASCII whitespace and U+000B. In this form LLVM makes no branch of it.
#[tactic(auto, unfolding(crate::specs::Text::is_space, crate::specs::Text::is_ascii_whitespace))]
pub fn is_space(b: u8) -> bool
    ensures { result ≡ is_space b }
{
    b == b' ' || matches!(b, 9..=13)
}

// The length without the blanks at the end.
pub fn rstrip(s: &[u8]) -> usize
    ensures { result ≡ length (rstrip s.now) }
{
    for n in (0..s.len()).rev() {
        if !is_space(s[n]) {
            return n + 1;
        }
    }
    0
}

// How many blanks stand in front.
pub fn leading(s: &[u8]) -> usize
    ensures { (result ≤ length s.now) × (drop result s.now ≡ trim_start_by is_space s.now) }
{
    for i in 0..s.len() {
        if !is_space(s[i]) {
            return i;
        }
    }
    s.len()
}

// The part between the blanks at both ends.
pub fn trim(s: &[u8]) -> &[u8]
    ensures { result.now ≡ trim s.now }
{
    let from = leading(s);
    let t = &s[from..];
    let n = rstrip(t);
    &t[..n]
}

// How many bytes a character adds to the collapsed text.
fn squeezed_len(blank: bool, space: bool) -> usize
    ensures { result ≡ length (squeezed blank space 0) }
{
    if blank && space { 0 } else { 1 }
}

// The bytes that a text adds to a collapsed text, by whether a blank stands before it; and whether one stands before what follows.
pub fn collapsed_from(s: &[u8], space: bool) -> Squeezed
    ensures { (result.len ≡ length (collapse_from is_space space s.now)) × (result.space ≡ space_after is_space space s.now) }
{
    let mut n = 0;
    let mut before = space;
    for &b in s {
        let blank = is_space(b);
        n += squeezed_len(blank, before);
        before = blank;
    }
    Squeezed {
        len: n,
        space: before,
    }
}

#[tactic(auto, unfolding(crate::specs::Text::collapse_by))]
pub fn collapsed_len(s: &[u8]) -> usize
    ensures { result ≡ length (collapse s.now) }
{
    collapsed_from(s, false).len
}

// What a character adds to the collapsed text, stored at at; the place past it.
fn put_squeezed(out: &mut [u8], at: usize, b: u8, blank: bool, space: bool) -> usize
    requires { at + length (squeezed blank space b) ≤ length out.old }
    ensures { Puts out.old at (squeezed blank space b) out.new result }
{
    if blank && space {
        return at;
    }
    out[at] = if blank { b' ' } else { b };
    at + 1
}

fn put_collapsed(out: &mut [u8], s: &[u8]) -> usize
    requires { length (collapse s.now) ≤ length out.old }
    ensures { Puts out.old 0 (collapse s.now) out.new result }
{
    let mut at = 0;
    let mut space = false;
    for &b in s {
        let blank = is_space(b);
        at = put_squeezed(out, at, b, blank, space);
        space = blank;
    }
    at
}

// Each run of blanks as one U+0020, and zeros behind the text; its length.
pub fn collapse(s: &[u8], out: &mut [u8]) -> Result<usize, TooShort>
    ensures answer { numbers result ≡ written_in (collapse s.now) (length out.old) }
    ensures buffer { out.new ≡ out_after (collapse s.now) out.old }
{
    let need = collapsed_len(s);
    if out.len() < need {
        return Err(TooShort { need });
    }
    let n = put_collapsed(out, s);
    common::clear(out, n);
    Ok(n)
}

// How many bytes a character adds to the escaped text.
#[tactic(auto, unfolding(crate::specs::Text::escaped, common::specs::Bytes::codes))]
pub fn entity_len(b: u8) -> usize
    ensures { result ≡ length (escaped b) }
{
    match b {
        38 => 5,
        34 => 6,
        60 => 4,
        62 => 4,
        _ => 1,
    }
}

pub fn escaped_len(s: &[u8]) -> usize
    ensures { result ≡ capped (length (escape s.now)) }
{
    let mut n = 0usize;
    for &b in s {
        n = n.saturating_add(entity_len(b));
    }
    n
}

// What a character adds to the escaped text, stored at at; the place past it.
#[tactic(auto, using(common::proofs::Puts::puts_one), unfolding(crate::specs::Text::escaped, common::specs::Bytes::codes))]
pub fn put_entity(out: &mut [u8], at: usize, b: u8) -> usize
    requires { at + length (escaped b) ≤ length out.old }
    ensures { Puts out.old at (escaped b) out.new result }
{
    match b {
        38 => common::put(out, at, b"&amp;"),
        34 => common::put(out, at, b"&quot;"),
        60 => common::put(out, at, b"&lt;"),
        62 => common::put(out, at, b"&gt;"),
        _ => {
            out[at] = b;
            at + 1
        }
    }
}

fn put_escaped(out: &mut [u8], s: &[u8]) -> usize
    requires { length (escape s.now) ≤ length out.old }
    ensures { Puts out.old 0 (escape s.now) out.new result }
{
    let mut at = 0;
    for &b in s {
        at = put_entity(out, at, b);
    }
    at
}

// `&`, `"`, `<` and `>` as their entities, and zeros behind the text; its length. The steps are those of
// `collapse`; one function for both, with a closure for each step and what it promises, would be longer than the two.
pub fn escape(s: &[u8], out: &mut [u8]) -> Result<usize, TooShort>
    ensures answer { numbers result ≡ written_in (escape s.now) (length out.old) }
    ensures buffer { out.new ≡ out_after (escape s.now) out.old }
{
    let need = escaped_len(s);
    if out.len() < need {
        return Err(TooShort { need });
    }
    let n = put_escaped(out, s);
    common::clear(out, n);
    Ok(n)
}
