// Runs `text` and `utf8` over boundary inputs. A line for each input: its bytes; whether they are UTF-8; the length
// without blanks at the end; the trimmed bytes; then `collapse` and `escape` into a buffer of 0xEE that is exactly
// as long as the need, one shorter and three longer: the number, the second number, the length and the buffer.
#![tactic(auto)]

use common::TooShort;
use std::io;
use std::io::Print;

fn print<P: Print>(to: &P, s: &[u8]) -> io::Result<()> {
    to.write_all(s)
}

fn number<P: Print>(to: &P, n: usize) -> io::Result<()> {
    print!(to; " {n}")
}

// Both digits at once: `{b:02x}` clears a buffer of its own for each byte.
fn byte<P: Print>(to: &P, b: u8) -> io::Result<()> {
    let digits = b"0123456789abcdef";
    let high = digits[usize::from(b / 16)];
    let low = digits[usize::from(b % 16)];
    print(to, &[high, low])
}

fn bytes<P: Print>(to: &P, s: &[u8]) -> io::Result<()> {
    for b in s {
        byte(to, *b)?;
    }
    Ok(())
}

fn written<P: Print>(to: &P, w: Result<usize, TooShort>, out: &[u8]) -> io::Result<()> {
    match w {
        Ok(n) => {
            number(to, 0)?;
            number(to, 0)?;
            number(to, n)?;
        }
        Err(TooShort { need }) => {
            number(to, 32)?;
            number(to, need)?;
            number(to, 0)?;
        }
    }
    print(to, b" ")?;
    bytes(to, out)
}

fn need_of(w: Result<usize, TooShort>) -> usize {
    match w {
        Ok(n) => n,
        Err(TooShort { need }) => need,
    }
}

// `collapse` or `escape` as f, into a buffer of 0xEE of so many bytes.
fn write_into<P: Print, F: Fn(&[u8], &mut [u8]) -> Result<usize, TooShort>>(
    to: &P,
    f: &F,
    s: &[u8],
    room: usize,
) -> io::Result<()>
    requires { F.IsAlwaysCallable f.now }
{
    let mut out = [0xEEu8; 256];
    if room <= out.len() {
        let part = &mut out[..room];
        let w = f(s, part);
        written(to, w, part)?;
    }
    Ok(())
}

// Into one that is exactly as long as the need, one shorter and three longer.
fn write_all<P: Print, F: Fn(&[u8], &mut [u8]) -> Result<usize, TooShort>>(
    to: &P,
    f: &F,
    s: &[u8],
) -> io::Result<()>
    requires { F.IsAlwaysCallable f.now }
{
    let mut none = [0u8; 0];
    let need = need_of(f(s, &mut none));
    write_into(to, f, s, need)?;
    if 0 < need {
        write_into(to, f, s, need - 1)?;
    }
    if need < 253 {
        write_into(to, f, s, need + 3)?;
    }
    Ok(())
}

fn show<P: Print>(to: &P, s: &[u8]) -> io::Result<()> {
    bytes(to, s)?;
    if utf8::valid(s) {
        print(to, b" utf8")?;
    } else {
        print(to, b" other")?;
    }
    number(to, text::rstrip(s))?;
    print(to, b" ")?;
    bytes(to, text::trim(s))?;
    print(to, b" collapse")?;
    write_all(to, &text::collapse, s)?;
    print(to, b" escape")?;
    write_all(to, &text::escape, s)?;
    print(to, b"\n")
}

// Each byte alone.
fn single_bytes<P: Print>(to: &P) -> io::Result<()> {
    for b in 0..=u8::MAX {
        show(to, &[b])?;
    }
    Ok(())
}

fn blanks_and_entities<P: Print>(to: &P) -> io::Result<()> {
    show(to, b"")?;
    show(to, b" ")?;
    show(to, b" \t\n\x0B\x0C\r")?;
    show(to, b"a")?;
    show(to, b" a")?;
    show(to, b"a ")?;
    show(to, b"\t a \n b\r\x0C")?;
    show(to, b"a  b\x0B\x0Bc")?;
    show(to, b"\xC2\xA0a\xC2\xA0")?;
    show(to, b"&\"<>'")?;
    show(to, b"&amp;")?;
    show(to, b"<a href=\"u\">")
}

// The last octet of a character is missing.
fn truncated<P: Print>(to: &P) -> io::Result<()> {
    show(to, b"\xC3")?;
    show(to, b"\xC3\xA9")?;
    show(to, b"\xE2\x82")?;
    show(to, b"\xE2\x82\xAC")?;
    show(to, b"\xE2\x82\xAC\xE2")?;
    show(to, b"\xF0\x9F\x98")?;
    show(to, b"\xF0\x9F\x98\x80")?;
    show(to, b"\xF0\x9F\x98\x80a\xF0")?;
    show(to, b"\xC3a")?;
    show(to, b"\xE2\x82a")?;
    show(to, b"\xF0\x9F\x98a")
}

// A longer form than the number needs, beside the least number of that length.
fn overlong<P: Print>(to: &P) -> io::Result<()> {
    show(to, b"\xC0\x80")?;
    show(to, b"\xC1\xBF")?;
    show(to, b"\xC2\x80")?;
    show(to, b"\xE0\x80\x80")?;
    show(to, b"\xE0\x9F\xBF")?;
    show(to, b"\xE0\xA0\x80")?;
    show(to, b"\xF0\x80\x80\x80")?;
    show(to, b"\xF0\x8F\xBF\xBF")?;
    show(to, b"\xF0\x90\x80\x80")
}

// U+D7FF, the first and the last surrogate, U+E000.
fn surrogates<P: Print>(to: &P) -> io::Result<()> {
    show(to, b"\xED\x9F\xBF")?;
    show(to, b"\xED\xA0\x80")?;
    show(to, b"\xED\xBF\xBF")?;
    show(to, b"\xEE\x80\x80")?;
    show(to, b"\xED\xA0\xBD\xED\xB8\x80")
}

// U+10FFFF, and what would be above.
fn above<P: Print>(to: &P) -> io::Result<()> {
    show(to, b"\xF4\x8F\xBF\xBF")?;
    show(to, b"\xF4\x90\x80\x80")?;
    show(to, b"\xF5\x80\x80\x80")?;
    show(to, b"\xF7\xBF\xBF\xBF")?;
    show(to, b"\xF8\x88\x80\x80\x80")?;
    show(to, b"\xFC\x84\x80\x80\x80\x80")
}

fn stray_tails<P: Print>(to: &P) -> io::Result<()> {
    show(to, b"a\x80")?;
    show(to, b"\xBFa")?;
    show(to, b"\xC3\xA9\xA9")?;
    show(to, b"\xE2\x82\xAC\x80")?;
    show(to, b"\xFE\xFF")?;
    show(to, b"\xEF\xBB\xBFa")?;
    show(to, b"\xDF\xBF")?;
    show(to, b"\xEF\xBF\xBF")
}

fn main(rt: HostRuntime) -> io::Result<()> {
    blanks_and_entities(&rt)?;
    truncated(&rt)?;
    overlong(&rt)?;
    surrogates(&rt)?;
    above(&rt)?;
    stray_tails(&rt)?;
    single_bytes(&rt)
}
