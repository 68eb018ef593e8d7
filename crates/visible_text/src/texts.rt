// Runs of bytes and texts that are written, or only measured, with the five blanks of `char::is_ascii_whitespace`.
ghost use Rattle.std.specs.Prelude.{cond, not, ◌||◌, [], ◌∷◌, ◌≡◌, ◌+◌, ◌≤◌, eqb, drop, length, take};
ghost use Rattle.common.specs.Word.{octets};
ghost use Rattle.text.specs.Text.{collapse_by, collapse_from, is_ascii_whitespace, rstrip_by, squeezed};
ghost use Rattle.writer.specs.Out.{push_all};
ghost use Rattle.writer.specs.Plain.{last_octet};
ghost use Rattle.writer.specs.Writing.{DoesBy, ReadyBy};
ghost use Rattle.visible_text.specs.CollapseWhitespace.{trim_end};
ghost use Rattle.visible_text.specs.VisibleText.{add_text};

use crate::white_space::leading;
use writer::texts::store_octets;
use writer::words::{is_squeezed, last_byte};
use writer::{Writer, store, store_byte};

// TAB, LF, FF, CR and SPACE. `b.is_ascii_whitespace()` made texts of many blanks 5 of 100 slower, and `matches!` 30.
fn is_blank(b: u8) -> bool
    ensures { result ≡ is_ascii_whitespace b }
{
    match b {
        b'\t' => true,
        b'\n' => true,
        12 => true,
        b'\r' => true,
        b' ' => true,
        _ => false,
    }
}

// The length without the blanks at the end.
fn trim_end(s: &[u8]) -> usize
    ensures { result ≡ length (trim_end s.now) }
{
    for i in (0..s.len()).rev() {
        if !is_blank(s[i]) {
            return i + 1;
        }
    }
    0
}

// One byte. `Writer::push` and `Writer::put` have the blanks of `text` in place of these: what both do is in `store_byte`, `store` and
// `grown`, and a trait of the two sets of blanks with its impls would be longer than the two functions here.
pub fn push(w: Writer, b: u8, out: &mut [u8], write: bool) -> Writer
    requires { ReadyBy is_ascii_whitespace write w out.old (push_all (b ∷ [])) }
    ensures { DoesBy is_ascii_whitespace write w out.old result out.new (push_all (b ∷ [])) }
{
    store_byte(out, w.len, b, write);
    w.grown(1, if is_blank(b) { 0 } else { 1 })
}

// A run of bytes.
pub fn push_str(w: Writer, s: &[u8], out: &mut [u8], write: bool) -> Writer
    requires { ReadyBy is_ascii_whitespace write w out.old (push_all s.now) }
    ensures { DoesBy is_ascii_whitespace write w out.old result out.new (push_all s.now) }
{
    store(out, w.len, s, write);
    w.grown(s.len(), trim_end(s))
}

// Whether a blank is the last byte, or there is none.
fn ends_blank(w: Writer) -> bool
    ensures { result ≡ (eqb w.len 0 || not (eqb w.kept w.len)) }
{
    w.len == 0 || w.kept != w.len
}

// What a byte adds to a collapsed text, by whether it is a blank and whether one stood before it. `if blank && space`, and one `push` for
// the rest, made texts of many blanks 40 of 100 slower.
fn push_squeezed(w: Writer, b: u8, blank: bool, space: bool, out: &mut [u8], write: bool) -> Writer
    requires { ReadyBy is_ascii_whitespace write w out.old (push_all (squeezed blank space b)) }
    ensures { DoesBy is_ascii_whitespace write w out.old result out.new (push_all (squeezed blank space b)) }
{
    if blank {
        if space {
            return w;
        }
        return push(w, b' ', out, write);
    }
    push(w, b, out, write)
}

// A text byte by byte, each run of blanks as one U+0020. `space`: a blank stands before it.
fn push_bytes(w: Writer, s: &[u8], space: bool, out: &mut [u8], write: bool) -> Writer
    requires { ReadyBy is_ascii_whitespace write w out.old (push_all (collapse_from is_ascii_whitespace space s.now)) }
    ensures { DoesBy is_ascii_whitespace write w out.old result out.new
        (push_all (collapse_from is_ascii_whitespace space s.now)) }
{
    let mut q = w;
    let mut last = space;
    for &b in s {
        let blank = is_blank(b);
        q = push_squeezed(q, b, blank, last, out, write);
        last = blank;
    }
    q
}

// Eight bytes as they are. At most their last is a blank of those at their end, and then it is U+0020.
fn push_word(w: Writer, word: usize, out: &mut [u8], write: bool) -> Writer
    requires word_len { length (rstrip_by is_ascii_whitespace (octets 8 word)) ≡ cond (eqb (last_octet word) 0x20) 7 8 }
    requires ready_by { ReadyBy is_ascii_whitespace write w out.old (push_all (octets 8 word)) }
    ensures { DoesBy is_ascii_whitespace write w out.old result out.new (push_all (octets 8 word)) }
{
    store_octets(out, w.len, word, write);
    w.grown(8, if last_byte(word) == b' ' { 7 } else { 8 })
}

// The eight bytes of a text from `at` on, at once where none of them changes. `space`: a blank stands before them.
fn push_eight(w: Writer, s: &[u8], at: usize, space: bool, out: &mut [u8], write: bool) -> Writer
    requires at_in_bounds { at + 8 ≤ length s.now }
    requires ready_by { ReadyBy is_ascii_whitespace write w out.old (push_all (collapse_from is_ascii_whitespace space (take 8 (drop at s.now)))) }
    ensures { DoesBy is_ascii_whitespace write w out.old result out.new
        (push_all (collapse_from is_ascii_whitespace space (take 8 (drop at s.now)))) }
{
    let word = common::word_at(s, at);
    if is_squeezed(word, space) {
        return push_word(w, word, out, write);
    }
    push_bytes(w, &s[at..at + 8], space, out, write)
}

// A text, each run of blanks as one U+0020, eight bytes at a time.
fn push_collapsed(w: Writer, s: &[u8], out: &mut [u8], write: bool) -> Writer
    requires { ReadyBy is_ascii_whitespace write w out.old (push_all (collapse_by is_ascii_whitespace s.now)) }
    ensures { DoesBy is_ascii_whitespace write w out.old result out.new
        (push_all (collapse_by is_ascii_whitespace s.now)) }
{
    let mut q = w;
    let mut space = false;
    let mut i = 0;
    while s.len() - i >= 8 {
        q = push_eight(q, s, i, space, out, write);
        space = is_blank(s[i + 7]);
        i += 8;
    }
    push_bytes(q, &s[i..], space, out, write)
}

// A text: its blanks collapsed, and without the White_Space in front where a blank, or nothing, stands before it. That goes first: what
// is left of the text begins with no blank, and collapsing changes no other White_Space.
pub fn add_text(w: Writer, value: &[u8], out: &mut [u8], write: bool) -> Writer
    requires { ReadyBy is_ascii_whitespace write w out.old (add_text value.now) }
    ensures { DoesBy is_ascii_whitespace write w out.old result out.new (add_text value.now) }
{
    if ends_blank(w) {
        let from = leading(value);
        return push_collapsed(w, &value[from..], out, write);
    }
    push_collapsed(w, value, out, write)
}
