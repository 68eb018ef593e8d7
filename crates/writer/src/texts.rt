// A text of the sheet: its blanks squeezed where asked, escaped so often, in one pass that reads each byte once.
ghost use Rattle.std.specs.Prelude.{◌&&◌, cond, false, true, [], ◌∷◌, ◌≡◌, ◌%◌, ◌+◌, ◌<◌, ◌≤◌, drop, get_or, length};
ghost use Rattle.common.specs.Word.{octets};
ghost use Rattle.text.specs.Text.{escape, escaped, is_space};
ghost use Rattle.writer.specs.Out.{push_all};
ghost use Rattle.writer.specs.Shown.{escaped_times, is_escaped, shown_times};
ghost use Rattle.writer.specs.Texts.{BeginsAt, PutsPart, PutsPlain, PutsRead, PutsText};
ghost use Rattle.writer.specs.Writing.{Ready, RoomAt, StoredAt, stored};

use crate::Writer;
use crate::reading::{byte_at, word_at};
use crate::words::{is_plain, last_byte, store_word};

// Along a text: the place past it, the place past the last of it that is no blank, whether a blank was read last, and how many bytes were.
#[derive(Clone, Copy)]
pub struct Places {
    pub past: usize,
    pub kept: usize,
    pub space: bool,
    pub read: usize,
}

// The first byte that is shown, where it stands, and how many bytes were read up to it. at: the text's length where none is; an `Option`
// would lose how many were read there.
#[derive(Clone, Copy)]
pub struct First {
    pub at: usize,
    pub read: usize,
    pub byte: u8,
}

// Behind a text: the writer's numbers, whether a blank was read last, and how many bytes were read.
#[derive(Clone, Copy)]
pub struct Put {
    pub writer: Writer,
    pub read: usize,
    pub space: bool,
}

// The first byte of a text that is shown: where `trim`, the first that is no blank.
pub fn first_of(s: &[u8], trim: bool) -> First
    ensures { BeginsAt trim s.now result }
{
    let mut read = 0;
    for i in 0..s.len() {
        let b = byte_at(s, i, read);
        if !is_trimmed(b.value, trim) {
            return First {
                at: i,
                read: b.read,
                byte: b.value,
            };
        }
        read = b.read;
    }
    First {
        at: s.len(),
        read,
        byte: b' ',
    }
}

fn is_trimmed(b: u8, trim: bool) -> bool
    ensures { result ≡ (trim && is_space b) }
{
    trim && text::is_space(b)
}

// Whether a byte becomes another text where it is escaped so often.
fn is_escaped(b: u8, times: u8) -> bool
    ensures { result ≡ is_escaped times b }
{
    times != 0 && text::entity_len(b) != 1
}

// One byte as it is; the place past it.
fn put_one(out: &mut [u8], past: usize, b: u8, write: bool) -> usize
    requires { RoomAt write out.old past (b ∷ []) }
    ensures { StoredAt write out.old past (b ∷ []) out.new result }
{
    crate::store_byte(out, past, b, write);
    past + 1
}

// A run of bytes.
fn put_run(out: &mut [u8], past: usize, word: &[u8], write: bool) -> usize
    requires { RoomAt write out.old past word.now }
    ensures { StoredAt write out.old past word.now out.new result }
{
    crate::store(out, past, word, write);
    past + word.len()
}

// A byte as `escape` has it.
fn put_entity(out: &mut [u8], past: usize, b: u8, write: bool) -> usize
    requires { RoomAt write out.old past (escaped b) }
    ensures { StoredAt write out.old past (escaped b) out.new result }
{
    if write {
        return text::put_entity(out, past, b);
    }
    past + text::entity_len(b)
}

// A byte that is escaped twice.
fn put_twice(out: &mut [u8], past: usize, b: u8, write: bool) -> usize
    requires { RoomAt write out.old past (escape (escaped b)) }
    ensures { StoredAt write out.old past (escape (escaped b)) out.new result }
{
    match b {
        b'&' => put_run(out, past, b"&amp;amp;", write),
        b'"' => put_run(out, past, b"&amp;quot;", write),
        b'<' => put_run(out, past, b"&amp;lt;", write),
        b'>' => put_run(out, past, b"&amp;gt;", write),
        _ => put_one(out, past, b, write),
    }
}

// A byte that is escaped, once or twice.
fn put_special(out: &mut [u8], past: usize, b: u8, times: u8, write: bool) -> usize
    requires { (0 < times) × RoomAt write out.old past (escaped_times times b) }
    ensures { StoredAt write out.old past (escaped_times times b) out.new result }
{
    if times == 1 {
        return put_entity(out, past, b, write);
    }
    put_twice(out, past, b, write)
}

// A byte that is shown.
fn put_shown(out: &mut [u8], past: usize, b: u8, times: u8, write: bool) -> usize
    requires { RoomAt write out.old past (escaped_times times b) }
    ensures { StoredAt write out.old past (escaped_times times b) out.new result }
{
    if is_escaped(b, times) {
        return put_special(out, past, b, times, write);
    }
    put_one(out, past, b, write)
}

// The byte that stands for it where its blanks are squeezed.
fn squeezed(b: u8, blank: bool, squeeze: bool) -> u8
    ensures { result ≡ cond (squeeze && blank) 32 b }
{
    if squeeze && blank { b' ' } else { b }
}

// Whether a blank is dropped: one stood before it.
fn is_dropped(squeeze: bool, blank: bool, space: bool) -> bool
    ensures { result ≡ (squeeze && (blank && space)) }
{
    squeeze && (blank && space)
}

// A byte of a text, by whether it is a blank and whether one stood before it. What `put_shown` does stands here once more, since a byte
// that is escaped is rare and takes a call. Here and below `squeeze`, `times` and `write` are three: a struct of them goes by its address
// and is read again behind each byte that is stored, which made texts 6 of 100 slower.
fn put_byte(
    out: &mut [u8],
    past: usize,
    b: u8,
    blank: bool,
    squeeze: bool,
    space: bool,
    times: u8,
    write: bool,
) -> usize
    requires { (blank ≡ is_space b) × RoomAt write out.old past (shown_times squeeze space times (b ∷ [])) }
    ensures { StoredAt write out.old past (shown_times squeeze space times (b ∷ [])) out.new result }
{
    if is_escaped(b, times) {
        return put_special(out, past, b, times, write);
    }
    if is_dropped(squeeze, blank, space) {
        return past;
    }
    put_one(out, past, squeezed(b, blank, squeeze), write)
}

// The place past the last byte that is no blank.
fn kept_after(kept: usize, past: usize, blank: bool) -> usize
    ensures { result ≡ cond blank kept past }
{
    if blank { kept } else { past }
}

// A text, byte by byte.
fn put_bytes(
    out: &mut [u8],
    at: usize,
    kept: usize,
    s: &[u8],
    squeeze: bool,
    space: bool,
    times: u8,
    write: bool,
) -> Places
    requires { RoomAt write out.old at (shown_times squeeze space times s.now) }
    ensures { PutsPart write squeeze space times out.old at kept s.now out.new result }
{
    let mut past = at;
    let mut behind = kept;
    let mut last = space;
    let mut read = 0;
    for i in 0..s.len() {
        let b = byte_at(s, i, read);
        let blank = text::is_space(b.value);
        past = put_byte(out, past, b.value, blank, squeeze, last, times, write);
        behind = kept_after(behind, past, blank);
        last = blank;
        read = b.read;
    }
    Places {
        past,
        kept: behind,
        space: last,
        read,
    }
}

// Eight bytes in hand, one by one; `read` bytes were read with them. `put_bytes` of `word.to_le_bytes()` made texts 12 of 100 slower.
fn put_octets(
    out: &mut [u8],
    at: usize,
    kept: usize,
    word: usize,
    read: usize,
    squeeze: bool,
    space: bool,
    times: u8,
    write: bool,
) -> Places
    requires { RoomAt write out.old at (shown_times squeeze space times (octets 8 word)) }
    ensures { PutsRead write squeeze space times out.old at kept (octets 8 word) read out.new result }
{
    let mut past = at;
    let mut behind = kept;
    let mut last = space;
    let mut rest = word;
    for _ in 0..8u8 {
        let b = (rest % 256) as u8;
        let blank = text::is_space(b);
        past = put_byte(out, past, b, blank, squeeze, last, times, write);
        behind = kept_after(behind, past, blank);
        last = blank;
        rest = rest / 256;
    }
    Places {
        past,
        kept: behind,
        space: last,
        read,
    }
}

// The eight bytes of a number.
pub fn store_octets(out: &mut [u8], at: usize, word: usize, write: bool)
    requires { write ≡ true → at + 8 ≤ length out.old }
    ensures { out.new ≡ stored write out.old at (octets 8 word) }
{
    if write {
        store_word(out, at, word);
    }
}

// Eight bytes in hand that are shown as they are; at most their last is a blank of those at their end.
fn put_plain(out: &mut [u8], at: usize, word: usize, read: usize, write: bool) -> Places
    requires { RoomAt write out.old at (octets 8 word) }
    ensures { PutsPlain write out.old at word read out.new result }
{
    store_octets(out, at, word, write);
    let space = last_byte(word) == b' ';
    Places {
        past: at + 8,
        kept: at + if space { 7 } else { 8 },
        space,
        read,
    }
}

// Eight bytes in hand.
fn put_word(
    out: &mut [u8],
    at: usize,
    kept: usize,
    word: usize,
    read: usize,
    squeeze: bool,
    space: bool,
    times: u8,
    write: bool,
) -> Places
    requires { RoomAt write out.old at (shown_times squeeze space times (octets 8 word)) }
    ensures { PutsRead write squeeze space times out.old at kept (octets 8 word) read out.new result }
{
    if is_plain(word, squeeze, space, times) {
        return put_plain(out, at, word, read, write);
    }
    put_octets(out, at, kept, word, read, squeeze, space, times, write)
}

// A text of whole words, eight bytes at a time.
fn put_words(
    out: &mut [u8],
    at: usize,
    kept: usize,
    s: &[u8],
    squeeze: bool,
    space: bool,
    times: u8,
    write: bool,
) -> Places
    requires { (length s.now % 8 ≡ 0) × RoomAt write out.old at (shown_times squeeze space times s.now) }
    ensures { PutsPart write squeeze space times out.old at kept s.now out.new result }
{
    let mut past = at;
    let mut behind = kept;
    let mut last = space;
    let mut read = 0;
    let mut i = 0;
    while i < s.len() {
        let b = word_at(s, i, read);
        let r = put_word(
            out, past, behind, b.value, b.read, squeeze, last, times, write,
        );
        past = r.past;
        behind = r.kept;
        last = r.space;
        read = r.read;
        i += 8;
    }
    Places {
        past,
        kept: behind,
        space: last,
        read,
    }
}

// A text.
fn put_rest(
    out: &mut [u8],
    at: usize,
    kept: usize,
    s: &[u8],
    squeeze: bool,
    space: bool,
    times: u8,
    write: bool,
) -> Places
    requires { RoomAt write out.old at (shown_times squeeze space times s.now) }
    ensures { PutsPart write squeeze space times out.old at kept s.now out.new result }
{
    if s.len() < 8 {
        return put_bytes(out, at, kept, s, squeeze, space, times, write);
    }
    let n = s.len() - s.len() % 8;
    let a = put_words(out, at, kept, &s[..n], squeeze, space, times, write);
    let b = put_bytes(out, a.past, a.kept, &s[n..], squeeze, a.space, times, write);
    Places {
        read: a.read + b.read,
        ..b
    }
}

impl Writer {
    // A text from its first byte on, which is in hand.
    pub fn put_text(
        self,
        s: &[u8],
        first: First,
        squeeze: bool,
        times: u8,
        out: &mut [u8],
        write: bool,
    ) -> Put
        requires at_in_bounds { (first.at < length s.now) × (first.byte ≡ get_or s.now first.at 0) × (first.read ≤ first.at + 1) }
        requires ready { Ready write self out.old (push_all (shown_times squeeze false times (drop first.at s.now))) }
        ensures { PutsText write squeeze times self out.old s.now first result out.new }
    {
        let blank = text::is_space(first.byte);
        let shown = squeezed(first.byte, blank, squeeze);
        let past = put_shown(out, self.len, shown, times, write);
        let kept = kept_after(self.kept, past, blank);
        let r = put_rest(
            out,
            past,
            kept,
            &s[first.at + 1..],
            squeeze,
            blank,
            times,
            write,
        );
        let writer = Writer {
            len: r.past,
            kept: r.kept,
            peak: self.peak.max(r.past),
        };
        Put {
            writer,
            read: first.read + r.read,
            space: r.space,
        }
    }
}
