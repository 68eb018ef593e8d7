// A text that is written into a lent buffer, or only measured.
#![tactic(auto)]

ghost use Rattle.std.specs.Prelude.{true, [], ◌∷◌, ◌≡◌, ◌+◌, ◌≤◌, ◌<◌, length, replicate};
ghost use Rattle.writer.specs.Digits.{digits};
ghost use Rattle.writer.specs.Out.{push_all};
ghost use Rattle.writer.specs.Writing.{Does, Ready, grown, stored, trimmed};

mod reading;
pub mod texts;
pub mod words;

// The text's length, its length without the blanks at its end, and the greatest length that it ever had.
#[derive(Clone, Copy)]
pub struct Writer {
    pub len: usize,
    pub kept: usize,
    pub peak: usize,
}

impl Writer {
    // No text yet.
    pub const START: Writer = Writer {
        len: 0,
        kept: 0,
        peak: 0,
    };

    // The numbers after n bytes more, of which k are left without the blanks at their end.
    pub fn grown(self, n: usize, k: usize) -> Writer
        requires { (self.len + n < 9223372036854775808) × (k ≤ n) }
        ensures { result ≡ grown self n k }
    {
        let len = self.len + n;
        Writer {
            len,
            kept: if k == 0 { self.kept } else { self.len + k },
            peak: self.peak.max(len),
        }
    }

    // One byte.
    pub fn push(self, b: u8, out: &mut [u8], write: bool) -> Writer
        requires { Ready write self out.old (push_all (b ∷ [])) }
        ensures { Does write self out.old result out.new (push_all (b ∷ [])) }
    {
        store_byte(out, self.len, b, write);
        self.grown(1, if text::is_space(b) { 0 } else { 1 })
    }

    // A run of bytes.
    pub fn put(self, word: &[u8], out: &mut [u8], write: bool) -> Writer
        requires { Ready write self out.old (push_all word.now) }
        ensures { Does write self out.old result out.new (push_all word.now) }
    {
        store(out, self.len, word, write);
        self.grown(word.len(), text::rstrip(word))
    }

    // Copies of one byte.
    pub fn pad(self, b: u8, times: usize, out: &mut [u8], write: bool) -> Writer
        requires { Ready write self out.old (push_all (replicate times b)) }
        ensures { Does write self out.old result out.new (push_all (replicate times b)) }
    {
        store_copies(out, self.len, b, times, write);
        self.grown(times, if text::is_space(b) { 0 } else { times })
    }

    // The blanks at the end away.
    pub fn trim_end(self) -> Writer
        ensures { result ≡ trimmed self }
    {
        Writer {
            len: self.kept,
            ..self
        }
    }

    // A number in decimal.
    pub fn put_number(self, n: usize, out: &mut [u8], write: bool) -> Writer
        requires { Ready write self out.old (push_all (digits n)) }
        ensures { Does write self out.old result out.new (push_all (digits n)) }
    {
        if n < 10 {
            return self.push(b'0' + n as u8, out, write);
        }
        let q = self.put_number(n / 10, out, write);
        q.push(b'0' + (n % 10) as u8, out, write)
    }
}

pub fn store_byte(out: &mut [u8], at: usize, b: u8, write: bool)
    requires { write ≡ true → at < length out.old }
    ensures { out.new ≡ stored write out.old at (b ∷ []) }
{
    if write {
        out[at] = b;
    }
}

pub fn store(out: &mut [u8], at: usize, word: &[u8], write: bool)
    requires { write ≡ true → at + length word.now ≤ length out.old }
    ensures { out.new ≡ stored write out.old at word.now }
{
    if write {
        common::put(out, at, word);
    }
}

fn store_copies(out: &mut [u8], at: usize, b: u8, times: usize, write: bool)
    requires { write ≡ true → at + times ≤ length out.old }
    ensures { out.new ≡ stored write out.old at (replicate times b) }
{
    if write {
        out[at..at + times].fill(b);
    }
}
