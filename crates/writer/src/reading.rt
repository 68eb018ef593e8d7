// The bytes of a text that is put. Nothing else indexes it, so that what is counted here is what is read.
ghost use Rattle.std.specs.Prelude.{◌≡◌, ◌+◌, ◌<◌, ◌≤◌, get_or, length};
ghost use Rattle.common.specs.Word.{word_at};

// What was read, and how many bytes were read with it.
#[derive(Clone, Copy)]
pub struct Read<T> {
    pub value: T,
    pub read: usize,
}

// A byte.
pub fn byte_at(s: &[u8], i: usize, read: usize) -> Read<u8>
    requires { (i < length s.now) × (read ≤ i) }
    ensures { (result.value ≡ get_or s.now i 0) × (result.read ≡ read + 1) }
{
    let value = s[i];
    Read {
        value,
        read: read + 1,
    }
}

// Eight bytes as one number, the first the lowest.
pub fn word_at(s: &[u8], i: usize, read: usize) -> Read<usize>
    requires { (i + 8 ≤ length s.now) × (read ≤ i) }
    ensures { (result.value ≡ word_at s.now i) × (result.read ≡ read + 8) }
{
    let value = common::word_at(s, i);
    Read {
        value,
        read: read + 8,
    }
}
