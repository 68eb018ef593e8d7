// Byte strings: stored into a lent buffer, and compared; an answer in numbers.
#![tactic(auto)]

ghost use Rattle.std.specs.Prelude.{◌++◌, ◌≡◌, ◌+◌, ◌-◌, ◌<◌, ◌≤◌, drop, length, replicate, take};
ghost use Rattle.common.specs.Answer.{accepted, refused};
ghost use Rattle.common.specs.Bytes.{same};
ghost use Rattle.common.specs.Puts.{Puts};
ghost use Rattle.common.specs.Word.{word_at};

// What a call says in document 01's numbers; C reads it as it stands.
#[repr(C)]
#[derive(Clone, Copy)]
pub struct Answer {
    pub number: usize,
    pub second: usize,
    pub visits: usize,
    pub length: usize,
}

// The number of each refusal has the name that it has in include/levzhada.h.
impl Answer {
    // The sheet is wrong.
    pub const WRONG_LENGTH: usize = 11;

    pub const WRONG_FORMAT: usize = 12;

    pub const WRONG_COUNTS: usize = 13;

    pub const WRONG_TREE: usize = 14;

    pub const WRONG_KIND: usize = 15;

    pub const WRONG_RANGE: usize = 16;

    pub const NOT_UTF8: usize = 17;

    // The page is past a limit.
    pub const TOO_MANY_LIST_LEVELS: usize = 21;

    pub const TOO_MANY_OPEN_ROWS: usize = 22;

    // What the call was given beside the sheet is too short, wrong or not there.
    pub const WORK_TOO_SHORT: usize = 31;

    pub const OUT_TOO_SHORT: usize = 32;

    pub const WRONG_OPTIONS: usize = 33;

    pub const INPUT_TOO_LONG: usize = 34;

    pub const NO_ROW: usize = 35;

    pub const NO_PATTERN: usize = 36;

    // An escaped text is wrong, or what is read back of it does not fit.
    pub const NO_ENTITY: usize = 51;

    pub const UNESCAPE_OUT_TOO_SHORT: usize = 52;

    // The visible text of a row does not fit.
    pub const VISIBLE_TEXT_OUT_TOO_SHORT: usize = 53;

    pub fn refused(number: usize, second: usize) -> Answer
        ensures { result ≡ refused number second }
    {
        Answer {
            number,
            second,
            visits: 0,
            length: 0,
        }
    }

    pub fn accepted(second: usize, visits: usize, length: usize) -> Answer
        ensures { result ≡ accepted second visits length }
    {
        Answer {
            number: 0,
            second,
            visits,
            length,
        }
    }
}

// The lent buffer is shorter than the text that it was to hold.
#[derive(Clone, Copy, Debug, PartialEq, Eq)]
pub struct TooShort {
    pub need: usize,
}

// The bytes of word to at and on; the place past them. By `copy_from_slice` the archive for C needs memmove from outside, and `escape`
// took 1.4 times as long, since that asks first whether the two overlap.
pub fn put(out: &mut [u8], at: usize, word: &[u8]) -> usize
    requires { at + length word.now ≤ length out.old }
    ensures { Puts out.old at word.now out.new result }
{
    for i in 0..word.len() {
        out[at + i] = word[i];
    }
    at + word.len()
}

// Zeros from at to the end.
pub fn clear(out: &mut [u8], at: usize)
    requires { at ≤ length out.old }
    ensures { out.new ≡ take at out.old ++ replicate (length out.old - at) 0 }
{
    out[at..].fill(0);
}

// Whether two byte strings are equal.
pub fn same(s: &[u8], t: &[u8]) -> bool
    ensures { result ≡ same s.now t.now }
{
    s == t
}

// The eight bytes at at as one number, the first the lowest. LLVM makes one load of it.
pub fn word_at(s: &[u8], at: usize) -> usize
    requires { at + 8 ≤ length s.now }
    ensures { result ≡ word_at s.now at }
{
    usize::from_le_bytes([
        s[at],
        s[at + 1],
        s[at + 2],
        s[at + 3],
        s[at + 4],
        s[at + 5],
        s[at + 6],
        s[at + 7],
    ])
}
