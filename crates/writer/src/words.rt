// Eight bytes of a text as one number, the first the lowest, looked at together. Each test is made on all eight by carries that stay within
// a byte: its highest bit says the answer.
ghost use Rattle.std.specs.Prelude.{cond, true, ◌≡◌, ◌%◌, ◌+◌, ◌≤◌, length};
ghost use Rattle.std.proofs.lemmas.List.Edits.{sets};
ghost use Rattle.common.specs.Lanes.{Each, lanes};
ghost use Rattle.common.specs.Word.{octets};
ghost use Rattle.text.specs.Text.{escape};
ghost use Rattle.writer.specs.Plain.{Plain, last_octet, mark};

// 0 where no byte is below U+0020.
fn controls(w: usize) -> usize
    ensures { result ≡ 0 → Each (λ c. 0x20 ≤ c) (octets 8 w) }
{
    let low = w & 0x7F7F7F7F7F7F7F7F;
    0x8080808080808080 - (((low + 0x6060606060606060) | w) & 0x8080808080808080)
}

// 0x80 in the place of each U+0020.
fn spaces(w: usize) -> usize
    ensures { result ≡ lanes mark 8 w }
{
    let low = w & 0x7F7F7F7F7F7F7F7F;
    let other = ((low ^ 0x2020202020202020) + 0x7F7F7F7F7F7F7F7F) | w;
    (other & 0x8080808080808080) ^ 0x8080808080808080
}

// Whether `escape` changes no byte.
fn is_bare(w: usize) -> bool
    ensures { result ≡ true → escape (octets 8 w) ≡ octets 8 w }
{
    let low = w & 0x7F7F7F7F7F7F7F7F;
    let ampersand = (low ^ 0x2626262626262626) + 0x7F7F7F7F7F7F7F7F;
    let quote = (low ^ 0x2222222222222222) + 0x7F7F7F7F7F7F7F7F;
    let angle = ((low & 0x7D7D7D7D7D7D7D7D) ^ 0x3C3C3C3C3C3C3C3C) + 0x7F7F7F7F7F7F7F7F;
    ((ampersand & quote & angle) | w) & 0x8080808080808080 == 0x8080808080808080
}

// The last of the eight.
pub fn last_byte(w: usize) -> u8
    ensures { result ≡ last_octet w }
{
    (w / 0x100000000000000) as u8
}

// The mark of the first byte, where a blank stands before it.
fn first_mark(marks: usize, space: bool) -> usize
    ensures { result ≡ cond space (marks % 256) 0 }
{
    if space { marks % 256 } else { 0 }
}

// Whether every blank is U+0020 and none stands behind another, with one before them where `space`: one test, since which of them fails is
// not foreseen. Where it says yes no byte is below U+0020, so that it serves for another set of blanks too.
pub fn is_squeezed(w: usize, space: bool) -> bool
    ensures { result ≡ true → Plain true space 0 w × Each (λ c. 0x20 ≤ c) (octets 8 w) }
{
    let m = spaces(w);
    ((m & (m / 256)) | first_mark(m, space)) | controls(w) == 0
}

// Whether the eight bytes are shown as they are. It may say no of some that are: they take the longer way.
pub fn is_plain(w: usize, squeeze: bool, space: bool, times: u8) -> bool
    ensures { result ≡ true → Plain squeeze space times w }
{
    let blanks_stay = if squeeze {
        is_squeezed(w, space)
    } else {
        !text::is_space(last_byte(w))
    };
    blanks_stay && (times == 0 || is_bare(w))
}

// The eight bytes to at and on. LLVM makes one store of it.
pub fn store_word(out: &mut [u8], at: usize, w: usize)
    requires { at + 8 ≤ length out.old }
    ensures { out.new ≡ sets out.old at (octets 8 w) }
{
    out[at..at + 8].copy_from_slice(&w.to_le_bytes());
}
