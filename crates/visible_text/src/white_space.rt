// Unicode's White_Space in UTF-8, at the start of a text.
ghost use Rattle.std.specs.Prelude.{◌≡◌, ◌≤◌, drop, length};
ghost use Rattle.visible_text.specs.WhiteSpace.{is_white1, trim_start, white_code3, white_length, white_three, white_two};

// U+0009 to U+000D and U+0020.
fn white_one(a: u8) -> bool
    ensures { result ≡ is_white1 a }
{
    matches!(a, 9..=13 | b' ')
}

// U+0085 and U+00A0.
fn white_two(a: u8, b: u8) -> bool
    ensures { result ≡ white_two a b }
{
    let code = 256 * usize::from(a) + usize::from(b);
    code == 0xc285 || code == 0xc2a0
}

// U+1680, U+2000 to U+200A, U+2028, U+2029, U+202F, U+205F, U+3000, by their bytes as one number.
fn white_code(code: usize) -> bool
    ensures { result ≡ white_code3 code }
{
    matches!(
        code,
        0xe19a80 | 0xe28080..=0xe2808a | 0xe280a8 | 0xe280a9 | 0xe280af | 0xe2819f | 0xe38080
    )
}

fn white_three(a: u8, b: u8, c: u8) -> bool
    ensures { result ≡ white_three a b c }
{
    white_code(65536 * usize::from(a) + 256 * usize::from(b) + usize::from(c))
}

// How many bytes the White_Space character has that a text begins with, or 0.
fn white_len(s: &[u8]) -> usize
    ensures { result ≡ white_length s.now }
{
    match s {
        [a, ..] if white_one(*a) => 1,
        [a, b, ..] if white_two(*a, *b) => 2,
        [a, b, c, ..] if white_three(*a, *b, *c) => 3,
        _ => 0,
    }
}

// How many bytes of White_Space stand in front.
pub fn leading(s: &[u8]) -> usize
    ensures { (result ≤ length s.now) × (drop result s.now ≡ trim_start s.now) }
{
    let mut i = 0;
    while i < s.len() {
        let n = white_len(&s[i..]);
        if n == 0 {
            return i;
        }
        i += n;
    }
    i
}
