// Texts that are icons.
ghost use Rattle.std.specs.Prelude.{[], ◌∷◌, ◌≡◌};
ghost use Rattle.utf8.specs.Valid.{within};
ghost use Rattle.filters.specs.Icon.{in_legacy_range, in_upper_planes, is_icon, is_legacy_icon, is_pilcrow, is_private_icon, private_use_area};

use utf8::character::{number_of_four, number_of_three};
use utf8::is_tail;

// ¶
fn is_pilcrow(text: &[u8]) -> bool
    ensures { result ≡ is_pilcrow text.now }
{
    common::same(text, b"\xc2\xb6")
}

// As the Rust has it: three bytes as a little-endian number.
#[tactic(auto, unfolding(crate::specs::Icon::in_legacy_range))]
fn in_legacy_range(a: u8, b: u8, c: u8) -> bool
    ensures { result ≡ in_legacy_range a b c }
{
    let number = u32::from(a) + 256 * u32::from(b) + 65536 * u32::from(c);
    matches!(number, 0x8080ee..=0xbfa3ef)
}

fn is_legacy_icon(text: &[u8]) -> bool
    ensures { result ≡ is_legacy_icon text.now }
{
    match text {
        [a, b, c] => in_legacy_range(*a, *b, *c),
        _ => is_pilcrow(text),
    }
}

fn in_private_use_area(c: u32) -> bool
    ensures { result ≡ within private_use_area c }
{
    matches!(c, 0xE000..=0xF8FF)
}

// 1110xxxx 10xxxxxx 10xxxxxx
fn is_icon_of_three(a: u8, b: u8, c: u8) -> bool
    ensures { result ≡ is_private_icon (a ∷ b ∷ c ∷ []) }
{
    a / 16 == 0b1110 && is_tail(b) && is_tail(c) && in_private_use_area(number_of_three(a, b, c))
}

// Private use in planes 15 and 16; the last two numbers of a plane are no characters.
fn in_upper_planes(c: u32) -> bool
    ensures { result ≡ in_upper_planes c }
{
    matches!(c, 0xF0000..=0xFFFFD | 0x100000..=0x10FFFD)
}

// 11110xxx 10xxxxxx 10xxxxxx 10xxxxxx
fn is_icon_of_four(a: u8, b: u8, c: u8, d: u8) -> bool
    ensures { result ≡ is_private_icon (a ∷ b ∷ c ∷ d ∷ []) }
{
    a / 8 == 0b11110
        && is_tail(b)
        && is_tail(c)
        && is_tail(d)
        && in_upper_planes(number_of_four(a, b, c, d))
}

fn is_private_icon(text: &[u8]) -> bool
    ensures { result ≡ is_private_icon text.now }
{
    match text {
        [a, b, c, d] => is_icon_of_four(*a, *b, *c, *d),
        [a, b, c] => is_icon_of_three(*a, *b, *c),
        _ => is_pilcrow(text),
    }
}

pub fn is_icon(icons: bool, text: &[u8]) -> bool
    ensures { result ≡ is_icon icons text.now }
{
    // no character has more octets
    if text.len() > 4 {
        return false;
    }
    if icons {
        is_private_icon(text)
    } else {
        is_legacy_icon(text)
    }
}
