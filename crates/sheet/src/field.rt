// Numbers in columns.
ghost use Rattle.std.specs.Prelude.{◌≡◌, ◌+◌, ◌-◌, ◌^◌, ◌<◌, ◌≤◌, drop, length, take};
ghost use Rattle.sheet.specs.Columns.{Value, columns_from, field_of, finish};
ghost use Rattle.sheet.specs.Reading.{Spaces};

// The first place from at on that holds no space, or end.
fn skip_spaces(s: &[u8], at: usize, end: usize) -> usize
    requires { (at ≤ end) × (end ≤ length s.now) }
    ensures { Spaces s.now at end result }
{
    for i in at..end {
        if s[i] != b' ' {
            return i;
        }
    }
    end
}

// The number n with the digits up to end behind it.
fn more_digits(s: &[u8], at: usize, end: usize, n: usize) -> Option<usize>
    requires { (at ≤ end) × (end ≤ length s.now) × (end - at ≤ 18) × (0 < n) × (n < 10 ^ (19 - (end - at))) }
    ensures { result ≡ finish (columns_from (Value n) (take (end - at) (drop at s.now))) }
{
    let mut n = n;
    for i in at..end {
        let b = s[i];
        if b < b'0' {
            return None;
        }
        if b > b'9' {
            return None;
        }
        n = 10 * n + usize::from(b - b'0');
    }
    Some(n)
}

// The number in the width columns at at: spaces, then its digits; nothing follows a 0.
pub fn read_field(s: &[u8], at: usize, width: usize) -> Option<usize>
    requires { (at + width ≤ length s.now) × (width ≤ 19) }
    ensures { result ≡ field_of (take width (drop at s.now)) }
{
    let end = at + width;
    let i = skip_spaces(s, at, end);
    if i == end {
        return None;
    }
    let b = s[i];
    if b < b'0' {
        return None;
    }
    if b > b'9' {
        return None;
    }
    let next = i + 1;
    if b == b'0' {
        if next == end {
            return Some(0);
        }
        return None;
    }
    more_digits(s, next, end, usize::from(b - b'0'))
}

// The same in eight columns, by one look where there is one digit behind seven spaces, as in most.
pub fn read_eight(s: &[u8], at: usize) -> Option<usize>
    requires { at + 8 ≤ length s.now }
    ensures { result ≡ field_of (take 8 (drop at s.now)) }
{
    let w = common::word_at(s, at);
    if w % 0x100000000000000 != 0x20202020202020 {
        return read_field(s, at, 8);
    }
    let b = w / 0x100000000000000;
    if b < 48 {
        return None;
    }
    if b > 57 {
        return None;
    }
    Some(b - 48)
}

// The same, for any width.
pub fn read_number(s: &[u8], at: usize, width: usize) -> Option<usize>
    requires { (at + width ≤ length s.now) × (width ≤ 19) }
    ensures { result ≡ field_of (take width (drop at s.now)) }
{
    if width == 8 {
        return read_eight(s, at);
    }
    read_field(s, at, width)
}
