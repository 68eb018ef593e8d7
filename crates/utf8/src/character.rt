// The number of a character by its octets.
ghost use Rattle.std.specs.Prelude.{[], ◌∷◌, ◌≡◌};
ghost use Rattle.utf8.specs.Character.{number};

// 1110xxxx 10xxxxxx 10xxxxxx: the bits x.
pub fn number_of_three(a: u8, b: u8, c: u8) -> u32
    ensures { result ≡ number (a ∷ b ∷ c ∷ []) }
{
    u32::from(a % 16) * 4096 + u32::from(b % 64) * 64 + u32::from(c % 64)
}

// 11110xxx 10xxxxxx 10xxxxxx 10xxxxxx: the bits x.
pub fn number_of_four(a: u8, b: u8, c: u8, d: u8) -> u32
    ensures { result ≡ number (a ∷ b ∷ c ∷ d ∷ []) }
{
    u32::from(a % 8) * 262144
        + u32::from(b % 64) * 4096
        + u32::from(c % 64) * 64
        + u32::from(d % 64)
}
