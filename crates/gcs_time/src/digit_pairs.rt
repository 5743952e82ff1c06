//! Pairs of decimal digits at the places of a text.
ghost use Rattle.std.specs.Prelude.{◌≡◌, ◌+◌, ◌<◌, ◌≤◌, length, true};
ghost use Rattle.gcs_time.specs.Time.{is_digit_byte, has_two, two_at};

/// Whether the byte is a decimal digit.
pub fn is_digit(byte: u8) -> bool
    ensures { result ≡ is_digit_byte byte }
{
    byte.is_ascii_digit()
}

/// Whether two digits stand at that place.
pub fn has_two(text: &[u8], at: usize) -> bool
    requires { at + 1 < length text.now }
    ensures { result ≡ has_two text.now at }
{
    is_digit(text[at]) && is_digit(text[at + 1])
}

/// The number of the two digits at that place.
pub fn two_at(text: &[u8], at: usize) -> u64
    requires place { at + 1 < length text.now }
    requires digits { has_two text.now at ≡ true }
    ensures value { result ≡ two_at text.now at }
    ensures bound { result ≤ 99 }
{
    u64::from(text[at] - b'0') * 10 + u64::from(text[at + 1] - b'0')
}
