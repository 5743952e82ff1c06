//! The number that a text of digits writes.
ghost use Rattle.std.specs.Prelude.{◌≡◌, ◌≤◌};
ghost use Rattle.gcs_decimal.specs.Decimal.{decimal_of};

/// The most digits that are read: the number of any 19 digits is below 2^64.
pub const MOST_DIGITS: usize = 19;

/// The number of a text of 1 to `most` decimal digits, leading zeros with them; `None` exactly where the text is any other.
pub fn read_decimal(text: &[u8], most: usize) -> Option<u64>
    requires { most ≤ MOST_DIGITS }
    ensures { result ≡ decimal_of most text.now }
{
    if text.is_empty() || text.len() > most {
        return None;
    }
    let mut number: u64 = 0;
    for digit in text {
        if !digit.is_ascii_digit() {
            return None;
        }
        number = number * 10 + u64::from(*digit - b'0');
    }
    Some(number)
}
