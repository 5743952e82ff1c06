//! The fraction of a second, which a point and digits write.
ghost use Rattle.std.specs.Prelude.{◌≡◌, ◌-◌, ◌^◌, ◌<◌, ◌≤◌, ◌==◌, IsTrue, slice_index, take_while, length};
ghost use Rattle.std.specs.Str.Parse.{digits_value, AllDigits};
ghost use Rattle.gcs_time.specs.Time.{is_digit_byte, fraction_of, has_fraction, after_fraction, micros_of};

use crate::digit_pairs::is_digit;
use gcs_decimal::read_decimal;

/// The digits behind a point, where one comes first.
pub fn fraction_of(tail: &[u8]) -> &[u8]
    ensures value { result.now ≡ fraction_of tail.now }
    ensures digits { AllDigits 10 result.now }
{
    if begins_with_point(tail) {
        leading_digits(&tail[1..])
    } else {
        &[]
    }
}

fn begins_with_point(tail: &[u8]) -> bool
    ensures value { result ≡ (slice_index tail.now 0 == 46) }
    ensures room { IsTrue result → 1 ≤ length tail.now }
{
    !tail.is_empty() && tail[0] == b'.'
}

fn leading_digits(text: &[u8]) -> &[u8]
    ensures value { result.now ≡ take_while is_digit_byte text.now }
    ensures digits { AllDigits 10 result.now }
{
    &text[..count_digits(text)]
}

// How many digits the text begins with.
fn count_digits(text: &[u8]) -> usize
    ensures { result ≡ length (take_while is_digit_byte text.now) }
{
    text.iter().take_while(|byte| is_digit(**byte)).count()
}

/// Whether a point is followed by 1 to 9 digits.
pub fn has_fraction(tail: &[u8], digits: &[u8]) -> bool
    requires { digits.now ≡ fraction_of tail.now }
    ensures { result ≡ has_fraction tail.now }
{
    if begins_with_point(tail) {
        !digits.is_empty() && digits.len() <= 9
    } else {
        true
    }
}

/// What stands behind the fraction.
pub fn after_fraction<'a>(tail: &'a [u8], digits: &[u8]) -> &'a [u8]
    requires { digits.now ≡ fraction_of tail.now }
    ensures { result.now ≡ after_fraction tail.now }
{
    if begins_with_point(tail) {
        &tail[1 + digits.len()..]
    } else {
        tail
    }
}

/// The microseconds of a fraction's digits.
pub fn micros_of(digits: &[u8]) -> u64
    requires digits { AllDigits 10 digits.now }
    ensures value { result ≡ micros_of digits.now }
    ensures bound { result ≤ 1_000_000_000_000 }
{
    let count = digits.len();
    let kept = if count > 6 { &digits[..6] } else { digits };
    number_of(kept) * place_value(count)
}

// What the last of so many digits of a fraction is worth, in microseconds.
fn place_value(count: usize) -> u64
    ensures value { result ≡ 10 ^ (6 - count) }
    ensures bound { result ≤ 1_000_000 }
{
    match count {
        0 => 1_000_000,
        1 => 100_000,
        2 => 10_000,
        3 => 1_000,
        4 => 100,
        5 => 10,
        _ => 1,
    }
}

// The number of digits that are at most six, and 0 of none.
fn number_of(digits: &[u8]) -> u64
    requires few { length digits.now ≤ 6 }
    requires digits { AllDigits 10 digits.now }
    ensures value { result ≡ digits_value 10 digits.now }
    ensures bound { result < 1_000_000 }
{
    read_decimal(digits, 6).unwrap_or(0)
}
