//! The values of a query's keys: texts, numbers and flags.
ghost use Rattle.std.specs.Prelude.{◌≡◌, ◌≢◌, ◌≤◌, ◌⊎◌, ℕ, [], length, IfOk, IfErr, IfSome, IfNone, Ok, Err, Some, None, true, false};
ghost use Rattle.std.specs.Str.Parse.{digits_value, IsNumeral};
ghost use Rattle.gcs_query.specs.Values.{value_of, greatest, IsNumber, IsTrueText, IsFalseText};

use crate::reading::Query;
use gcs_decimal::{MOST_DIGITS, read_decimal};

/// The value of a key is not of the kind that was asked for.
#[derive(Clone, Copy, Debug)]
pub struct BadValue;

// 2^63 - 1
const GREATEST: u64 = 9_223_372_036_854_775_807;

impl Query {
    /// The value of the last pair with this key; `None` where that value is empty or there is no such pair.
    pub fn text(&self, key: &str) -> Option<&str>
        ensures some { IfSome result (λ text. (text.now ≡ value_of key.now self.now) × (text.now ≢ [])) }
        ensures none { IfNone result (value_of key.now self.now ≡ []) }
    {
        let value = self.value(key);
        if value.is_empty() { None } else { Some(value) }
    }

    /// The value of this key as a number: 1 to 19 decimal digits, at most 2^63 - 1, the greatest `int64` of
    /// Google's JSON API. `None` where `text` is; `Err` exactly where the value is any other text.
    pub fn number(&self, key: &str) -> Result<Option<u64>, BadValue>
        ensures none { result ≡ Ok None → value_of key.now self.now ≡ [] }
        ensures some { (n : ℕ) → result ≡ Ok (Some n)
            → IsNumber (value_of key.now self.now) × (n ≡ digits_value 10 (value_of key.now self.now)) }
        ensures bad { IfErr result (λ _. (value_of key.now self.now ≢ []) × ¬ IsNumber (value_of key.now self.now)) }
    {
        let text = self.value(key);
        if text.is_empty() {
            return Ok(None);
        }
        match number_of(text.as_bytes()) {
            Some(number) => Ok(Some(number)),
            None => Err(BadValue),
        }
    }

    /// The value of this key as a flag: `true` or `false` in any case, and false where `text` is `None`. `Err`
    /// exactly where the value is any other text.
    pub fn flag(&self, key: &str) -> Result<bool, BadValue>
        ensures yes { result ≡ Ok true → IsTrueText (value_of key.now self.now) }
        ensures no { result ≡ Ok false → (value_of key.now self.now ≡ []) ⊎ IsFalseText (value_of key.now self.now) }
        ensures bad { IfErr result (λ _. (value_of key.now self.now ≢ [])
            × (¬ IsTrueText (value_of key.now self.now))
            × (¬ IsFalseText (value_of key.now self.now))) }
    {
        let text = self.value(key);
        if text.is_empty() || text.eq_ignore_ascii_case("false") {
            return Ok(false);
        }
        if text.eq_ignore_ascii_case("true") {
            Ok(true)
        } else {
            Err(BadValue)
        }
    }

    // The value of the last pair with this key, or the empty text.
    fn value(&self, key: &str) -> &str
        ensures { result.now ≡ value_of key.now self.now }
    {
        let mut found = "";
        for (name, value) in &self.pairs {
            if name.as_str() == key {
                found = value.as_str();
            }
        }
        found
    }
}

// The number that this text is, if it is one.
fn number_of(text: &[u8]) -> Option<u64>
    ensures some { IfSome result (λ n. IsNumber text.now × (n ≡ digits_value 10 text.now)) }
    ensures none { IfNone result (¬ IsNumber text.now) }
{
    match read_decimal(text, MOST_DIGITS) {
        Some(number) if number <= GREATEST => Some(number),
        _ => None,
    }
}
