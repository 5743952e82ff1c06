//! Numbers of 64 bits, as texts of digits or as numbers of JSON.
ghost use Rattle.std.specs.Prelude.{◌≡◌};
ghost use Rattle.serde_json.specs.View.{view};
ghost use Rattle.gcs_json.specs.Kinds.{number_of, number_within};
ghost use Rattle.gcs_json.specs.Words.{number_in_text};

use crate::kind::Kind;
use crate::words::{Bytes, all_pass};
use serde_json::Value;
use std::alloc::{AllocError, Global};

/// A number from `least` to `most`, or 0 where `zero` says so.
#[derive(Drop)]
pub struct Number {
    pub zero: bool,
    pub least: u64,
    pub most: u64,
}

impl Kind<u64> for Number {
    ghost reads = { λ it. number_within it.zero it.least it.most };

    fn read(&self, alloc: Global, value: &Value) -> Result<Option<u64>, AllocError> {
        let Some(number) = number_of(value) else {
            return Ok(None);
        };
        if (self.zero && number == 0) || (self.least <= number && number <= self.most) {
            Ok(Some(number))
        } else {
            Ok(None)
        }
    }
}

/// The number that a value is.
pub fn number_of(value: &Value) -> Option<u64>
    ensures { result ≡ number_of (view value.now) }
{
    match value {
        Value::String(text) => number_in_text(text.as_str()),
        Value::Number(number) => number.as_u64(),
        _ => None,
    }
}

// `parse` would take a sign.
fn number_in_text(text: &str) -> Option<u64>
    ensures { result ≡ number_in_text text.now }
{
    if text.is_empty() || !all_pass(Bytes::Digit, text.as_bytes()) {
        return None;
    }
    match text.parse::<u64>() {
        Ok(number) => Some(number),
        Err(_) => None,
    }
}
