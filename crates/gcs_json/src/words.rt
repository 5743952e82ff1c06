//! Texts of certain bytes.
ghost use Rattle.std.specs.Prelude.{◌≡◌, IfOk};
ghost use Rattle.std.specs.List.{list_all};
ghost use Rattle.serde_json.specs.View.{view};
ghost use Rattle.gcs_json.specs.Kinds.{text_if, text_where};
ghost use Rattle.gcs_json.specs.Words.{passes, is_word};

use crate::kind::Kind;
use gcs_meaning::Text;
use serde_json::Value;
use std::alloc::{AllocError, Global};

/// The bytes that a text may have.
#[derive(Clone, Copy)]
pub enum Bytes {
    /// Capital letters, digits and `_`.
    Class,
    /// Letters, digits and `-`.
    Place,
    /// All but the control characters of ASCII.
    Line,
    /// Digits.
    Digit,
}

/// A text of `least` to `most` of these bytes.
#[derive(Drop)]
pub struct Word {
    pub least: usize,
    pub most: usize,
    pub bytes: Bytes,
}

/// A storage class.
pub const CLASS: Word = Word {
    least: 1,
    most: 64,
    bytes: Bytes::Class,
};

/// A location.
pub const PLACE: Word = Word {
    least: 1,
    most: 64,
    bytes: Bytes::Place,
};

/// A text that a reply's head shows.
pub const LINE: Word = Word {
    least: 0,
    most: 1024,
    bytes: Bytes::Line,
};

impl Kind<Text> for Word {
    ghost reads = { λ it. text_where (is_word it.least it.most it.bytes) };

    fn read(&self, alloc: Global, value: &Value) -> Result<Option<Text>, AllocError> {
        match value.as_str() {
            Some(text) => text_if(
                alloc,
                is_word(self.least, self.most, self.bytes, text.as_bytes()),
                text,
            ),
            None => Ok(None),
        }
    }
}

fn text_if(alloc: Global, passes: bool, text: &str) -> Result<Option<Text>, AllocError>
    ensures { IfOk result (λ read. read ≡ text_if passes text.now) }
{
    if passes {
        Ok(Some(Text::from_str(alloc, text)?))
    } else {
        Ok(None)
    }
}

/// Whether the text has `least` to `most` of these bytes and no other.
pub fn is_word(least: usize, most: usize, bytes: Bytes, text: &[u8]) -> bool
    ensures { result ≡ is_word least most bytes text.now }
{
    least <= text.len() && text.len() <= most && all_pass(bytes, text)
}

/// Whether each byte of the text is one of these.
pub fn all_pass(bytes: Bytes, text: &[u8]) -> bool
    ensures { result ≡ list_all (passes bytes) text.now }
{
    for byte in text {
        if !passes(bytes, *byte) {
            return false;
        }
    }
    true
}

fn passes(bytes: Bytes, byte: u8) -> bool
    ensures { result ≡ passes bytes byte }
{
    match bytes {
        Bytes::Class => matches!(byte, b'A'..=b'Z' | b'0'..=b'9' | b'_'),
        Bytes::Place => matches!(byte, b'A'..=b'Z' | b'a'..=b'z' | b'0'..=b'9' | b'-'),
        Bytes::Line => byte >= 32 && byte != 127,
        Bytes::Digit => matches!(byte, b'0'..=b'9'),
    }
}
