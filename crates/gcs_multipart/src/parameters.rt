//! The parameters behind a media type, read byte by byte for the value of a `boundary`.
ghost use Rattle.std.specs.Prelude.{◌≡◌, ◌<◌, ◌≤◌, ◌+◌, ℕ, List, Option, None, length, slice_index, slice_range, IfSome, option_map};
ghost use Rattle.std.specs.Option.{option_copied};
ghost use Rattle.gcs_multipart.specs.Parameters.{between, finish, is_text_byte, is_token_byte, is_wanted, read, settle, step, ended};
ghost use Rattle.gcs_multipart.specs.Reading.{IsWithin, found_in, place_in, seen, Ended};

use crate::words::{is_blank, is_same_word};

/// Where a reading is. A name or a value is told by the place where it begins.
#[derive(Clone, Copy)]
pub(crate) enum Place {
    /// Behind the type or a parameter.
    Ended,
    /// Behind blanks there.
    Blank,
    /// Behind a `;` and blanks.
    Behind,
    Named { start: usize },
    /// Behind the `=`. `wanted`: the name is `boundary`.
    Begins { wanted: bool },
    InToken { wanted: bool, start: usize },
    InQuotes { wanted: bool, start: usize },
    /// Behind a `\` in quotes.
    Escaped { wanted: bool, start: usize },
}

/// What was read: a place, and where the first wanted value begins and ends.
#[derive(Clone, Copy)]
pub(crate) struct Reading {
    place: Place,
    found: Option<(usize, usize)>,
}

/// The value of the first parameter `boundary`. `None`: there is none, or the text is no list of parameters.
pub(crate) fn boundary_value(text: &[u8]) -> Option<&[u8]>
    ensures { option_copied result ≡ read ended None text.now }
{
    let mut reading = Reading::ended(None);
    for at in 0..text.len() {
        reading = step(text, at, reading)?;
    }
    let (start, end) = finish(reading, text.len())?;
    Some(&text[start..end])
}

impl Reading {
    // Behind the type or a parameter.
    fn ended(found: Option<(usize, usize)>) -> Reading
        ensures { result ≡ record { place = Place.Ended; found = found } }
    {
        Reading {
            place: Place::Ended,
            found,
        }
    }
}

// The reading, one byte on. `None`: the text is no list of parameters.
fn step(text: &[u8], at: usize, reading: Reading) -> Option<Reading>
    requires room { at < length text.now }
    requires within { IsWithin at reading }
    ensures within { IfSome result (λ r. IsWithin (at + 1) r) }
    ensures value { option_map (seen text.now (at + 1)) result
        ≡ step (place_in text.now at reading.place) (found_in text.now reading.found) (slice_index text.now at) }
{
    let byte = text[at];
    let found = reading.found;
    let place = match reading.place {
        Place::Ended | Place::Blank => return between(found, byte),
        Place::Behind if byte == b';' => Place::Behind,
        Place::Behind if is_blank(byte) => Place::Behind,
        Place::Behind if is_token_byte(byte) => Place::Named { start: at },
        Place::Behind => return None,
        Place::Named { start } if byte == b'=' => Place::Begins {
            wanted: is_same_word(&text[start..at], b"boundary"),
        },
        Place::Named { start } if is_token_byte(byte) => Place::Named { start },
        Place::Named { .. } => return None,
        Place::Begins { wanted } if byte == b'"' => Place::InQuotes {
            wanted,
            start: at + 1,
        },
        Place::Begins { wanted } if is_token_byte(byte) => Place::InToken { wanted, start: at },
        Place::Begins { .. } => return None,
        Place::InToken { wanted, start } if is_token_byte(byte) => Place::InToken { wanted, start },
        Place::InToken { wanted, start } => {
            return between(settle(found, wanted, start, at), byte);
        }
        Place::InQuotes { wanted, start } if byte == b'"' => {
            return Some(Reading::ended(settle(found, wanted, start, at)));
        }
        Place::InQuotes { wanted, start } if byte == b'\\' => Place::Escaped { wanted, start },
        Place::InQuotes { wanted, start } if is_text_byte(byte) => {
            Place::InQuotes { wanted, start }
        }
        Place::InQuotes { .. } => return None,
        Place::Escaped { wanted, start } if is_text_byte(byte) => {
            Place::InQuotes { wanted, start }
        }
        Place::Escaped { .. } => return None,
    };
    Some(Reading { place, found })
}

// Behind a type or a parameter come blanks and a `;`.
fn between(found: Option<(usize, usize)>, byte: u8) -> Option<Reading>
    ensures within { (now : ℕ) → Ended now found → IfSome result (λ r. IsWithin now r) }
    ensures value { (text : List ℕ) (now : ℕ) → option_map (seen text now) result ≡ between (found_in text found) byte }
{
    if byte == b';' {
        return Some(Reading {
            place: Place::Behind,
            found,
        });
    }
    if is_blank(byte) {
        return Some(Reading {
            place: Place::Blank,
            found,
        });
    }
    None
}

// The first wanted value, with one more value.
fn settle(
    found: Option<(usize, usize)>,
    wanted: bool,
    start: usize,
    end: usize,
) -> Option<(usize, usize)>
    ensures within { (now : ℕ) → Ended now found → start ≤ end → end ≤ now → Ended now result }
    ensures value { (text : List ℕ) → found_in text result ≡ settle wanted (slice_range text start end) (found_in text found) }
{
    match found {
        None if wanted => Some((start, end)),
        _ => found,
    }
}

// The first wanted value, where the text may end.
fn finish(reading: Reading, end: usize) -> Option<(usize, usize)>
    requires { IsWithin end reading }
    ensures within { Ended end result }
    ensures value { (text : List ℕ) → found_in text result ≡ finish (place_in text end reading.place) (found_in text reading.found) }
{
    match reading.place {
        Place::Ended | Place::Behind => reading.found,
        Place::InToken { wanted, start } => settle(reading.found, wanted, start, end),
        _ => None,
    }
}

// Whether a token may have the byte (RFC 9110, 5.6.2).
#[tactic(auto, unfolding(crate::specs::Parameters::is_token_byte))]
fn is_token_byte(byte: u8) -> bool
    ensures { result ≡ is_token_byte byte }
{
    byte.is_ascii_alphanumeric() || b"!#$%&'*+-.^_`|~".contains(&byte)
}

// Whether a quoted text may have the byte, by itself or behind a `\` (RFC 9110, 5.6.4).
#[tactic(auto, unfolding(crate::specs::Parameters::is_text_byte))]
fn is_text_byte(byte: u8) -> bool
    ensures { result ≡ is_text_byte byte }
{
    byte == b'\t' || (byte >= 32 && byte != 127)
}
