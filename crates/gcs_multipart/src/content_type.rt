//! The boundary that a content type names.
ghost use Rattle.std.specs.Prelude.{◌≡◌, ◌≤◌, IfSome, length, take, true};
ghost use Rattle.std.specs.List.{list_all};
ghost use Rattle.std.specs.Option.{option_copied};
ghost use Rattle.gcs_multipart.specs.ContentType.{BoundariesAreExact, behind_type, boundary_of, is_boundary, is_boundary_byte};
ghost use Rattle.gcs_multipart.specs.Delimiter.{IsBoundary};
ghost use Rattle.std.specs.Str.{str_eq_ignore_ascii_case};

use crate::parameters::boundary_value;
use crate::words::is_same_word;

/// The boundary that the value of a `Content-Type` names (RFC 2046, 5.1.1; parameters by RFC 9110, 5.6.6). `None`: the
/// type is neither `multipart/related` nor `multipart/mixed`, the parameters are not well formed, or the first
/// `boundary` is not there or is none.
#[tactic(auto, unfolding(crate::specs::ContentType::boundary_of))]
pub fn boundary(content_type: &[u8]) -> Option<&[u8]>
    ensures value { option_copied result ≡ boundary_of content_type.now }
    ensures fits { IfSome result (λ b. IsBoundary b.now) }
{
    let text = behind_type(content_type)?;
    let value = boundary_value(text)?;
    if is_boundary(value) {
        return Some(value);
    }
    None
}

/// The boundary that is read of a text is the one that it names by the grammar, and a text names at most one.
pub fn law_boundary()
    ensures { BoundariesAreExact }
{}

// What stands behind the type.
#[tactic(auto, unfolding(crate::specs::ContentType::behind_type))]
fn behind_type(text: &[u8]) -> Option<&[u8]>
    ensures { option_copied result ≡ behind_type text.now }
{
    if begins_with(text, b"multipart/related") {
        return Some(&text[17..]);
    }
    if begins_with(text, b"multipart/mixed") {
        return Some(&text[15..]);
    }
    None
}

// Whether the text begins with the word, in any case.
fn begins_with(text: &[u8], word: &[u8]) -> bool
    ensures value { result ≡ str_eq_ignore_ascii_case (take (length word.now) text.now) word.now }
    ensures within { result ≡ true → length word.now ≤ length text.now }
{
    text.len() >= word.len() && is_same_word(&text[..word.len()], word)
}

// Whether it is 1 to 70 bytes that a boundary may have, the last of which is no space.
#[tactic(auto, unfolding(crate::specs::ContentType::is_boundary))]
fn is_boundary(text: &[u8]) -> bool
    ensures { result ≡ is_boundary text.now }
{
    !text.is_empty() && text.len() <= 70 && text[text.len() - 1] != b' ' && has_boundary_bytes(text)
}

fn has_boundary_bytes(text: &[u8]) -> bool
    ensures { result ≡ list_all is_boundary_byte text.now }
{
    text.iter().all(|byte| is_boundary_byte(*byte))
}

#[tactic(auto, unfolding(crate::specs::ContentType::is_boundary_byte))]
fn is_boundary_byte(byte: u8) -> bool
    ensures { result ≡ is_boundary_byte byte }
{
    byte.is_ascii_alphanumeric() || b"'()+_,-./:=? ".contains(&byte)
}
