//! Which bytes name a bucket, and which an object.
ghost use Rattle.std.specs.Prelude.{◌≡◌, ◌↔◌, ◌⊎◌, take, codes, IfOk, Err, IsTrue};
ghost use Rattle.gcs_names.specs.Name.{is_letter_or_digit, is_bucket_byte, IsBucketName, IsObjectName, TestIsTheRule};
ghost use Rattle.gcs_names.specs.ObjectTest.{ObjectTestIsTheRule};

use gcs_meaning::{BucketName, Name, Text};
use std::alloc::{AllocError, Global};

/// Why bytes are no name.
#[derive(Debug, Drop)]
pub enum BadName {
    /// They do not meet the rule for such names.
    Form,
    NoMemory,
}

impl From<AllocError> for BadName {
    ghost use Rattle.gcs_names.specs.declared.names.BadName.{BadName};
    ghost use Rattle.gcs_names.specs.declared.names.BadName.TheVariants.{NoMemory};

    ghost from_gives = { λ _ bad. bad ≡ NoMemory };

    fn from(_error: AllocError) -> BadName {
        BadName::NoMemory
    }
}

/// The test of a bucket's name, of which definitions make use, is the rule for such names.
pub fn law_bucket_name()
    ensures { TestIsTheRule }
{}

/// The same of the test of an object's name.
pub fn law_object_name()
    ensures { ObjectTestIsTheRule }
{}

/// The bucket's name with these bytes: 3 to 63 lower-case letters, digits, `-` and `_`, with a letter or a
/// digit at both ends, that do not begin with `goog`.
///
/// Source: Google's Cloud Storage, "Bucket names", of which names with dots and the ban on `google` within
/// a name are left out.
pub fn bucket_name(alloc: Global, bytes: &[u8]) -> Result<BucketName, BadName>
    ensures name { IfOk result (λ name. name ≡ bytes.now) }
    ensures rule { IfOk result (λ _. IsBucketName bytes.now) }
    ensures form { result ≡ Err BadName.Form → ¬ IsBucketName bytes.now }
{
    let Ok(text) = str::from_utf8(bytes) else {
        return Err(BadName::Form);
    };
    if !is_bucket_name(bytes) {
        return Err(BadName::Form);
    }
    let text = Text::from_str(alloc, text)?;
    Ok(BucketName::new(text))
}

/// The object's name with these bytes: 1 to 1,024 bytes of UTF-8 without CR and LF, neither `.` nor `..`,
/// that do not begin with `.well-known/acme-challenge/`.
///
/// Source: Google's Cloud Storage, "Object names".
pub fn object_name(alloc: Global, bytes: &[u8]) -> Result<Name, BadName>
    ensures name { IfOk result (λ name. name ≡ bytes.now) }
    ensures rule { IfOk result (λ _. IsObjectName bytes.now) }
    ensures form { result ≡ Err BadName.Form → ¬ IsObjectName bytes.now }
{
    let Ok(text) = str::from_utf8(bytes) else {
        return Err(BadName::Form);
    };
    if !is_object_name(text) {
        return Err(BadName::Form);
    }
    let text = Text::from_str(alloc, text)?;
    Ok(Name::new(text))
}

fn is_letter_or_digit(byte: u8) -> bool
    ensures { result ≡ is_letter_or_digit byte }
{
    matches!(byte, b'a'..=b'z' | b'0'..=b'9')
}

fn is_bucket_byte(byte: u8) -> bool
    ensures { result ≡ is_bucket_byte byte }
{
    is_letter_or_digit(byte) || byte == b'-' || byte == b'_'
}

fn is_bucket_name(name: &[u8]) -> bool
    ensures { IsTrue result ↔ IsBucketName name.now }
{
    let length = name.len();
    if length < 3 || length > 63 {
        return false;
    }
    if !name.iter().all(|byte| is_bucket_byte(*byte)) {
        return false;
    }
    is_letter_or_digit(name[0])
        && is_letter_or_digit(name[length - 1])
        && !name.starts_with(b"goog")
}

fn is_object_name(name: &str) -> bool
    ensures { IsTrue result ↔ IsObjectName name.now }
{
    let bytes = name.as_bytes();
    if bytes.is_empty() || bytes.len() > 1024 {
        return false;
    }
    if bytes.iter().any(|byte| *byte == b'\n' || *byte == b'\r') {
        return false;
    }
    !is_kept_back(bytes) && !is_dots(name)
}

// Whether the name begins as those by which a certificate authority tests who has a host (RFC 8555).
fn is_kept_back(name: &[u8]) -> bool
    ensures { IsTrue result ↔ (take 27 name.now ≡ codes ".well-known/acme-challenge/") }
{
    name.starts_with(b".well-known/acme-challenge/")
}

fn is_dots(name: &str) -> bool
    ensures { IsTrue result ↔ ((name.now ≡ codes ".") ⊎ (name.now ≡ codes "..")) }
{
    name == "." || name == ".."
}
