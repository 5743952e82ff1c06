//! The tokens of pages, read and written. A token is read only as it is written.
ghost use Rattle.std.specs.Prelude.{◌≡◌, ◌<◌, ◌^◌, ◌++◌, ◌∷◌, ◌&&◌, ℕ, List, decimal, length, nat_le, IfOk, IfSome, Err, Some, None, IsUtf8, MatchOption, Ok};
ghost use Rattle.std.specs.Str.{bytes_eq};
ghost use Rattle.base64.specs.Engines.{url_safe_no_pad};
ghost use Rattle.base64.specs.GeneralPurpose.{decode_of, decoded_of, encode_of};
ghost use Rattle.gcs_meaning.specs.Tokens.{bucket_token, page_token};
ghost use Rattle.gcs_listing.specs.Tokens.{bucket_of_token, unit_of_token, TokensAreExact};

use base64::DecodeAllocError;
use base64::engine::general_purpose::URL_SAFE_NO_PAD;
use gcs_meaning::{BucketName, Text, Unit};
use gcs_names::{BadName, bucket_name};
use std::alloc::{AllocError, Global};

/// Why a text was not read as a token.
#[derive(Debug, Drop)]
pub enum TokenFault {
    /// Nothing has this token.
    Bad,
    NoMemory,
}

impl From<AllocError> for TokenFault {
    ghost use Rattle.gcs_listing.specs.declared.tokens.TokenFault.{TokenFault};
    ghost use Rattle.gcs_listing.specs.declared.tokens.TokenFault.TheVariants.{NoMemory};

    ghost from_gives = { λ _ fault. fault ≡ NoMemory };

    fn from(_error: AllocError) -> TokenFault {
        TokenFault::NoMemory
    }
}

/// What tokens name is what they are written for, and a token has one text.
pub fn law_tokens()
    ensures { TokensAreExact }
{}

/// The token of a page of objects whose last unit this is. `Err`: no memory.
pub fn write_token(alloc: Global, unit: &Unit) -> Result<Text, AllocError>
    ensures { IfOk result (λ text. text ≡ page_token unit.now) }
{
    let text = format!(in alloc; "{}:{}", unit.number, unit.text.as_str())?;
    Ok(Text::from_string(URL_SAFE_NO_PAD.encode(alloc, text.as_bytes())?))
}

/// The unit that has this token. A unit's text has 1 to 1,024 bytes of UTF-8. `Err`: none has it, or no memory.
pub fn read_token(alloc: Global, token: &[u8]) -> Result<Unit, TokenFault>
    ensures found { IfOk result (λ unit. unit_of_token token.now ≡ Some unit) }
    ensures none { result ≡ Err TokenFault.Bad → unit_of_token token.now ≡ None }
{
    let bytes = decoded(alloc, token)?;
    let Some((number, text)) = parts(&bytes) else {
        return Err(TokenFault::Bad);
    };
    if !fits(text) {
        return Err(TokenFault::Bad);
    }
    let unit = Unit {
        text: Text::from_str(alloc, text)?,
        number,
    };
    // A number with a plus sign or a leading zero is written in another way.
    let written = write_token(alloc, &unit)?;
    if is_same(written.as_bytes(), token) {
        Ok(unit)
    } else {
        Err(TokenFault::Bad)
    }
}

// Whether a unit's text may be so long.
fn fits(text: &str) -> bool
    ensures { result ≡ (nat_le 1 (length text.now) && nat_le (length text.now) 1024) }
{
    let length = text.len();
    1 <= length && length <= 1024
}

fn is_same(text: &[u8], other: &[u8]) -> bool
    ensures { result ≡ bytes_eq text.now other.now }
{
    text == other
}

// The number and the text round the first colon.
fn parts(bytes: &[u8]) -> Option<(u64, &str)>
    ensures found { (n : ℕ) (t : List ℕ) → n < 2 ^ 64 → IsUtf8 t → bytes.now ≡ decimal n ++ 58 ∷ t
        → MatchOption result ⊥ (λ x. (x.0 ≡ n) × (x.1.now ≡ t)) }
    ensures sound { IfSome result (λ x. (x.0 < 2 ^ 64) × IsUtf8 x.1.now) }
{
    let Ok(text) = str::from_utf8(bytes) else {
        return None;
    };
    let Some((digits, rest)) = text.split_once(':') else {
        return None;
    };
    match digits.parse::<u64>() {
        Ok(number) => Some((number, rest)),
        Err(_) => None,
    }
}

// The bytes that have this text.
fn decoded(alloc: Global, token: &[u8]) -> Result<Vec<u8>, TokenFault>
    ensures found { IfOk result (λ bytes. decode_of url_safe_no_pad token.now ≡ Ok bytes.items) }
    ensures exact { IfOk result (λ bytes. token.now ≡ encode_of url_safe_no_pad bytes.items) }
    ensures none { result ≡ Err TokenFault.Bad → decoded_of url_safe_no_pad token.now ≡ None }
{
    match URL_SAFE_NO_PAD.decode(alloc, token) {
        Ok(bytes) => Ok(bytes),
        Err(DecodeAllocError::OutOfMemory) => Err(TokenFault::NoMemory),
        Err(DecodeAllocError::DecodeError(_)) => Err(TokenFault::Bad),
    }
}

/// The token of a page of buckets that ends with this name. `Err`: no memory.
pub fn write_bucket_token(alloc: Global, name: &BucketName) -> Result<Text, AllocError>
    ensures { IfOk result (λ text. text ≡ bucket_token name.now) }
{
    Ok(Text::from_string(URL_SAFE_NO_PAD.encode(alloc, name.as_bytes())?))
}

/// The bucket's name that has this token. `Err`: none has it, or no memory.
pub fn read_bucket_token(alloc: Global, token: &[u8]) -> Result<BucketName, TokenFault>
    ensures found { IfOk result (λ name. bucket_of_token token.now ≡ Some name) }
    ensures none { result ≡ Err TokenFault.Bad → bucket_of_token token.now ≡ None }
{
    let bytes = decoded(alloc, token)?;
    match bucket_name(alloc, &bytes) {
        Ok(name) => Ok(name),
        Err(BadName::Form) => Err(TokenFault::Bad),
        Err(BadName::NoMemory) => Err(TokenFault::NoMemory),
    }
}
