//! The tokens of rewrites, read and written. A token is read only as it is written.
ghost use Rattle.std.specs.Prelude.{◌≡◌, ◌<◌, ◌^◌, ℕ, decimal, map, IfOk, Err, Some, None, Ok};
ghost use Rattle.std.specs.Str.{bytes_eq};
ghost use Rattle.base64.specs.Engines.{url_safe_no_pad};
ghost use Rattle.base64.specs.GeneralPurpose.{decode_of, decoded_of, encode_of};
ghost use Rattle.gcs_names.specs.Name.{IsBucketName, IsObjectName};
ghost use Rattle.gcs_rewrite.specs.Tokens.{rewrite_of_token, rewrite_token, token_lines, HasRewriteToken, RewriteTokensAreExact};

use crate::token_lines::lines_of;
use base64::DecodeAllocError;
use base64::engine::general_purpose::URL_SAFE_NO_PAD;
use gcs_meaning::{BucketName, Name, RewriteToken, Text};
use gcs_names::{BadName, bucket_name, object_name};
use std::alloc::{AllocError, Global};

/// Why a text was not read as the token of a rewrite.
#[derive(Debug, Drop)]
pub enum RewriteFault {
    /// No rewrite has this token.
    Bad,
    NoMemory,
}

impl From<AllocError> for RewriteFault {
    ghost use Rattle.gcs_rewrite.specs.declared.tokens.RewriteFault.{RewriteFault};
    ghost use Rattle.gcs_rewrite.specs.declared.tokens.RewriteFault.TheVariants.{NoMemory};

    ghost from_gives = { λ _ fault. fault ≡ NoMemory };

    fn from(_error: AllocError) -> RewriteFault {
        RewriteFault::NoMemory
    }
}

/// What tokens tell of is what they are written for, and a rewrite has one token at each place.
pub fn law_rewrite_tokens()
    ensures { RewriteTokensAreExact }
{}

/// The token of a rewrite that has come so far. `Err`: no memory.
pub fn write_rewrite(alloc: Global, token: &RewriteToken) -> Result<Text, AllocError>
    ensures { IfOk result (λ text. text ≡ rewrite_token token.now) }
{
    let lines = format!(in alloc;
        "{}\n{}\n{}\n{}\n{}\n{}",
        token.generation,
        token.done,
        token.from_bucket.as_str(),
        token.from_name.as_str(),
        token.to_bucket.as_str(),
        token.to_name.as_str()
    )?;
    Ok(Text::from_string(URL_SAFE_NO_PAD.encode(alloc, lines.as_bytes())?))
}

/// The rewrite that this token tells of: at least one byte is done. `Err`: none has it, or no memory.
pub fn read_rewrite(alloc: Global, text: &[u8]) -> Result<RewriteToken, RewriteFault>
    ensures found { IfOk result (λ token. rewrite_of_token text.now ≡ Some token) }
    ensures none { result ≡ Err RewriteFault.Bad → rewrite_of_token text.now ≡ None }
{
    let bytes = decoded(alloc, text)?;
    let lines = lines_of(alloc, &bytes)?;
    let token = token_in(alloc, &lines)?;
    // A number with a plus sign or a leading zero is written in another way.
    let written = write_rewrite(alloc, &token)?;
    if is_same(written.as_bytes(), text) {
        Ok(token)
    } else {
        Err(RewriteFault::Bad)
    }
}

fn is_same(text: &[u8], other: &[u8]) -> bool
    ensures { result ≡ bytes_eq text.now other.now }
{
    text == other
}

// The bytes that have this text.
fn decoded(alloc: Global, text: &[u8]) -> Result<Vec<u8>, RewriteFault>
    ensures found { IfOk result (λ bytes. decode_of url_safe_no_pad text.now ≡ Ok bytes.items) }
    ensures none { result ≡ Err RewriteFault.Bad → decoded_of url_safe_no_pad text.now ≡ None }
{
    match URL_SAFE_NO_PAD.decode(alloc, text) {
        Ok(bytes) => Ok(bytes),
        Err(DecodeAllocError::OutOfMemory) => Err(RewriteFault::NoMemory),
        Err(DecodeAllocError::DecodeError(_)) => Err(RewriteFault::Bad),
    }
}

// What these lines tell. `Err`: they are those of no token, or no memory.
fn token_in(alloc: Global, lines: &[&[u8]]) -> Result<RewriteToken, RewriteFault>
    ensures right { IfOk result (λ token. HasRewriteToken token) }
    ensures same { IfOk result (λ token. (k : RewriteToken) → HasRewriteToken k → map (λ line. line.now) lines.now ≡ token_lines k → token ≡ k) }
    ensures none { result ≡ Err RewriteFault.Bad → (k : RewriteToken) → HasRewriteToken k → ¬ (map (λ line. line.now) lines.now ≡ token_lines k) }
{
    let [generation, done, from_bucket, from_name, to_bucket, to_name] = lines else {
        return Err(RewriteFault::Bad);
    };
    let generation = number_in(generation)?;
    let done = number_in(done)?;
    if done == 0 {
        return Err(RewriteFault::Bad);
    }
    Ok(RewriteToken {
        generation,
        done,
        from_bucket: bucket_in(alloc, from_bucket)?,
        from_name: object_in(alloc, from_name)?,
        to_bucket: bucket_in(alloc, to_bucket)?,
        to_name: object_in(alloc, to_name)?,
    })
}

// The number that a line writes.
fn number_in(line: &[u8]) -> Result<u64, RewriteFault>
    ensures { (n : ℕ) → n < 2 ^ 64 → line.now ≡ decimal n → result ≡ Ok n }
{
    let Ok(text) = str::from_utf8(line) else {
        return Err(RewriteFault::Bad);
    };
    match text.parse::<u64>() {
        Ok(number) => Ok(number),
        Err(_) => Err(RewriteFault::Bad),
    }
}

fn bucket_in(alloc: Global, line: &[u8]) -> Result<BucketName, RewriteFault>
    ensures name { IfOk result (λ name. (name ≡ line.now) × IsBucketName line.now) }
    ensures none { result ≡ Err RewriteFault.Bad → ¬ IsBucketName line.now }
{
    match bucket_name(alloc, line) {
        Ok(name) => Ok(name),
        Err(BadName::Form) => Err(RewriteFault::Bad),
        Err(BadName::NoMemory) => Err(RewriteFault::NoMemory),
    }
}

fn object_in(alloc: Global, line: &[u8]) -> Result<Name, RewriteFault>
    ensures name { IfOk result (λ name. (name ≡ line.now) × IsObjectName line.now) }
    ensures none { result ≡ Err RewriteFault.Bad → ¬ IsObjectName line.now }
{
    match object_name(alloc, line) {
        Ok(name) => Ok(name),
        Err(BadName::Form) => Err(RewriteFault::Bad),
        Err(BadName::NoMemory) => Err(RewriteFault::NoMemory),
    }
}
