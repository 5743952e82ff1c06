//! Digests as the texts that the service shows and takes: base64 with padding (RFC 4648, 4).
ghost use Rattle.std.specs.Prelude.{◌≡◌, length, IfOk, Err, Some, None, string_bytes};
ghost use Rattle.gcs_crc.specs.Text.{crc_text_of, md5_text_of, bytes_of_text, crc_of_text, md5_of_text};

use base64::DecodeAllocError;
use base64::engine::general_purpose::STANDARD;
use std::alloc::{AllocError, Global};

/// Why a text was not read as a digest.
#[derive(Debug, Drop)]
pub enum BadDigest {
    /// No digest of that kind has this text.
    Form,
    /// There was no memory for the decoded bytes.
    NoMemory,
}

/// The text of a CRC32C: base64 of its four bytes, the highest first. `Err`: no memory.
///
/// Source: Google's "Object resource", `crc32c`.
pub fn crc_text(alloc: Global, value: u32) -> Result<String, AllocError>
    ensures { IfOk result (λ text. string_bytes text ≡ crc_text_of value) }
{
    STANDARD.encode(alloc, &value.to_be_bytes())
}

/// The text of an MD5: base64 of its sixteen bytes. `Err`: no memory.
///
/// Source: Google's "Object resource", `md5Hash`.
pub fn md5_text(alloc: Global, value: &[u8; 16]) -> Result<String, AllocError>
    ensures { IfOk result (λ text. string_bytes text ≡ md5_text_of value.now) }
{
    STANDARD.encode(alloc, value)
}

/// The CRC32C that has this text: padding and the bits past the last byte are as `crc_text` writes them.
///
/// `law_texts` says that a text is read exactly where it is that CRC32C's own.
pub fn read_crc(alloc: Global, text: &[u8]) -> Result<u32, BadDigest>
    ensures found { IfOk result (λ value. crc_of_text text.now ≡ Some value) }
    ensures none { result ≡ Err BadDigest.Form → crc_of_text text.now ≡ None }
{
    let bytes = decoded(alloc, text, 4)?;
    let mut value = [0u8; 4];
    value.copy_from_slice(&bytes);
    Ok(u32::from_be_bytes(value))
}

/// The MD5 that has this text: padding and the bits past the last byte are as `md5_text` writes them.
///
/// `law_texts` says that a text is read exactly where it is that MD5's own.
pub fn read_md5(alloc: Global, text: &[u8]) -> Result<[u8; 16], BadDigest>
    ensures found { IfOk result (λ value. md5_of_text text.now ≡ Some value) }
    ensures none { result ≡ Err BadDigest.Form → md5_of_text text.now ≡ None }
{
    let bytes = decoded(alloc, text, 16)?;
    let mut value = [0u8; 16];
    value.copy_from_slice(&bytes);
    Ok(value)
}

// The bytes that have this text, if they are so many.
fn decoded(alloc: Global, text: &[u8], count: usize) -> Result<Vec<u8>, BadDigest>
    ensures len { IfOk result (λ bytes. length bytes.items ≡ count) }
    ensures found { IfOk result (λ bytes. bytes_of_text count text.now ≡ Some bytes.items) }
    ensures none { result ≡ Err BadDigest.Form → bytes_of_text count text.now ≡ None }
{
    match STANDARD.decode(alloc, text) {
        Ok(bytes) if bytes.len() == count => Ok(bytes),
        Ok(_) => Err(BadDigest::Form),
        Err(DecodeAllocError::OutOfMemory) => Err(BadDigest::NoMemory),
        Err(DecodeAllocError::DecodeError(_)) => Err(BadDigest::Form),
    }
}
