//! The fields of a head by which a request is told.
ghost use Rattle.std.specs.Prelude.{◌≡◌, ◌==◌, ◌&&◌, ℕ, List, Some, nat_le, not, is_some, IfOk, IfSome};
ghost use Rattle.std.specs.List.{list_all};
ghost use Rattle.std.specs.Option.{option_copied};
ghost use Rattle.gcs_http_in.specs.Message.{Message};
ghost use Rattle.gcs_http_in.specs.Progress.{Current};
ghost use Rattle.gcs_http_in.specs.Stands.{IsInMessage, Stands};
ghost use Rattle.gcs_multipart.specs.Delimiter.{IsBoundary};
ghost use Rattle.gcs_request.specs.Heads.{boundary_of_field, host_of_field, is_field_text, is_host, is_host_byte, IsReadOf, method_by, range_of_field, text_of_field};

use crate::ranges::read_range;
use gcs_http_in::Framer;
use gcs_meaning::Text;
use gcs_multipart::boundary;
use gcs_rewrite::Range;
use std::alloc::{AllocError, Global};

/// The texts of a head by which a request is told: its method and its target, and the value of the first field of each
/// of these names.
#[derive(Clone, Copy)]
pub struct HeadFields<'a> {
    pub method: &'a [u8],
    pub target: &'a [u8],
    /// `X-HTTP-Method-Override`
    pub method_override: Option<&'a [u8]>,
    /// `Content-Type`
    pub content_type: Option<&'a [u8]>,
    /// `Content-Encoding`
    pub content_encoding: Option<&'a [u8]>,
    /// `Range`
    pub range: Option<&'a [u8]>,
    /// `Content-Range`
    pub content_range: Option<&'a [u8]>,
    /// `X-Upload-Content-Type`
    pub upload_type: Option<&'a [u8]>,
    /// `X-Upload-Content-Length`
    pub upload_length: Option<&'a [u8]>,
    /// `Host`
    pub host: Option<&'a [u8]>,
}

impl<'a> HeadFields<'a> {
    /// Those of the message under way.
    pub fn read(framer: &'a Framer) -> HeadFields<'a>
        requires { IsInMessage framer.now }
        ensures { (bytes : List ℕ) (messages : List Message) (it : Current) → Stands framer.now bytes messages (Some it) → IsReadOf it.head result }
    {
        HeadFields {
            method: framer.method(),
            target: framer.target(),
            method_override: framer.field(b"x-http-method-override"),
            content_type: framer.field(b"content-type"),
            content_encoding: framer.field(b"content-encoding"),
            range: framer.field(b"range"),
            content_range: framer.field(b"content-range"),
            upload_type: framer.field(b"x-upload-content-type"),
            upload_length: framer.field(b"x-upload-content-length"),
            host: framer.field(b"host"),
        }
    }
}

/// The method that is meant: a POST can say that it is a PATCH.
///
/// Source: Google's page "Performance tips", "Patch".
pub fn method_by<'a>(method: &'a [u8], method_override: Option<&[u8]>) -> &'a [u8]
    ensures { result.now ≡ method_by method.now (option_copied method_override.entry) }
{
    let Some(value) = method_override else {
        return method;
    };
    if method == b"POST".as_slice() && value == b"PATCH".as_slice() {
        b"PATCH"
    } else {
        method
    }
}

/// Whether the field is there.
pub fn is_given(value: Option<&[u8]>) -> bool
    ensures { result ≡ is_some (option_copied value.entry) }
{
    match value {
        Some(_) => true,
        None => false,
    }
}

/// The range that a field gives (RFC 9110, 14.2). A value that is none counts as absent.
pub fn range_of_field(value: Option<&[u8]>) -> Option<Range>
    ensures { result ≡ range_of_field (option_copied value.entry) }
{
    match value {
        Some(value) => read_range(value),
        None => None,
    }
}

/// The boundary that a content type names (RFC 2046, 5.1.1).
pub fn boundary_of_field(value: Option<&[u8]>) -> Option<&[u8]>
    ensures value { option_copied result ≡ boundary_of_field (option_copied value.entry) }
    ensures fits { IfSome result (λ b. IsBoundary b.now) }
{
    match value {
        Some(value) => boundary(value),
        None => None,
    }
}

/// The text that a field gives. A value that metadata can't hold counts as absent.
pub fn text_of_field(alloc: Global, value: Option<&[u8]>) -> Result<Option<Text>, AllocError>
    ensures { IfOk result (λ made. made ≡ text_of_field (option_copied value.entry)) }
{
    let Some(value) = value else {
        return Ok(None);
    };
    let Ok(text) = str::from_utf8(value) else {
        return Ok(None);
    };
    if !is_field_text(text) {
        return Ok(None);
    }
    Ok(Some(Text::from_str(alloc, text)?))
}

fn is_field_text(text: &str) -> bool
    ensures { result ≡ is_field_text text.now }
{
    let bytes = text.as_bytes();
    if bytes.is_empty() || bytes.len() > 1024 {
        return false;
    }
    are_field_bytes(bytes)
}

fn are_field_bytes(bytes: &[u8]) -> bool
    ensures { result ≡ list_all (λ byte. nat_le 32 byte && not (byte == 127)) bytes.now }
{
    bytes.iter().all(|byte| *byte >= 32 && *byte != 127)
}

/// The host that a field gives (RFC 9110, 7.2), with a port or without. A value that is empty, or has other bytes than
/// letters, digits and `.-:[]`, counts as absent.
pub fn host_of_field(alloc: Global, value: Option<&[u8]>) -> Result<Option<Text>, AllocError>
    ensures { IfOk result (λ made. made ≡ host_of_field (option_copied value.entry)) }
{
    let Some(value) = value else {
        return Ok(None);
    };
    let Ok(text) = str::from_utf8(value) else {
        return Ok(None);
    };
    if !is_host(text.as_bytes()) {
        return Ok(None);
    }
    Ok(Some(Text::from_str(alloc, text)?))
}

fn is_host(value: &[u8]) -> bool
    ensures { result ≡ is_host value.now }
{
    !value.is_empty() && are_host_bytes(value)
}

fn are_host_bytes(value: &[u8]) -> bool
    ensures { result ≡ list_all is_host_byte value.now }
{
    value.iter().all(|byte| is_host_byte(*byte))
}

fn is_host_byte(byte: u8) -> bool
    ensures { result ≡ is_host_byte byte }
{
    byte.is_ascii_alphanumeric() || matches!(byte, b'.' | b'-' | b':' | b'[' | b']')
}
