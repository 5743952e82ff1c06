//! The begin of a resumable upload: what its head gives.
ghost use Rattle.std.specs.Prelude.{◌≡◌, IfOk, IfErr, Ok, Err};
ghost use Rattle.std.specs.Option.{option_copied};
ghost use Rattle.gcs_http_in.specs.Head.{Head};
ghost use Rattle.gcs_request.specs.Begins.{begin_by, begin_part, sized, total_of_field};
ghost use Rattle.gcs_request.specs.Heading.{IsSeekable};
ghost use Rattle.gcs_request.specs.Heads.{IsReadOf};
ghost use Rattle.gcs_meaning.specs.Tests.{size_refusal};

use crate::heading::HeadPart;
use crate::heads::{HeadFields, host_of_field, is_given, text_of_field};
use crate::json_bodies::GivenFault;
use gcs_decimal::{MOST_DIGITS, read_decimal};
use gcs_meaning::{Key, LARGEST_OBJECT, Reason};
use std::alloc::{AllocError, Global};

/// What the head of the begin of a resumable upload gives: the content type and the length of the whole content, and the
/// host that the message is sent to. It is refused for the length alone.
///
/// Source: Cloud Storage, "Resumable uploads".
pub fn begin_part(alloc: Global, fields: &HeadFields<'_>) -> Result<HeadPart, GivenFault>
    ensures part { IfOk result (λ part. (head : Head) → IsReadOf head fields.now → begin_part head ≡ Ok part) }
    ensures refused { IfErr result (λ fault. (reason : Reason) → fault ≡ GivenFault.Refused reason
        → (head : Head) → IsReadOf head fields.now → begin_part head ≡ Err reason) }
    ensures seekable { IfOk result (λ part. IsSeekable part) }
{
    match total_of_field(fields.upload_length) {
        Ok(total) => match with_total(alloc, total, fields) {
            Ok(part) => Ok(part),
            Err(_) => Err(GivenFault::NoMemory),
        },
        Err(reason) => Err(GivenFault::Refused(reason)),
    }
}

fn with_total(
    alloc: Global,
    total: Option<u64>,
    fields: &HeadFields<'_>,
) -> Result<HeadPart, AllocError>
    ensures part { IfOk result (λ part. (head : Head) → IsReadOf head fields.now → begin_by head (Ok total) ≡ Ok part) }
    ensures seekable { IfOk result (λ part. IsSeekable part) }
{
    Ok(HeadPart::Begin {
        kind: text_of_field(alloc, fields.upload_type)?,
        total,
        host: host_of_field(alloc, fields.host)?,
        encoded: is_given(fields.content_encoding),
    })
}

const BAD_LENGTH: Reason = Reason::Invalid {
    key: Key::XUploadContentLength,
};

// The length that a field gives: a number of 1 to 19 digits, at most 2^63 - 1, the greatest `int64` of Google's JSON API,
// and not larger than an object may be.
fn total_of_field(value: Option<&[u8]>) -> Result<Option<u64>, Reason>
    ensures { result ≡ total_of_field (option_copied value.entry) }
{
    let Some(value) = value else {
        return Ok(None);
    };
    match read_decimal(value, MOST_DIGITS) {
        Some(total) if total <= i64::MAX as u64 => sized(total),
        _ => Err(BAD_LENGTH),
    }
}

fn sized(total: u64) -> Result<Option<u64>, Reason>
    ensures { result ≡ sized total (size_refusal total) }
{
    if total <= LARGEST_OBJECT {
        Ok(Some(total))
    } else {
        Err(Reason::TooLarge { size: total })
    }
}
