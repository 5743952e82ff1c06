//! The tests of a call that its head alone decides, beside those of the table of paths.
ghost use Rattle.std.specs.Prelude.{◌≡◌, IfOk};
ghost use Rattle.gcs_listing.specs.Tokens.{unit_of_token, bucket_of_token};
ghost use Rattle.gcs_route.specs.OfCall.{request_kind};
ghost use Rattle.gcs_route.specs.OfTable.{IsOfTable};
ghost use Rattle.gcs_request.specs.HeadTests.{bad_token, head_refusal, is_media, mask_refusal, name_refusal, token_refusal};

use crate::rewriting::refused_token;
use gcs_listing::{TokenFault, read_bucket_token, read_token};
use gcs_meaning::{Key, Reason, Text};
use gcs_route::{Call, MaskPart, RequestKind, UploadKind};
use std::alloc::{AllocError, Global};

/// The first of these tests that fails: a media upload has a name; the token of a
/// page is one, and that of a rewrite is one by which the call can go on; a mask that was kept until the
/// token was tested is one. `Err`: no memory.
pub fn head_refusal(alloc: Global, call: &Call) -> Result<Option<Reason>, AllocError>
    requires { IsOfTable call.now }
    ensures { IfOk result (λ reason. reason ≡ head_refusal call.now) }
{
    let token = token_refusal(alloc, call.kind(), call)?;
    let later = token.or(mask_refusal(&call.mask));
    Ok(name_refusal(call).or(later))
}

fn name_refusal(call: &Call) -> Option<Reason>
    ensures { result ≡ name_refusal call.now }
{
    if is_media(call.upload) && call.name.is_none() {
        Some(Reason::Required { key: Key::Name })
    } else {
        None
    }
}

// Whether an upload is the content alone.
fn is_media(upload: Option<UploadKind>) -> bool
    ensures { result ≡ is_media upload }
{
    matches!(upload, Some(UploadKind::Media))
}

fn token_refusal(
    alloc: Global,
    kind: RequestKind,
    call: &Call,
) -> Result<Option<Reason>, AllocError>
    requires table { IsOfTable call.now }
    requires kind { kind ≡ request_kind call.now }
    ensures { IfOk result (λ reason. reason ≡ token_refusal kind call.now) }
{
    match kind {
        RequestKind::ObjectList => unit_refusal(alloc, &call.page_token),
        RequestKind::BucketList => bucket_refusal(alloc, &call.page_token),
        RequestKind::ObjectRewrite => refused_token(alloc, call),
        _ => Ok(None),
    }
}

const BAD_TOKEN: Reason = Reason::Invalid {
    key: Key::PageToken,
};

// The token of a page of objects, where it is given, names a unit.
fn unit_refusal(alloc: Global, token: &Option<Text>) -> Result<Option<Reason>, AllocError>
    ensures { IfOk result (λ reason. reason ≡ bad_token unit_of_token token.now) }
{
    let Some(token) = token else {
        return Ok(None);
    };
    match read_token(alloc, token.as_bytes()) {
        Ok(unit) => {
            drop(unit);
            Ok(None)
        }
        Err(TokenFault::Bad) => Ok(Some(BAD_TOKEN)),
        Err(TokenFault::NoMemory) => Err(AllocError),
    }
}

// The token of a page of buckets, where it is given, names a bucket.
fn bucket_refusal(alloc: Global, token: &Option<Text>) -> Result<Option<Reason>, AllocError>
    ensures { IfOk result (λ reason. reason ≡ bad_token bucket_of_token token.now) }
{
    let Some(token) = token else {
        return Ok(None);
    };
    match read_bucket_token(alloc, token.as_bytes()) {
        Ok(name) => {
            drop(name);
            Ok(None)
        }
        Err(TokenFault::Bad) => Ok(Some(BAD_TOKEN)),
        Err(TokenFault::NoMemory) => Err(AllocError),
    }
}

fn mask_refusal(mask: &MaskPart) -> Option<Reason>
    ensures { result ≡ mask_refusal mask.now }
{
    match mask {
        MaskPart::Absent | MaskPart::Is(_) => None,
        MaskPart::Fault(place) => Some(Reason::BadMask {
            place: *place as u64,
        }),
    }
}
