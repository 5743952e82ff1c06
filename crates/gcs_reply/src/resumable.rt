//! Replies of resumable uploads. They have no body.
ghost use Rattle.std.specs.Prelude.{◌≡◌, [], IfOk, OnOk, string_bytes};
ghost use Rattle.std.specs.Option.{option_copied};
ghost use Rattle.gcs_chunks.specs.Content.{ChunksValue};
ghost use Rattle.gcs_reply.specs.Outgoing.{outgoing_bytes, OutgoingLiesIn};
ghost use Rattle.gcs_reply.specs.Replies.{bucket_in, head_and_body, host_of, kept_lines, lines_behind, location_text, standing, started_lines, upload_path};

use crate::form::Form;
use crate::json::bucket_named;
use crate::outgoing::Outgoing;
use gcs_http_out::{push_end, push_field, push_status};
use gcs_meaning::{BucketName, Text};
use gcs_rewrite::{Given, Request};
use std::alloc::{AllocError, Global};

// Room for such a head.
const HEAD_ROOM: usize = 256;

/// An upload of this number has begun in the bucket that the request names: where its pieces are sent. `Err`: no memory.
///
/// Source: Cloud Storage, "Resumable uploads"; RFC 9110, 10.2.2.
pub fn started_reply(
    alloc: Global,
    form: Form,
    request: &Request,
    upload: u64,
) -> Result<Outgoing, AllocError>
    ensures text { IfOk result (λ outgoing. outgoing_bytes outgoing ≡ head_and_body form 200 (standing (started_lines request.now upload)) []) }
    ensures lies { IfOk result (λ outgoing. (chunks : ChunksValue) → OutgoingLiesIn chunks outgoing) }
{
    let mut head = Vec::with_capacity(alloc, HEAD_ROOM)?;
    push_status(&mut head, 200)?;
    push_location(alloc, &mut head, request, upload)?;
    push_end(&mut head, Some(0), form.ending)?;
    Ok(Outgoing::Text(head))
}

/// So many bytes of an upload are kept, and more are to come. `Err`: no memory.
///
/// Source: Cloud Storage, "Resumable uploads".
pub fn kept_reply(alloc: Global, form: Form, count: u64) -> Result<Outgoing, AllocError>
    ensures text { IfOk result (λ outgoing. outgoing_bytes outgoing ≡ head_and_body form 308 (standing (kept_lines count)) []) }
    ensures lies { IfOk result (λ outgoing. (chunks : ChunksValue) → OutgoingLiesIn chunks outgoing) }
{
    let mut head = Vec::with_capacity(alloc, HEAD_ROOM)?;
    push_status(&mut head, 308)?;
    push_kept(alloc, &mut head, count)?;
    push_end(&mut head, Some(0), form.ending)?;
    Ok(Outgoing::Text(head))
}

/// An upload is cancelled. `Err`: no memory.
///
/// Source: Cloud Storage, "Resumable uploads".
pub fn cancelled_reply(alloc: Global, form: Form) -> Result<Outgoing, AllocError>
    ensures text { IfOk result (λ outgoing. outgoing_bytes outgoing ≡ head_and_body form 499 [] []) }
    ensures lies { IfOk result (λ outgoing. (chunks : ChunksValue) → OutgoingLiesIn chunks outgoing) }
{
    let mut head = Vec::with_capacity(alloc, HEAD_ROOM)?;
    push_status(&mut head, 499)?;
    push_end(&mut head, Some(0), form.ending)?;
    Ok(Outgoing::Text(head))
}

fn push_location(
    alloc: Global,
    head: &mut Vec<u8>,
    request: &Request,
    upload: u64,
) -> Result<(), AllocError>
    ensures { OnOk result (head.new.items ≡ lines_behind (started_lines request.now upload) head.old.items) }
{
    let location = location_text(alloc, request, upload)?;
    push_field(head, "Location", location.as_str())
}

// Where the pieces of an upload are sent: at the host that its request names, else by the path and the query alone.
fn location_text(alloc: Global, request: &Request, upload: u64) -> Result<String, AllocError>
    ensures { IfOk result (λ text. string_bytes text ≡ location_text (host_of request.now) (bucket_in request.now) upload) }
{
    let nowhere = BucketName::new(Text::new(alloc));
    let path = upload_path(alloc, bucket_named(request, &nowhere), upload)?;
    match host_of(request) {
        Some(host) => Ok(format!(in alloc; "http://{}{path}", host.as_str())?),
        None => Ok(path),
    }
}

fn upload_path(alloc: Global, bucket: &BucketName, upload: u64) -> Result<String, AllocError>
    ensures { IfOk result (λ text. string_bytes text ≡ upload_path bucket.now upload) }
{
    let bucket = bucket.as_str();
    Ok(format!(in alloc;
        "/upload/storage/v1/b/{bucket}/o?uploadType=resumable&upload_id={upload}"
    )?)
}

fn host_of(request: &Request) -> Option<&Text>
    ensures { option_copied result ≡ host_of request.now }
{
    match &request.given {
        Given::Begin { host, .. } => host.as_ref(),
        _ => None,
    }
}

fn push_kept(alloc: Global, head: &mut Vec<u8>, count: u64) -> Result<(), AllocError>
    ensures { OnOk result (head.new.items ≡ lines_behind (kept_lines count) head.old.items) }
{
    if let Some(last) = count.checked_sub(1) {
        let range = format!(in alloc; "bytes=0-{last}")?;
        push_field(head, "Range", range.as_str())?;
    }
    Ok(())
}
