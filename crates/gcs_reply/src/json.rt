//! Replies with a JSON body. It is written as a text; a value is made only where a mask leaves a part of it.
ghost use Rattle.std.specs.Prelude.{◌≡◌, ◌++◌, [], IfOk, OnOk, Some, codes, false, option_map, string_bytes};
ghost use Rattle.serde_json.specs.View.{view};
ghost use Rattle.serde_json.specs.Written.{compact_text, has_float};
ghost use Rattle.gcs_chunks.specs.Content.{ChunksValue};
ghost use Rattle.gcs_fields.specs.Select.{selected};
ghost use Rattle.gcs_fields.specs.Views.{mask_of};
ghost use Rattle.gcs_http_out.specs.Head.{IsStatus, head_text};
ghost use Rattle.gcs_meaning.specs.Refusals.{status_of};
ghost use Rattle.gcs_render.specs.Lists.{buckets_data, list_data};
ghost use Rattle.gcs_render.specs.Refusals.{error_data};
ghost use Rattle.gcs_render.specs.Resources.{bucket_data, object_data};
ghost use Rattle.gcs_reply.specs.Replies.{bucket_in, head_and_body, json_lines, line_text, lines_behind, masked, refusal_lines, resource_lines, standing, unmet_size, unmet_text};
ghost use Rattle.gcs_reply.specs.Outgoing.{outgoing_bytes, OutgoingLiesIn};

use crate::form::Form;
use crate::outgoing::Outgoing;
use crate::turned::Turned;
use gcs_fields::{Mask, apply};
use gcs_http_out::{Ending, push_end, push_field, push_status};
use gcs_meaning::{BucketName, BucketRow, List, Page, Reason, Row, Settings, Text};
use gcs_render::{
    bucket_text, bucket_value, buckets_text, buckets_value, error_text, list_text, list_value,
    object_text, object_value,
};
use gcs_rewrite::Request;
use gcs_route::MaskPart;
use serde_json::Value;
use std::alloc::{AllocError, Global};

/// Room for the text of a usual resource with its head.
pub const TEXT_ROOM: usize = 1024;

/// A refusal, with the size where a range can't be met. `Err`: no memory.
pub fn refusal_reply(alloc: Global, form: Form, reason: &Reason) -> Result<Outgoing, AllocError>
    ensures text { IfOk result (λ outgoing. outgoing_bytes outgoing
        ≡ head_and_body form (status_of reason.now) (standing (refusal_lines reason.now)) (compact_text (error_data reason.now))) }
    ensures lies { IfOk result (λ outgoing. (chunks : ChunksValue) → OutgoingLiesIn chunks outgoing) }
{
    let body = error_text(alloc, Vec::with_capacity(alloc, TEXT_ROOM)?, reason)?;
    json_reply(form, reason.status(), unmet_size_of(reason), body)
}

/// The resource of a version, in the bucket that the request names. `Err`: no memory.
pub fn resource_reply(
    alloc: Global,
    form: Form,
    request: &Request,
    row: &Row,
    settings: &Settings,
) -> Result<Outgoing, AllocError>
    ensures text { IfOk result (λ outgoing. outgoing_bytes outgoing
        ≡ head_and_body form 200 (standing resource_lines) (compact_text (masked request.now (object_data (bucket_in request.now) row.now settings.now)))) }
    ensures lies { IfOk result (λ outgoing. (chunks : ChunksValue) → OutgoingLiesIn chunks outgoing) }
{
    let body = resource_body(alloc, request, row, settings)?;
    json_reply(form, 200, None, body)
}

/// The resource of a bucket. `Err`: no memory.
pub fn bucket_reply(
    alloc: Global,
    form: Form,
    request: &Request,
    row: &BucketRow,
) -> Result<Outgoing, AllocError>
    ensures text { IfOk result (λ outgoing. outgoing_bytes outgoing
        ≡ head_and_body form 200 (standing resource_lines) (compact_text (masked request.now (bucket_data row.now)))) }
    ensures lies { IfOk result (λ outgoing. (chunks : ChunksValue) → OutgoingLiesIn chunks outgoing) }
{
    let body = bucket_body(alloc, request, row)?;
    json_reply(form, 200, None, body)
}

/// A page of buckets. `Err`: no memory.
pub fn buckets_reply(
    alloc: Global,
    form: Form,
    request: &Request,
    rows: &List<BucketRow>,
    token: &Option<Text>,
) -> Result<Outgoing, AllocError>
    ensures text { IfOk result (λ outgoing. outgoing_bytes outgoing
        ≡ head_and_body form 200 (standing resource_lines) (compact_text (masked request.now (buckets_data rows.now token.now)))) }
    ensures lies { IfOk result (λ outgoing. (chunks : ChunksValue) → OutgoingLiesIn chunks outgoing) }
{
    let body = buckets_body(alloc, request, rows, token)?;
    json_reply(form, 200, None, body)
}

/// A page of objects, in the bucket that the request names. `Err`: no memory.
pub fn page_reply(
    alloc: Global,
    form: Form,
    request: &Request,
    page: &Page,
) -> Result<Outgoing, AllocError>
    ensures text { IfOk result (λ outgoing. outgoing_bytes outgoing
        ≡ head_and_body form 200 (standing resource_lines) (compact_text (masked request.now (list_data (bucket_in request.now) page.now)))) }
    ensures lies { IfOk result (λ outgoing. (chunks : ChunksValue) → OutgoingLiesIn chunks outgoing) }
{
    let body = page_body(alloc, request, page)?;
    json_reply(form, 200, None, body)
}

fn resource_body(
    alloc: Global,
    request: &Request,
    row: &Row,
    settings: &Settings,
) -> Result<Vec<u8>, AllocError>
    ensures { IfOk result (λ body. body.items ≡ compact_text (masked request.now (object_data (bucket_in request.now) row.now settings.now))) }
{
    let nowhere = BucketName::new(Text::new(alloc));
    let bucket = bucket_named(request, &nowhere);
    match &request.call.mask {
        MaskPart::Is(mask) => {
            let value = object_value(alloc, bucket, row, settings)?;
            masked_text(alloc, mask, value)
        }
        MaskPart::Absent | MaskPart::Fault(_) => {
            let text = Vec::with_capacity(alloc, TEXT_ROOM)?;
            object_text(alloc, text, bucket, row, settings)
        }
    }
}

fn bucket_body(alloc: Global, request: &Request, row: &BucketRow) -> Result<Vec<u8>, AllocError>
    ensures { IfOk result (λ body. body.items ≡ compact_text (masked request.now (bucket_data row.now))) }
{
    match &request.call.mask {
        MaskPart::Is(mask) => masked_text(alloc, mask, bucket_value(alloc, row)?),
        MaskPart::Absent | MaskPart::Fault(_) => {
            bucket_text(alloc, Vec::with_capacity(alloc, TEXT_ROOM)?, row)
        }
    }
}

fn buckets_body(
    alloc: Global,
    request: &Request,
    rows: &List<BucketRow>,
    token: &Option<Text>,
) -> Result<Vec<u8>, AllocError>
    ensures { IfOk result (λ body. body.items ≡ compact_text (masked request.now (buckets_data rows.now token.now))) }
{
    match &request.call.mask {
        MaskPart::Is(mask) => {
            let value = buckets_value(alloc, rows, token.as_ref())?;
            masked_text(alloc, mask, value)
        }
        MaskPart::Absent | MaskPart::Fault(_) => {
            let text = Vec::with_capacity(alloc, TEXT_ROOM)?;
            buckets_text(alloc, text, rows, token.as_ref())
        }
    }
}

fn page_body(alloc: Global, request: &Request, page: &Page) -> Result<Vec<u8>, AllocError>
    ensures { IfOk result (λ body. body.items ≡ compact_text (masked request.now (list_data (bucket_in request.now) page.now))) }
{
    let nowhere = BucketName::new(Text::new(alloc));
    let bucket = bucket_named(request, &nowhere);
    match &request.call.mask {
        MaskPart::Is(mask) => masked_text(alloc, mask, list_value(alloc, bucket, page)?),
        MaskPart::Absent | MaskPart::Fault(_) => {
            list_text(alloc, Vec::with_capacity(alloc, TEXT_ROOM)?, bucket, page)
        }
    }
}

/// The bucket that a request names last; one that names none has this one.
pub fn bucket_named<'a>(request: &'a Request, nowhere: &'a BucketName) -> &'a BucketName
    requires { nowhere.now ≡ [] }
    ensures { result.now ≡ bucket_in request.now }
{
    let buckets = &request.call.buckets;
    match buckets.get(buckets.len().saturating_sub(1)) {
        Some(bucket) => bucket,
        None => nowhere,
    }
}

/// The text of what a mask leaves of a value.
pub fn masked_text(alloc: Global, mask: &Mask, value: Value) -> Result<Vec<u8>, AllocError>
    requires { has_float (view value) ≡ false }
    ensures { IfOk result (λ text. text.items ≡ compact_text (selected (mask_of mask.now) (view value))) }
{
    let part = apply(alloc, mask, value)?;
    part.to_vec(alloc)
}

/// The head of the reply with this body, and the body unless the head alone is asked for.
pub fn json_reply(
    form: Form,
    status: u16,
    unmet: Option<u64>,
    body: Vec<u8>,
) -> Result<Outgoing, AllocError>
    requires { IsStatus status }
    ensures text { IfOk result (λ outgoing. outgoing_bytes outgoing ≡ head_and_body form status (standing (json_lines unmet)) body.items) }
    ensures lies { IfOk result (λ outgoing. (chunks : ChunksValue) → OutgoingLiesIn chunks outgoing) }
{
    let size = body.len();
    let mut text = body;
    if form.head_only {
        text.clear();
        push_json_head(&mut text, status, unmet, size as u64, form.ending)?;
        return Ok(Outgoing::Text(text));
    }
    push_json_head(&mut text, status, unmet, size as u64, form.ending)?;
    Ok(Outgoing::Turned(Turned::new(text, size)))
}

// Writes a head behind what `text` holds.
fn push_json_head(
    text: &mut Vec<u8>,
    status: u16,
    unmet: Option<u64>,
    size: u64,
    ending: Ending,
) -> Result<(), AllocError>
    requires { IsStatus status }
    ensures { OnOk result (text.new.items ≡ text.old.items ++ head_text status (standing (json_lines unmet)) (Some size) ending) }
{
    push_status(text, status)?;
    push_json_lines(text, unmet)?;
    push_end(text, Some(size), ending)?;
    Ok(())
}

fn push_json_lines(head: &mut Vec<u8>, unmet: Option<u64>) -> Result<(), AllocError>
    ensures { OnOk result (head.new.items ≡ lines_behind (json_lines unmet) head.old.items) }
{
    push_field(head, "Content-Type", "application/json; charset=UTF-8")?;
    push_unmet(head, unmet)?;
    Ok(())
}

fn push_unmet(head: &mut Vec<u8>, unmet: Option<u64>) -> Result<(), AllocError>
    ensures { OnOk result (head.new.items ≡ head.old.items ++ line_text (codes "Content-Range") (option_map unmet_text unmet)) }
{
    if let Some(size) = unmet {
        let text = unmet_text(*head.allocator(), size)?;
        push_field(head, "Content-Range", text.as_str())?;
    }
    Ok(())
}

fn unmet_text(alloc: Global, size: u64) -> Result<String, AllocError>
    ensures { IfOk result (λ text. string_bytes text ≡ unmet_text size) }
{
    Ok(format!(in alloc; "bytes */{size}")?)
}

fn unmet_size_of(reason: &Reason) -> Option<u64>
    ensures { result ≡ unmet_size reason.now }
{
    match reason {
        Reason::Unsatisfiable { size } => Some(*size),
        _ => None,
    }
}
