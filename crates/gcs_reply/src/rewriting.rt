//! Replies that tell how far a rewrite has come.
ghost use Rattle.std.specs.Prelude.{◌≡◌, IfOk, option_map, false};
ghost use Rattle.std.specs.Option.{ForSome};
ghost use Rattle.serde_json.specs.View.{view};
ghost use Rattle.serde_json.specs.Written.{compact_text, has_float};
ghost use Rattle.gcs_chunks.specs.Content.{ChunksValue};
ghost use Rattle.gcs_render.specs.Lists.{rewrite_data, version_data};
ghost use Rattle.gcs_reply.specs.Replies.{bucket_in, head_and_body, masked, resource_lines, standing};
ghost use Rattle.gcs_reply.specs.Outgoing.{outgoing_bytes, OutgoingLiesIn};

use crate::form::Form;
use crate::json::{TEXT_ROOM, bucket_named, json_reply, masked_text};
use crate::outgoing::Outgoing;
use gcs_meaning::{BucketName, RewriteReply, Row, Settings, Text};
use gcs_render::{object_value, rewrite_text, rewrite_value};
use gcs_rewrite::Request;
use gcs_route::MaskPart;
use serde_json::Value;
use std::alloc::{AllocError, Global};

/// How far a rewrite has come, and once it is done the resource of the version at its destination. `Err`: no memory.
pub fn rewrite_reply(
    alloc: Global,
    form: Form,
    request: &Request,
    reply: &RewriteReply,
    object: &Option<(Row, Settings)>,
) -> Result<Outgoing, AllocError>
    ensures text { IfOk result (λ outgoing. outgoing_bytes outgoing
        ≡ head_and_body form 200 (standing resource_lines) (compact_text (masked request.now (rewrite_data reply.now (version_data (bucket_in request.now) object.now))))) }
    ensures lies { IfOk result (λ outgoing. (chunks : ChunksValue) → OutgoingLiesIn chunks outgoing) }
{
    let body = rewrite_body(alloc, request, reply, object)?;
    json_reply(form, 200, None, body)
}

fn rewrite_body(
    alloc: Global,
    request: &Request,
    reply: &RewriteReply,
    object: &Option<(Row, Settings)>,
) -> Result<Vec<u8>, AllocError>
    ensures { IfOk result (λ body. body.items
        ≡ compact_text (masked request.now (rewrite_data reply.now (version_data (bucket_in request.now) object.now)))) }
{
    let nowhere = BucketName::new(Text::new(alloc));
    let bucket = bucket_named(request, &nowhere);
    match &request.call.mask {
        MaskPart::Is(mask) => {
            let resource = resource_of(alloc, bucket, object)?;
            let value = rewrite_value(alloc, reply, resource)?;
            masked_text(alloc, mask, value)
        }
        MaskPart::Absent | MaskPart::Fault(_) => {
            let text = Vec::with_capacity(alloc, TEXT_ROOM)?;
            rewrite_text(alloc, text, reply, bucket, object)
        }
    }
}

// The resource of a version in that bucket, where there is one.
fn resource_of(
    alloc: Global,
    bucket: &BucketName,
    object: &Option<(Row, Settings)>,
) -> Result<Option<Value>, AllocError>
    ensures value { IfOk result (λ resource. option_map view resource ≡ version_data bucket.now object.now) }
    ensures whole { IfOk result (λ resource. ForSome resource (λ shown. has_float (view shown) ≡ false)) }
{
    match object {
        Some((row, settings)) => Ok(Some(object_value(alloc, bucket, row, settings)?)),
        None => Ok(None),
    }
}
