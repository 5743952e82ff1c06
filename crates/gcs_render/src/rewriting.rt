//! The answer of a rewrite.
ghost use Rattle.std.specs.Prelude.{◌≡◌, ◌++◌, codes, false, IfOk, OnOk, option_map};
ghost use Rattle.std.specs.Option.{ForSome};
ghost use Rattle.serde_json.specs.View.{view};
ghost use Rattle.serde_json.specs.Written.{compact_text, has_float};
ghost use Rattle.gcs_render.specs.Fields.{held};
ghost use Rattle.gcs_render.specs.Lists.{rewrite_start, rewrite_end, rewrite_data, where_done, version_data};
ghost use Rattle.gcs_render.specs.Shown.{in_text, in_value, show_fields, show_where, with_value};
ghost use Rattle.gcs_render.specs.Writing.{sent};

use crate::fields::Fields;
use crate::object::write_object;
use crate::sink::FieldSink;
use crate::writing::{FieldWriter, PARTS_ROOM};
use gcs_meaning::{BucketName, RewriteReply, Row, Settings};
use serde_json::Value;
use std::alloc::{AllocError, Global};

/// A rewrite's answer. It is done where the reply has no token, and then shows the destination's resource, where there is one.
/// `Err`: no memory.
///
/// Source: Cloud Storage JSON API, "Objects: rewrite".
pub fn rewrite_value(
    alloc: Global,
    reply: &RewriteReply,
    resource: Option<Value>,
) -> Result<Value, AllocError>
    ensures value { IfOk result (λ value. view value ≡ rewrite_data reply.now (option_map view resource)) }
    ensures whole { IfOk result
        (λ value. ForSome resource (λ shown. has_float (view shown) ≡ false) → has_float (view value) ≡ false) }
{
    let mut fields = Fields::new(alloc);
    put_start(&mut fields, reply)?;
    put_resource(&mut fields, reply, resource)?;
    put_end(&mut fields, reply)?;
    Ok(fields.into_value())
}

/// The same answer as compact JSON, behind what `text` holds; the resource is that of a version in this bucket. `Err`: no memory.
pub fn rewrite_text(
    alloc: Global,
    text: Vec<u8>,
    reply: &RewriteReply,
    bucket: &BucketName,
    version: &Option<(Row, Settings)>,
) -> Result<Vec<u8>, AllocError>
    ensures { IfOk result (λ made. made.items
        ≡ text.items ++ compact_text (rewrite_data reply.now (version_data bucket.now version.now))) }
{
    let mut fields = FieldWriter::new(alloc, text);
    let mut room = String::with_capacity(alloc, PARTS_ROOM)?;
    write_rewrite(&mut fields, &mut room, reply, bucket, version)?;
    Ok(fields.into_text())
}

fn write_rewrite(
    fields: &mut FieldWriter,
    room: &mut String,
    reply: &RewriteReply,
    bucket: &BucketName,
    version: &Option<(Row, Settings)>,
) -> Result<(), AllocError>
    ensures { OnOk result
        (sent fields.new ≡ with_value (rewrite_data reply.now (version_data bucket.now version.now)) (sent fields.old)) }
{
    fields.begin_object()?;
    put_start(fields, reply)?;
    write_resource(fields, room, reply, bucket, version)?;
    put_end(fields, reply)?;
    fields.end_object()?;
    Ok(())
}

fn put_start<S: FieldSink>(fields: &mut S, reply: &RewriteReply) -> Result<(), AllocError>
    ensures { OnOk result (S.shown fields.new ≡ show_fields (rewrite_start reply.now) (S.shown fields.old)) }
{
    fields.truth("done", reply.token.is_none())?;
    fields.text("kind", "storage#rewriteResponse")?;
    fields.long("objectSize", reply.size)?;
    Ok(())
}

fn put_end<S: FieldSink>(fields: &mut S, reply: &RewriteReply) -> Result<(), AllocError>
    ensures { OnOk result (S.shown fields.new ≡ show_fields (rewrite_end reply.now) (S.shown fields.old)) }
{
    fields.text_if("rewriteToken", &reply.token)?;
    fields.long("totalBytesRewritten", reply.rewritten)?;
    Ok(())
}

// The resource, where the rewrite is done.
#[tactic(auto, unfolding(crate::specs::Shown::show_where))]
fn put_resource(
    fields: &mut Fields,
    reply: &RewriteReply,
    resource: Option<Value>,
) -> Result<(), AllocError>
    ensures { OnOk result (in_value (held fields.new)
        ≡ show_where (codes "resource") (where_done reply.now.token (option_map view resource)) (in_value (held fields.old))) }
{
    if reply.token.is_some() {
        drop(resource);
        return Ok(());
    }
    fields.put_if("resource", resource)
}

#[tactic(auto, unfolding(crate::specs::Shown::show_where))]
fn write_resource(
    fields: &mut FieldWriter,
    room: &mut String,
    reply: &RewriteReply,
    bucket: &BucketName,
    version: &Option<(Row, Settings)>,
) -> Result<(), AllocError>
    ensures { OnOk result (in_text (sent fields.new)
        ≡ show_where (codes "resource") (where_done reply.now.token (version_data bucket.now version.now)) (in_text (sent fields.old))) }
{
    if reply.token.is_some() {
        return Ok(());
    }
    if let Some((row, settings)) = version {
        fields.key("resource")?;
        write_object(fields, room, bucket, row, settings)?;
    }
    Ok(())
}
