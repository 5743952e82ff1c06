//! The resource of an object: what is shown of one version.
ghost use Rattle.std.specs.Prelude.{◌≡◌, ◌++◌, ◌^◌, ◌-◌, false, min, unwrap_or, IfOk, OnOk};
ghost use Rattle.serde_json.specs.View.{view};
ghost use Rattle.serde_json.specs.Written.{compact_text, has_float};
ghost use Rattle.gcs_meaning.specs.Policy.{retained_until};
ghost use Rattle.gcs_render.specs.Resources.{noncurrent_since, soft_since, hard_time, retention_end, object_from_bucket, object_from_crc, object_from_kind, object_from_soft, object_fields, object_data};
ghost use Rattle.gcs_render.specs.Shown.{show_fields, with_value};
ghost use Rattle.gcs_render.specs.Writing.{sent};

use crate::fields::Fields;
use crate::parts::{put_crc, put_etag, put_id, put_md5};
use crate::sink::FieldSink;
use crate::writing::{FieldWriter, PARTS_ROOM};
use gcs_meaning::{BucketName, Kind, MICROSECONDS_PER_SECOND, Row, Settings};
use serde_json::Value;
use std::alloc::{AllocError, Global};

/// The resource of a version in this bucket, with the bucket's settings. `Err`: no memory.
///
/// A field stands only where it has something to say: docs/PROTOCOL.md, "Resources".
/// Source: Cloud Storage JSON API, "Objects".
pub fn object_value(
    alloc: Global,
    bucket: &BucketName,
    row: &Row,
    settings: &Settings,
) -> Result<Value, AllocError>
    ensures value { IfOk result (λ value. view value ≡ object_data bucket.now row.now settings.now) }
    ensures whole { IfOk result (λ value. has_float (view value) ≡ false) }
{
    let mut room = String::new(alloc);
    object_in(alloc, &mut room, bucket, row, settings)
}

/// The same resource as compact JSON, behind what `text` holds. `Err`: no memory.
pub fn object_text(
    alloc: Global,
    text: Vec<u8>,
    bucket: &BucketName,
    row: &Row,
    settings: &Settings,
) -> Result<Vec<u8>, AllocError>
    ensures { IfOk result (λ made. made.items ≡ text.items ++ compact_text (object_data bucket.now row.now settings.now)) }
{
    let mut fields = FieldWriter::new(alloc, text);
    let mut room = String::with_capacity(alloc, PARTS_ROOM)?;
    write_object(&mut fields, &mut room, bucket, row, settings)?;
    Ok(fields.into_text())
}

/// The resource of a version; `room` is for the texts that are made of parts.
pub(crate) fn object_in(
    alloc: Global,
    room: &mut String,
    bucket: &BucketName,
    row: &Row,
    settings: &Settings,
) -> Result<Value, AllocError>
    ensures value { IfOk result (λ value. view value ≡ object_data bucket.now row.now settings.now) }
    ensures whole { IfOk result (λ value. has_float (view value) ≡ false) }
{
    let mut fields = Fields::new(alloc);
    put_object(&mut fields, room, bucket, row, settings)?;
    Ok(fields.into_value())
}

/// The same resource, in a text that is being written.
pub(crate) fn write_object(
    fields: &mut FieldWriter,
    room: &mut String,
    bucket: &BucketName,
    row: &Row,
    settings: &Settings,
) -> Result<(), AllocError>
    ensures { OnOk result (sent fields.new ≡ with_value (object_data bucket.now row.now settings.now) (sent fields.old)) }
{
    fields.begin_object()?;
    put_object(fields, room, bucket, row, settings)?;
    fields.end_object()?;
    Ok(())
}

fn put_object<S: FieldSink>(
    fields: &mut S,
    room: &mut String,
    bucket: &BucketName,
    row: &Row,
    settings: &Settings,
) -> Result<(), AllocError>
    ensures { OnOk result (S.shown fields.new ≡ show_fields (object_fields bucket.now row.now settings.now) (S.shown fields.old)) }
{
    put_from_bucket(fields, bucket, row)?;
    put_from_crc(fields, room, bucket, row)?;
    put_from_kind(fields, room, row, settings)?;
    put_from_soft(fields, row, settings)?;
    Ok(())
}

fn put_from_bucket<S: FieldSink>(
    fields: &mut S,
    bucket: &BucketName,
    row: &Row,
) -> Result<(), AllocError>
    ensures { OnOk result (S.shown fields.new ≡ show_fields (object_from_bucket bucket.now row.now) (S.shown fields.old)) }
{
    fields.text("bucket", bucket.as_str())?;
    fields.text_if("cacheControl", &row.meta.cache_control)?;
    fields.count_if("componentCount", row.components)?;
    fields.text_if("contentDisposition", &row.meta.content_disposition)?;
    fields.text_if("contentEncoding", &row.meta.content_encoding)?;
    fields.text_if("contentLanguage", &row.meta.content_language)?;
    fields.text("contentType", row.meta.content_type.as_str())?;
    Ok(())
}

fn put_from_crc<S: FieldSink>(
    fields: &mut S,
    room: &mut String,
    bucket: &BucketName,
    row: &Row,
) -> Result<(), AllocError>
    ensures { OnOk result (S.shown fields.new ≡ show_fields (object_from_crc bucket.now row.now) (S.shown fields.old)) }
{
    put_crc(fields, room, row.hashed.crc())?;
    fields.time_if("customTime", row.meta.custom_time)?;
    put_etag(fields, room, row.generation, row.metageneration)?;
    fields.where_true("eventBasedHold", row.meta.event_hold.unwrap_or(false))?;
    fields.long("generation", row.generation)?;
    fields.time_if("hardDeleteTime", hard_time_of(row.kind))?;
    put_id(fields, room, bucket, row)?;
    Ok(())
}

fn put_from_kind<S: FieldSink>(
    fields: &mut S,
    room: &mut String,
    row: &Row,
    settings: &Settings,
) -> Result<(), AllocError>
    ensures { OnOk result (S.shown fields.new ≡ show_fields (object_from_kind row.now settings.now) (S.shown fields.old)) }
{
    fields.text("kind", "storage#object")?;
    put_md5(fields, room, &row.hashed)?;
    fields.pairs_if("metadata", &row.meta.custom)?;
    fields.long("metageneration", row.metageneration)?;
    fields.text("name", row.name.as_str())?;
    fields.time_if("retentionExpirationTime", retention_end_of(row, settings))?;
    fields.long("size", row.hashed.content().len())?;
    Ok(())
}

fn put_from_soft<S: FieldSink>(
    fields: &mut S,
    row: &Row,
    settings: &Settings,
) -> Result<(), AllocError>
    ensures { OnOk result (S.shown fields.new ≡ show_fields (object_from_soft row.now settings.now) (S.shown fields.old)) }
{
    fields.time_if("softDeleteTime", soft_since_of(row.kind))?;
    fields.text("storageClass", storage_class_of(row, settings))?;
    fields.where_true("temporaryHold", row.meta.temporary_hold)?;
    fields.time("timeCreated", row.created)?;
    fields.time_if("timeDeleted", noncurrent_since_of(row.kind))?;
    fields.time("updated", row.updated)?;
    Ok(())
}

fn storage_class_of<'a>(row: &'a Row, settings: &'a Settings) -> &'a str
    ensures { result.now ≡ unwrap_or row.now.meta.storage_class settings.now.storage_class }
{
    match &row.meta.storage_class {
        Some(class) => class.as_str(),
        None => settings.storage_class.as_str(),
    }
}

fn noncurrent_since_of(kind: Kind) -> Option<u64>
    ensures { result ≡ noncurrent_since kind }
{
    match kind {
        Kind::Live | Kind::Soft { .. } => None,
        Kind::Noncurrent { at } => Some(at),
    }
}

fn soft_since_of(kind: Kind) -> Option<u64>
    ensures { result ≡ soft_since kind }
{
    match kind {
        Kind::Live | Kind::Noncurrent { .. } => None,
        Kind::Soft { at, .. } => Some(at),
    }
}

fn hard_time_of(kind: Kind) -> Option<u64>
    ensures { result ≡ hard_time kind }
{
    match kind {
        Kind::Live | Kind::Noncurrent { .. } => None,
        Kind::Soft { hard, .. } => Some(hard),
    }
}

fn retention_end_of(row: &Row, settings: &Settings) -> Option<u64>
    ensures { result ≡ retention_end row.now settings.now }
{
    if row.meta.event_hold.unwrap_or(false) {
        return None;
    }
    if let Kind::Soft { .. } = row.kind {
        return None;
    }
    let policy = settings.retention?;
    Some(capped_end(row.retention_start, policy.period))
}

// No end is above the greatest number of 64 bits.
fn capped_end(start: u64, period: u64) -> u64
    ensures { result ≡ min (retained_until start period) (2 ^ 64 - 1) }
{
    start.saturating_add(period.saturating_mul(MICROSECONDS_PER_SECOND))
}
