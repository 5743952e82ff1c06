//! The resource of a bucket: what is shown of its names, times and settings.
ghost use Rattle.std.specs.Prelude.{◌≡◌, ◌++◌, false, IfOk, OnOk};
ghost use Rattle.serde_json.specs.View.{view};
ghost use Rattle.serde_json.specs.Written.{compact_text, has_float};
ghost use Rattle.gcs_render.specs.Resources.{bucket_from_hold, bucket_from_lifecycle, bucket_from_soft, bucket_fields, bucket_data};
ghost use Rattle.gcs_render.specs.Shown.{show_fields, with_value};
ghost use Rattle.gcs_render.specs.Writing.{sent};

use crate::bucket_sink::BucketSink;
use crate::fields::Fields;
use crate::parts::put_etag;
use crate::sink::FieldSink;
use crate::writing::{FieldWriter, PARTS_ROOM};
use gcs_meaning::BucketRow;
use serde_json::Value;
use std::alloc::{AllocError, Global};

/// The resource of a bucket. `Err`: no memory.
///
/// A field stands only where it has something to say: docs/PROTOCOL.md, "Resources".
/// Source: Cloud Storage JSON API, "Buckets".
pub fn bucket_value(alloc: Global, row: &BucketRow) -> Result<Value, AllocError>
    ensures value { IfOk result (λ value. view value ≡ bucket_data row.now) }
    ensures whole { IfOk result (λ value. has_float (view value) ≡ false) }
{
    let mut room = String::new(alloc);
    bucket_in(alloc, &mut room, row)
}

/// The same resource as compact JSON, behind what `text` holds. `Err`: no memory.
pub fn bucket_text(alloc: Global, text: Vec<u8>, row: &BucketRow) -> Result<Vec<u8>, AllocError>
    ensures { IfOk result (λ made. made.items ≡ text.items ++ compact_text (bucket_data row.now)) }
{
    let mut fields = FieldWriter::new(alloc, text);
    let mut room = String::with_capacity(alloc, PARTS_ROOM)?;
    write_bucket(&mut fields, &mut room, row)?;
    Ok(fields.into_text())
}

/// The resource of a bucket; `room` is for the texts that are made of parts.
pub(crate) fn bucket_in(
    alloc: Global,
    room: &mut String,
    row: &BucketRow,
) -> Result<Value, AllocError>
    ensures value { IfOk result (λ value. view value ≡ bucket_data row.now) }
    ensures whole { IfOk result (λ value. has_float (view value) ≡ false) }
{
    let mut fields = Fields::new(alloc);
    put_bucket(&mut fields, room, row)?;
    Ok(fields.into_value())
}

pub(crate) fn write_bucket(
    fields: &mut FieldWriter,
    room: &mut String,
    row: &BucketRow,
) -> Result<(), AllocError>
    ensures { OnOk result (sent fields.new ≡ with_value (bucket_data row.now) (sent fields.old)) }
{
    fields.begin_object()?;
    put_bucket(fields, room, row)?;
    fields.end_object()?;
    Ok(())
}

fn put_bucket<S: BucketSink>(
    fields: &mut S,
    room: &mut String,
    row: &BucketRow,
) -> Result<(), AllocError>
    ensures { OnOk result (S.shown fields.new ≡ show_fields (bucket_fields row.now) (S.shown fields.old)) }
{
    put_from_hold(fields, room, row)?;
    put_from_lifecycle(fields, row)?;
    put_from_soft(fields, row)?;
    Ok(())
}

fn put_from_hold<S: FieldSink>(
    fields: &mut S,
    room: &mut String,
    row: &BucketRow,
) -> Result<(), AllocError>
    ensures { OnOk result (S.shown fields.new ≡ show_fields (bucket_from_hold row.now) (S.shown fields.old)) }
{
    fields.where_true("defaultEventBasedHold", row.settings.default_event_hold)?;
    put_etag(fields, room, row.generation, row.metageneration)?;
    fields.long("generation", row.generation)?;
    fields.text("id", row.name.as_str())?;
    fields.text("kind", "storage#bucket")?;
    fields.pairs_if("labels", &row.settings.labels)?;
    Ok(())
}

fn put_from_lifecycle<S: BucketSink>(fields: &mut S, row: &BucketRow) -> Result<(), AllocError>
    ensures { OnOk result (S.shown fields.new ≡ show_fields (bucket_from_lifecycle row.now) (S.shown fields.old)) }
{
    fields.lifecycle_if("lifecycle", &row.settings.lifecycle)?;
    fields.text("location", row.settings.location.as_str())?;
    fields.long("metageneration", row.metageneration)?;
    fields.text("name", row.name.as_str())?;
    fields.retention_if("retentionPolicy", row.settings.retention)?;
    Ok(())
}

fn put_from_soft<S: BucketSink>(fields: &mut S, row: &BucketRow) -> Result<(), AllocError>
    ensures { OnOk result (S.shown fields.new ≡ show_fields (bucket_from_soft row.now) (S.shown fields.old)) }
{
    fields.soft_policy("softDeletePolicy", &row.settings)?;
    fields.text("storageClass", row.settings.storage_class.as_str())?;
    fields.time("timeCreated", row.created)?;
    fields.time("updated", row.updated)?;
    fields.versioning_if("versioning", row.settings.versioned)?;
    Ok(())
}
