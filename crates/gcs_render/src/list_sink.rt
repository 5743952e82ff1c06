//! What takes the fields of a page: beside plain ones, lists of resources and of texts.
ghost use Rattle.std.specs.Prelude.{◌≡◌, OnOk, IfOk, map};
ghost use Rattle.serde_json.specs.Data.{string};
ghost use Rattle.serde_json.specs.View.{view};
ghost use Rattle.gcs_render.specs.Fields.{array_if};
ghost use Rattle.gcs_render.specs.Lists.{object_list, bucket_list};
ghost use Rattle.gcs_render.specs.Shown.{send_values, show_where};
ghost use Rattle.gcs_render.specs.Writing.{sent};

use crate::bucket::{bucket_in, write_bucket};
use crate::fields::Fields;
use crate::object::{object_in, write_object};
use crate::sink::FieldSink;
use crate::writing::FieldWriter;
use gcs_meaning::{BucketName, BucketRow, Row, Settings, Text};
use serde_json::Value;
use std::alloc::{AllocError, Global};

/// A value or a text that the fields of a page are added to. A list that is empty is no field; `room` is for the texts that
/// are made of parts.
pub(crate) trait ListSink: FieldSink {
    fn objects_if(
        &mut self,
        key: &str,
        room: &mut String,
        bucket: &BucketName,
        rows: &[Row],
        settings: &Settings,
    ) -> Result<(), AllocError>
        ensures { OnOk result (Self.shown self.new
            ≡ show_where key.now (array_if (object_list bucket.now rows.now settings.now)) (Self.shown self.old)) };

    fn buckets_if(
        &mut self,
        key: &str,
        room: &mut String,
        rows: &[BucketRow],
    ) -> Result<(), AllocError>
        ensures { OnOk result (Self.shown self.new ≡ show_where key.now (array_if (bucket_list rows.now)) (Self.shown self.old)) };

    fn texts_if(&mut self, key: &str, texts: &[Text]) -> Result<(), AllocError>
        ensures { OnOk result (Self.shown self.new ≡ show_where key.now (array_if (map string texts.now)) (Self.shown self.old)) };
}

impl ListSink for Fields {
    fn objects_if(
        &mut self,
        key: &str,
        room: &mut String,
        bucket: &BucketName,
        rows: &[Row],
        settings: &Settings,
    ) -> Result<(), AllocError> {
        let values = objects(self.alloc(), room, bucket, rows, settings)?;
        self.array_if(key, values)
    }

    fn buckets_if(
        &mut self,
        key: &str,
        room: &mut String,
        rows: &[BucketRow],
    ) -> Result<(), AllocError> {
        let values = buckets(self.alloc(), room, rows)?;
        self.array_if(key, values)
    }

    fn texts_if(&mut self, key: &str, texts: &[Text]) -> Result<(), AllocError> {
        let values = strings(self.alloc(), texts)?;
        self.array_if(key, values)
    }
}

#[tactic(auto, unfolding(crate::specs::Shown::show_where))]
impl ListSink for FieldWriter {
    fn objects_if(
        &mut self,
        key: &str,
        room: &mut String,
        bucket: &BucketName,
        rows: &[Row],
        settings: &Settings,
    ) -> Result<(), AllocError> {
        if rows.is_empty() {
            return Ok(());
        }
        self.begin_list(key)?;
        write_objects(self, room, bucket, rows, settings)?;
        self.end_list()?;
        Ok(())
    }

    fn buckets_if(
        &mut self,
        key: &str,
        room: &mut String,
        rows: &[BucketRow],
    ) -> Result<(), AllocError> {
        if rows.is_empty() {
            return Ok(());
        }
        self.begin_list(key)?;
        write_buckets(self, room, rows)?;
        self.end_list()?;
        Ok(())
    }

    fn texts_if(&mut self, key: &str, texts: &[Text]) -> Result<(), AllocError> {
        if texts.is_empty() {
            return Ok(());
        }
        self.begin_list(key)?;
        write_strings(self, texts)?;
        self.end_list()?;
        Ok(())
    }
}

fn objects(
    alloc: Global,
    room: &mut String,
    bucket: &BucketName,
    rows: &[Row],
    settings: &Settings,
) -> Result<Vec<Value>, AllocError>
    ensures { IfOk result (λ values. map view values.items ≡ object_list bucket.now rows.now settings.now) }
{
    let mut values = Vec::new(alloc);
    for row in rows {
        values.push(object_in(alloc, room, bucket, row, settings)?)?;
    }
    Ok(values)
}

fn buckets(alloc: Global, room: &mut String, rows: &[BucketRow]) -> Result<Vec<Value>, AllocError>
    ensures { IfOk result (λ values. map view values.items ≡ bucket_list rows.now) }
{
    let mut values = Vec::new(alloc);
    for row in rows {
        values.push(bucket_in(alloc, room, row)?)?;
    }
    Ok(values)
}

fn strings(alloc: Global, texts: &[Text]) -> Result<Vec<Value>, AllocError>
    ensures { IfOk result (λ values. map view values.items ≡ map string texts.now) }
{
    let mut values = Vec::new(alloc);
    for text in texts {
        values.push(Value::try_from_str(alloc, text.as_str())?)?;
    }
    Ok(values)
}

fn write_objects(
    fields: &mut FieldWriter,
    room: &mut String,
    bucket: &BucketName,
    rows: &[Row],
    settings: &Settings,
) -> Result<(), AllocError>
    ensures { OnOk result (sent fields.new ≡ send_values (object_list bucket.now rows.now settings.now) (sent fields.old)) }
{
    for row in rows {
        write_object(fields, room, bucket, row, settings)?;
    }
    Ok(())
}

fn write_buckets(
    fields: &mut FieldWriter,
    room: &mut String,
    rows: &[BucketRow],
) -> Result<(), AllocError>
    ensures { OnOk result (sent fields.new ≡ send_values (bucket_list rows.now) (sent fields.old)) }
{
    for row in rows {
        write_bucket(fields, room, row)?;
    }
    Ok(())
}

fn write_strings(fields: &mut FieldWriter, texts: &[Text]) -> Result<(), AllocError>
    ensures { OnOk result (sent fields.new ≡ send_values (map string texts.now) (sent fields.old)) }
{
    for text in texts {
        fields.item(text.as_str())?;
    }
    Ok(())
}
