//! Pages of objects and of buckets.
ghost use Rattle.std.specs.Prelude.{◌≡◌, ◌++◌, codes, false, IfOk, OnOk, option_map, string_bytes};
ghost use Rattle.serde_json.specs.View.{view};
ghost use Rattle.serde_json.specs.Written.{compact_text, has_float};
ghost use Rattle.gcs_meaning.specs.Tokens.{page_token};
ghost use Rattle.gcs_render.specs.Fields.{text_if};
ghost use Rattle.gcs_render.specs.Lists.{list_fields, list_data, buckets_fields, buckets_data};
ghost use Rattle.gcs_render.specs.Shown.{show_fields, show_where, with_value};
ghost use Rattle.gcs_render.specs.Writing.{sent};

use crate::fields::Fields;
use crate::list_sink::ListSink;
use crate::sink::FieldSink;
use crate::writing::{FieldWriter, PARTS_ROOM};
use base64::engine::general_purpose::URL_SAFE_NO_PAD;
use gcs_meaning::{BucketName, BucketRow, List, Page, Text, Unit};
use serde_json::Value;
use std::alloc::{AllocError, Global};

/// A page of a listing of this bucket, with the token of its last unit where more is left. `Err`: no memory.
///
/// Source: Cloud Storage JSON API, "Objects: list".
pub fn list_value(alloc: Global, bucket: &BucketName, page: &Page) -> Result<Value, AllocError>
    ensures value { IfOk result (λ value. view value ≡ list_data bucket.now page.now) }
    ensures whole { IfOk result (λ value. has_float (view value) ≡ false) }
{
    let mut fields = Fields::new(alloc);
    let mut room = String::new(alloc);
    put_page(alloc, &mut fields, &mut room, bucket, page)?;
    Ok(fields.into_value())
}

/// The same page as compact JSON, behind what `text` holds. `Err`: no memory.
pub fn list_text(
    alloc: Global,
    text: Vec<u8>,
    bucket: &BucketName,
    page: &Page,
) -> Result<Vec<u8>, AllocError>
    ensures { IfOk result (λ made. made.items ≡ text.items ++ compact_text (list_data bucket.now page.now)) }
{
    let mut fields = FieldWriter::new(alloc, text);
    let mut room = String::with_capacity(alloc, PARTS_ROOM)?;
    write_page(alloc, &mut fields, &mut room, bucket, page)?;
    Ok(fields.into_text())
}

/// A page of the list of buckets, with this token where more is left. `Err`: no memory.
///
/// Source: Cloud Storage JSON API, "Buckets: list".
pub fn buckets_value(
    alloc: Global,
    rows: &List<BucketRow>,
    token: Option<&Text>,
) -> Result<Value, AllocError>
    ensures value { IfOk result
        (λ value. view value ≡ buckets_data rows.now (option_map (λ t. t.now) token.entry)) }
    ensures whole { IfOk result (λ value. has_float (view value) ≡ false) }
{
    let mut fields = Fields::new(alloc);
    let mut room = String::new(alloc);
    put_bucket_page(&mut fields, &mut room, rows, token)?;
    Ok(fields.into_value())
}

/// The same page as compact JSON, behind what `text` holds. `Err`: no memory.
pub fn buckets_text(
    alloc: Global,
    text: Vec<u8>,
    rows: &List<BucketRow>,
    token: Option<&Text>,
) -> Result<Vec<u8>, AllocError>
    ensures { IfOk result (λ made. made.items
        ≡ text.items ++ compact_text (buckets_data rows.now (option_map (λ t. t.now) token.entry))) }
{
    let mut fields = FieldWriter::new(alloc, text);
    let mut room = String::with_capacity(alloc, PARTS_ROOM)?;
    write_bucket_page(&mut fields, &mut room, rows, token)?;
    Ok(fields.into_text())
}

fn write_page(
    alloc: Global,
    fields: &mut FieldWriter,
    room: &mut String,
    bucket: &BucketName,
    page: &Page,
) -> Result<(), AllocError>
    ensures { OnOk result (sent fields.new ≡ with_value (list_data bucket.now page.now) (sent fields.old)) }
{
    fields.begin_object()?;
    put_page(alloc, fields, room, bucket, page)?;
    fields.end_object()?;
    Ok(())
}

fn write_bucket_page(
    fields: &mut FieldWriter,
    room: &mut String,
    rows: &List<BucketRow>,
    token: Option<&Text>,
) -> Result<(), AllocError>
    ensures { OnOk result
        (sent fields.new ≡ with_value (buckets_data rows.now (option_map (λ t. t.now) token.entry)) (sent fields.old)) }
{
    fields.begin_object()?;
    put_bucket_page(fields, room, rows, token)?;
    fields.end_object()?;
    Ok(())
}

fn put_page<S: ListSink>(
    alloc: Global,
    fields: &mut S,
    room: &mut String,
    bucket: &BucketName,
    page: &Page,
) -> Result<(), AllocError>
    ensures { OnOk result (S.shown fields.new ≡ show_fields (list_fields bucket.now page.now) (S.shown fields.old)) }
{
    fields.objects_if("items", room, bucket, page.items.as_slice(), &page.settings)?;
    fields.text("kind", "storage#objects")?;
    put_token(alloc, fields, &page.next)?;
    fields.texts_if("prefixes", page.prefixes.as_slice())?;
    Ok(())
}

fn put_bucket_page<S: ListSink>(
    fields: &mut S,
    room: &mut String,
    rows: &List<BucketRow>,
    token: Option<&Text>,
) -> Result<(), AllocError>
    ensures { OnOk result (S.shown fields.new
        ≡ show_fields (buckets_fields rows.now (option_map (λ t. t.now) token.entry)) (S.shown fields.old)) }
{
    fields.buckets_if("items", room, rows.as_slice())?;
    fields.text("kind", "storage#buckets")?;
    put_given_token(fields, token)?;
    Ok(())
}

// The token of a page's last unit.
#[tactic(auto, unfolding(crate::specs::Shown::show_where))]
fn put_token<S: FieldSink>(
    alloc: Global,
    fields: &mut S,
    next: &Option<Unit>,
) -> Result<(), AllocError>
    ensures { OnOk result
        (S.shown fields.new ≡ show_where (codes "nextPageToken") (text_if (option_map page_token next.now)) (S.shown fields.old)) }
{
    if let Some(unit) = next {
        let token = token_text(alloc, unit)?;
        fields.text("nextPageToken", token.as_str())?;
    }
    Ok(())
}

#[tactic(auto, unfolding(crate::specs::Shown::show_where))]
fn put_given_token<S: FieldSink>(fields: &mut S, token: Option<&Text>) -> Result<(), AllocError>
    ensures { OnOk result (S.shown fields.new
        ≡ show_where (codes "nextPageToken") (text_if (option_map (λ t. t.now) token.entry)) (S.shown fields.old)) }
{
    if let Some(token) = token {
        fields.text("nextPageToken", token.as_str())?;
    }
    Ok(())
}

fn token_text(alloc: Global, unit: &Unit) -> Result<String, AllocError>
    ensures { IfOk result (λ text. string_bytes text ≡ page_token unit.now) }
{
    let text = format!(in alloc; "{}:{}", unit.number, unit.text.as_str())?;
    URL_SAFE_NO_PAD.encode(alloc, text.as_bytes())
}
