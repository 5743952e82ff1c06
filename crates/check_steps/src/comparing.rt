//! Answers of the store beside those of the plain store, field by field.
ghost use Rattle.std.specs.List.{AllByRecursion};
ghost use Rattle.gcs_meaning.specs.Contents.{AnswerLiesIn, RowLiesIn};

use crate::contents::{bytes_of, digests_of};
use crate::kept::{self, Bucket, Slot, Version, Wanted};
use gcs_chunks::Chunks;
use gcs_meaning::{Answer, BucketRow, Meta, Page, Pairs, Row, Settings, Text, Unit};
use std::alloc::{AllocError, Global};

/// Whether the answer is the wanted one, on this slot after the step. `Err`: no memory.
pub fn is_same(
    alloc: Global,
    chunks: &Chunks,
    found: &Answer,
    wanted: &Wanted,
    slot: &Slot,
) -> Result<bool, AllocError>
    requires { AnswerLiesIn chunks.now found.now }
{
    Ok(match (found, wanted, &slot.alive) {
        (Answer::Bucket(row), Wanted::Bucket, Some(bucket)) => is_same_bucket(row, bucket),
        (Answer::Object(row, settings), Wanted::Object(version), Some(bucket)) => {
            are_same_settings(settings, &bucket.settings)
                && is_same_version(alloc, chunks, row, version)?
        }
        (Answer::Page(page), Wanted::Page(wanted), Some(bucket)) => {
            are_same_settings(&page.settings, &bucket.settings)
                && is_same_page(alloc, chunks, page, wanted)?
        }
        (Answer::Complete(content), Wanted::Complete(bytes), _) => {
            bytes_of(alloc, chunks, content)?.as_slice() == bytes.as_slice()
        }
        (Answer::Started(found), Wanted::Started(wanted), _) => found == wanted,
        (Answer::Kept(found), Wanted::Kept(wanted), _) => found == wanted,
        (Answer::Refused(found), Wanted::Refused(wanted), _) => found == wanted,
        (Answer::Empty, Wanted::Empty, _) | (Answer::Cancelled, Wanted::Cancelled, _) => true,
        _ => false,
    })
}

fn is_same_bucket(row: &BucketRow, bucket: &Bucket) -> bool {
    row.name.as_str() == "tub"
        && row.generation == bucket.generation
        && row.metageneration == bucket.metageneration
        && row.created == bucket.created
        && row.updated == bucket.updated
        && are_same_settings(&row.settings, &bucket.settings)
}

fn are_same_settings(found: &Settings, wanted: &Settings) -> bool {
    found.location.as_bytes() == wanted.location.as_bytes()
        && found.storage_class.as_bytes() == wanted.storage_class.as_bytes()
        && are_same_pairs(&found.labels, &wanted.labels)
        && is_same_text(&found.lifecycle, &wanted.lifecycle)
        && found.versioned == wanted.versioned
        && found.default_event_hold == wanted.default_event_hold
        && found.retention == wanted.retention
        && found.soft_seconds == wanted.soft_seconds
        && found.soft_since == wanted.soft_since
}

fn is_same_version(
    alloc: Global,
    chunks: &Chunks,
    row: &Row,
    version: &Version,
) -> Result<bool, AllocError>
    requires { RowLiesIn chunks.now row.now }
{
    let body = &version.body;
    let (crc, md5) = digests_of(&body.bytes);
    let bytes = bytes_of(alloc, chunks, row.hashed.content())?;
    Ok(
        version.is_of(&row.name)
            && row.generation == version.generation
            && row.metageneration == version.metageneration
            && row.hashed.crc() == crc
            && row.hashed.md5() == body.has_md5.then_some(md5)
            && row.components == body.components
            && row.created == version.created
            && row.updated == version.updated
            && row.retention_start == version.retention_start
            && row.kind == version.kind
            && is_same_meta(&row.meta, &body.meta)
            && bytes.as_slice() == body.bytes.as_slice(),
    )
}

fn is_same_meta(found: &Meta, wanted: &Meta) -> bool {
    found.content_type.as_bytes() == wanted.content_type.as_bytes()
        && is_same_text(&found.cache_control, &wanted.cache_control)
        && is_same_text(&found.content_disposition, &wanted.content_disposition)
        && is_same_text(&found.content_encoding, &wanted.content_encoding)
        && is_same_text(&found.content_language, &wanted.content_language)
        && is_same_text(&found.storage_class, &wanted.storage_class)
        && found.custom_time == wanted.custom_time
        && found.temporary_hold == wanted.temporary_hold
        && found.event_hold == wanted.event_hold
        && are_same_pairs(&found.custom, &wanted.custom)
}

fn is_same_text(found: &Option<Text>, wanted: &Option<Text>) -> bool {
    match (found, wanted) {
        (Some(found), Some(wanted)) => found.as_bytes() == wanted.as_bytes(),
        (None, None) => true,
        _ => false,
    }
}

fn are_same_pairs(found: &Pairs, wanted: &Pairs) -> bool {
    let found = found.as_slice();
    let wanted = wanted.as_slice();
    if found.len() != wanted.len() {
        return false;
    }
    for ((key, value), (wanted_key, wanted_value)) in found.iter().zip(wanted) {
        if key.as_bytes() != wanted_key.as_bytes() || value.as_bytes() != wanted_value.as_bytes() {
            return false;
        }
    }
    true
}

fn is_same_page(
    alloc: Global,
    chunks: &Chunks,
    found: &Page,
    wanted: &kept::Page,
) -> Result<bool, AllocError>
    requires { AllByRecursion (RowLiesIn chunks.now) found.now.items }
{
    let items = found.items.as_slice();
    let prefixes = found.prefixes.as_slice();
    if items.len() != wanted.items.len() || prefixes.len() != wanted.prefixes.len() {
        return Ok(false);
    }
    for (row, version) in items.iter().zip(&wanted.items) {
        if !is_same_version(alloc, chunks, row, version)? {
            return Ok(false);
        }
    }
    for (prefix, wanted) in prefixes.iter().zip(&wanted.prefixes) {
        if prefix.as_bytes() != wanted.as_bytes() {
            return Ok(false);
        }
    }
    Ok(is_same_unit(&found.next, &wanted.next))
}

fn is_same_unit(found: &Option<Unit>, wanted: &Option<Unit>) -> bool {
    match (found, wanted) {
        (Some(found), Some(wanted)) => {
            found.text.as_bytes() == wanted.text.as_bytes() && found.number == wanted.number
        }
        (None, None) => true,
        _ => false,
    }
}
