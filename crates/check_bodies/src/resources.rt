//! Resources with fields that no connection shows yet, pages, rewrites and errors, each made in both ways: as a value, and as
//! a text behind another one.
use crate::samples::{
    MOMENT, bucket_with, full_settings, full_version, no_page, plain_settings, plain_version,
    some_page, tub, two_buckets,
};
use gcs_meaning::{
    BucketName, BucketRow, Kind, List, Page, Reason, RewriteReply, Row, Settings, Text,
};
use gcs_render::{
    bucket_text, bucket_value, buckets_text, buckets_value, error_text, error_value, list_text,
    list_value, object_text, object_value, rewrite_text, rewrite_value,
};
use serde_json::Value;
use std::alloc::{AllocError, Global};

const WEEK: u64 = 604_800_000_000;

const NONCURRENT: Kind = Kind::Noncurrent { at: MOMENT };

const SOFT: Kind = Kind::Soft {
    at: MOMENT,
    hard: MOMENT + WEEK,
};

/// What stands before each text that is written.
const BEFORE: &str = "before ";

/// A name with a quote, a backslash, control characters and letters of two bytes.
const ODD_NAME: &str = "a\"b\\c\t\u{1}\u{e9}";

/// A lifecycle with values of every kind, and its keys in no order.
const LONG_LIFECYCLE: &str =
    r#"{ "rule": [{"age": 3}], "": [null, true, -5, 18446744073709551615, "\u00e9\n"] }"#;

/// A resource as a value, and as a text behind `BEFORE`.
#[derive(Drop)]
struct Both {
    value: Value,
    text: Vec<u8>,
}

/// The compact text of the resource of this name, where both ways make it; else what was written. `Err`: no memory.
pub fn resource_text(alloc: Global, what: &str) -> Result<String, AllocError> {
    let Some(both) = both_of(alloc, what)? else {
        return String::from_str(alloc, "no such resource");
    };
    let text = both.value.to_string(alloc)?;
    let written = String::from_utf8_lossy(alloc, &both.text)?;
    if written.as_str().strip_prefix(BEFORE) == Some(text.as_str()) {
        return Ok(text);
    }
    Ok(format!(in alloc; "written as {}", written.as_str())?)
}

fn both_of(alloc: Global, what: &str) -> Result<Option<Both>, AllocError> {
    let both = match what {
        "held-object" => full_object(alloc, true, Kind::Live),
        "retained-object" => full_object(alloc, false, Kind::Live),
        "soft-object" => full_object(alloc, false, SOFT),
        "noncurrent-object" => full_object(alloc, false, NONCURRENT),
        "plain-object" => plain_object(alloc, "a"),
        "oddly-named-object" => plain_object(alloc, ODD_NAME),
        "retained-bucket" => full_bucket(alloc, r#"{"rule":[{"age":3}]}"#),
        "bucket-with-a-fraction" => full_bucket(alloc, r#"{"rule":[{"age":0.5}]}"#),
        "bucket-with-a-long-lifecycle" => full_bucket(alloc, LONG_LIFECYCLE),
        "plain-bucket" => plain_bucket(alloc),
        "page" => page(alloc),
        "empty-page" => empty_page(alloc),
        "bucket-page" => bucket_page(alloc),
        "empty-bucket-page" => buckets(alloc, &List::new(alloc), None),
        "rewrite" => rewrite(alloc),
        "finished-rewrite" => finished_rewrite(alloc),
        "error" => error(alloc, Reason::NoBucket),
        _ => return Ok(None),
    };
    Ok(Some(both?))
}

fn before(alloc: Global) -> Result<Vec<u8>, AllocError> {
    Vec::from_slice(alloc, BEFORE.as_bytes())
}

fn full_object(alloc: Global, held: bool, kind: Kind) -> Result<Both, AllocError> {
    object(alloc, &full_version(alloc, held, kind)?)
}

fn plain_object(alloc: Global, name: &str) -> Result<Both, AllocError> {
    object(alloc, &plain_version(alloc, name)?)
}

fn object(alloc: Global, row: &Row) -> Result<Both, AllocError> {
    let bucket = tub(alloc)?;
    let settings = full_settings(alloc, "{}")?;
    Ok(Both {
        value: object_value(alloc, &bucket, row, &settings)?,
        text: object_text(alloc, before(alloc)?, &bucket, row, &settings)?,
    })
}

fn full_bucket(alloc: Global, lifecycle: &str) -> Result<Both, AllocError> {
    bucket(
        alloc,
        &bucket_with(alloc, full_settings(alloc, lifecycle)?)?,
    )
}

fn plain_bucket(alloc: Global) -> Result<Both, AllocError> {
    bucket(alloc, &bucket_with(alloc, plain_settings(alloc)?)?)
}

fn bucket(alloc: Global, row: &BucketRow) -> Result<Both, AllocError> {
    Ok(Both {
        value: bucket_value(alloc, row)?,
        text: bucket_text(alloc, before(alloc)?, row)?,
    })
}

fn page(alloc: Global) -> Result<Both, AllocError> {
    list(alloc, &some_page(alloc)?)
}

fn empty_page(alloc: Global) -> Result<Both, AllocError> {
    list(alloc, &no_page(alloc)?)
}

fn list(alloc: Global, page: &Page) -> Result<Both, AllocError> {
    let bucket = tub(alloc)?;
    Ok(Both {
        value: list_value(alloc, &bucket, page)?,
        text: list_text(alloc, before(alloc)?, &bucket, page)?,
    })
}

fn bucket_page(alloc: Global) -> Result<Both, AllocError> {
    let token = Text::from_str(alloc, "dHVi")?;
    let rows = two_buckets(alloc)?;
    buckets(alloc, &rows, Some(&token))
}

fn buckets(
    alloc: Global,
    rows: &List<BucketRow>,
    token: Option<&Text>,
) -> Result<Both, AllocError> {
    Ok(Both {
        value: buckets_value(alloc, rows, token)?,
        text: buckets_text(alloc, before(alloc)?, rows, token)?,
    })
}

fn rewrite(alloc: Global) -> Result<Both, AllocError> {
    let token = Text::from_str(alloc, "MTph")?;
    rewritten(alloc, &reply(Some(token)))
}

fn finished_rewrite(alloc: Global) -> Result<Both, AllocError> {
    rewritten(alloc, &reply(None))
}

fn reply(token: Option<Text>) -> RewriteReply {
    RewriteReply {
        size: 3_145_728,
        rewritten: 1_048_576,
        token,
    }
}

fn rewritten(alloc: Global, reply: &RewriteReply) -> Result<Both, AllocError> {
    let bucket = tub(alloc)?;
    let version = Some(version_and_settings(alloc)?);
    Ok(Both {
        value: rewritten_value(alloc, reply, &bucket, &version)?,
        text: rewrite_text(alloc, before(alloc)?, reply, &bucket, &version)?,
    })
}

fn version_and_settings(alloc: Global) -> Result<(Row, Settings), AllocError> {
    let row = full_version(alloc, false, Kind::Live)?;
    Ok((row, full_settings(alloc, "{}")?))
}

fn rewritten_value(
    alloc: Global,
    reply: &RewriteReply,
    bucket: &BucketName,
    version: &Option<(Row, Settings)>,
) -> Result<Value, AllocError> {
    match version {
        Some((row, settings)) => {
            let resource = object_value(alloc, bucket, row, settings)?;
            rewrite_value(alloc, reply, Some(resource))
        }
        None => rewrite_value(alloc, reply, None),
    }
}

fn error(alloc: Global, reason: Reason) -> Result<Both, AllocError> {
    Ok(Both {
        value: error_value(alloc, &reason)?,
        text: error_text(alloc, before(alloc)?, &reason)?,
    })
}
