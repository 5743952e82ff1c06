//! What a body says, or its fault. Each body is shown by a copy of it.
use crate::said::Said;
use gcs_json::{
    BodyFault, BucketBody, ComposeBody, ObjectBody, read_bucket_body, read_compose_body,
    read_object_body,
};
use gcs_meaning::{Copied, Part, key_text};
use std::alloc::{AllocError, Global};

/// What the body of `ROW BODY` says, the row being that of the table of paths. `~N~` in the body stands for N letters.
/// `Err`: no memory.
pub fn body_text(alloc: Global, call: &str, rest: &str) -> Result<String, AllocError> {
    let (row, body) = rest.split_once(" ").unwrap_or((rest, ""));
    let row = row.parse::<u32>().unwrap_or(0);
    let body = lengthened(alloc, body)?;
    let body = body.as_bytes();
    match call {
        "bucket" => match read_bucket_body(alloc, row, body) {
            Ok(read) => bucket_said(alloc, &read),
            Err(fault) => fault_text(alloc, fault),
        },
        "object" => match read_object_body(alloc, row, body) {
            Ok(read) => object_said(alloc, &read),
            Err(fault) => fault_text(alloc, fault),
        },
        "compose" => match read_compose_body(alloc, body) {
            Ok(read) => compose_said(alloc, &read),
            Err(fault) => fault_text(alloc, fault),
        },
        "bucket-fault" => match read_bucket_body(alloc, row, body) {
            Ok(_) => String::from_str(alloc, "none"),
            Err(fault) => fault_text(alloc, fault),
        },
        "object-fault" => match read_object_body(alloc, row, body) {
            Ok(_) => String::from_str(alloc, "none"),
            Err(fault) => fault_text(alloc, fault),
        },
        _ => String::from_str(alloc, "no such call"),
    }
}

fn lengthened(alloc: Global, body: &str) -> Result<String, AllocError> {
    let mut text = String::new(alloc);
    let (front, rest) = body.split_once("~").unwrap_or((body, ""));
    text.push_str(front)?;
    if let Some((count, back)) = rest.split_once("~") {
        for _ in 0..count.parse::<u32>().unwrap_or(0) {
            text.push('X')?;
        }
        text.push_str(back)?;
    }
    Ok(text)
}

fn fault_text(alloc: Global, fault: BodyFault) -> Result<String, AllocError> {
    match fault {
        BodyFault::NotJson => String::from_str(alloc, "not JSON"),
        BodyFault::BadField { name } => Ok(format!(in alloc; "bad {}", key_text(name))?),
        BodyFault::Missing { name } => Ok(format!(in alloc; "missing {}", key_text(name))?),
        BodyFault::NoMemory => Err(AllocError),
    }
}

fn bucket_said(alloc: Global, read: &BucketBody) -> Result<String, AllocError> {
    let body = read.copy()?;
    let mut said = Said::new(alloc);
    if let Some(name) = &body.name {
        said.put("name", name.as_str())?;
    }
    said.put_given("location", &body.location)?;
    said.put_pairs("labels", &body.change.labels)?;
    said.put_text("lifecycle", &body.change.lifecycle)?;
    said.put_flag("default_event_hold", &body.change.default_event_hold)?;
    said.put_number("retention_period", &body.change.retention_period)?;
    said.put_number("soft_seconds", &body.change.soft_seconds)?;
    said.put_flag("versioned", &body.change.versioned)?;
    said.put_text("storage_class", &body.change.storage_class)?;
    said.into_text()
}

fn object_said(alloc: Global, read: &ObjectBody) -> Result<String, AllocError> {
    let body = read.copy()?;
    let change = &body.change;
    let mut said = Said::new(alloc);
    said.put_given("name", &body.name)?;
    said.put_given("storage_class", &body.storage_class)?;
    said.put_text("content_type", &change.content_type)?;
    said.put_text("cache_control", &change.cache_control)?;
    said.put_text("content_disposition", &change.content_disposition)?;
    said.put_text("content_encoding", &change.content_encoding)?;
    said.put_text("content_language", &change.content_language)?;
    said.put_number("custom_time", &change.custom_time)?;
    said.put_flag("event_hold", &change.event_hold)?;
    said.put_flag("temporary_hold", &change.temporary_hold)?;
    said.put_pairs("custom", &change.custom)?;
    said.put_digests(&body.expect)?;
    said.into_text()
}

// What the destination says, and behind it the sources.
fn compose_said(alloc: Global, read: &ComposeBody) -> Result<String, AllocError> {
    let body = read.copy()?;
    let mut text = object_said(alloc, &body.destination)?;
    for part in body.parts.as_slice() {
        text.push_str(source_text(alloc, part)?.as_str())?;
    }
    Ok(text)
}

// A source as ` + NAME`, with `@GENERATION` and `?GENERATION` where it is to be of that generation, and is tested for it.
fn source_text(alloc: Global, part: &Part) -> Result<String, AllocError> {
    let name = part.name.as_str();
    let mut text = format!(in alloc; " + {name}")?;
    if let Some(generation) = part.generation {
        text.push_str(format!(in alloc; "@{generation}")?.as_str())?;
    }
    if let Some(generation) = part.generation_is {
        text.push_str(format!(in alloc; "?{generation}")?.as_str())?;
    }
    Ok(text)
}
