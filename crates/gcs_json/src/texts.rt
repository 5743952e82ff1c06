//! Any text, and the texts of names, digests and moments, which other crates read.
ghost use Rattle.serde_json.specs.View.{view};
ghost use Rattle.gcs_names.specs.Name.{is_bucket_name};
ghost use Rattle.gcs_names.specs.ObjectTest.{is_object_name};
ghost use Rattle.gcs_json.specs.Kinds.{any_text, crc, md5, moment, text_where};

use crate::kind::Kind;
use gcs_crc::{BadDigest, read_crc, read_md5};
use gcs_meaning::{BucketName, Name, Text};
use gcs_names::{BadName, bucket_name, object_name};
use gcs_time::read_time;
use serde_json::Value;
use std::alloc::{AllocError, Global};

/// Any text.
#[derive(Drop)]
pub struct AnyText;

impl Kind<Text> for AnyText {
    ghost reads = { λ _. any_text };

    fn read(&self, alloc: Global, value: &Value) -> Result<Option<Text>, AllocError> {
        match value.as_str() {
            Some(text) => Ok(Some(Text::from_str(alloc, text)?)),
            None => Ok(None),
        }
    }
}

/// A name that a bucket may have.
#[derive(Drop)]
pub struct NameOfBucket;

impl Kind<BucketName> for NameOfBucket {
    ghost reads = { λ _. text_where is_bucket_name };

    fn read(&self, alloc: Global, value: &Value) -> Result<Option<BucketName>, AllocError> {
        let Some(text) = value.as_str() else {
            return Ok(None);
        };
        match bucket_name(alloc, text.as_bytes()) {
            Ok(name) => Ok(Some(name)),
            Err(BadName::Form) => Ok(None),
            Err(BadName::NoMemory) => Err(AllocError),
        }
    }
}

/// A name that an object may have.
#[derive(Drop)]
pub struct NameOfObject;

impl Kind<Name> for NameOfObject {
    ghost reads = { λ _. text_where is_object_name };

    fn read(&self, alloc: Global, value: &Value) -> Result<Option<Name>, AllocError> {
        let Some(text) = value.as_str() else {
            return Ok(None);
        };
        match object_name(alloc, text.as_bytes()) {
            Ok(name) => Ok(Some(name)),
            Err(BadName::Form) => Ok(None),
            Err(BadName::NoMemory) => Err(AllocError),
        }
    }
}

/// The base64 of a CRC32C.
#[derive(Drop)]
pub struct CrcText;

impl Kind<u32> for CrcText {
    ghost reads = { λ _. crc };

    fn read(&self, alloc: Global, value: &Value) -> Result<Option<u32>, AllocError> {
        let Some(text) = value.as_str() else {
            return Ok(None);
        };
        match read_crc(alloc, text.as_bytes()) {
            Ok(value) => Ok(Some(value)),
            Err(BadDigest::Form) => Ok(None),
            Err(BadDigest::NoMemory) => Err(AllocError),
        }
    }
}

/// The base64 of an MD5.
#[derive(Drop)]
pub struct Md5Text;

impl Kind<[u8; 16]> for Md5Text {
    ghost reads = { λ _. md5 };

    fn read(&self, alloc: Global, value: &Value) -> Result<Option<[u8; 16]>, AllocError> {
        let Some(text) = value.as_str() else {
            return Ok(None);
        };
        match read_md5(alloc, text.as_bytes()) {
            Ok(value) => Ok(Some(value)),
            Err(BadDigest::Form) => Ok(None),
            Err(BadDigest::NoMemory) => Err(AllocError),
        }
    }
}

/// A moment from 1970 to 9999, in microseconds since 1970.
#[derive(Drop)]
pub struct TimeText;

impl Kind<u64> for TimeText {
    ghost reads = { λ _. moment };

    fn read(&self, alloc: Global, value: &Value) -> Result<Option<u64>, AllocError> {
        let Some(text) = value.as_str() else {
            return Ok(None);
        };
        match read_time(text.as_bytes()) {
            Ok(moment) => Ok(Some(moment)),
            Err(_) => Ok(None),
        }
    }
}
