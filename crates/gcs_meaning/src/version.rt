//! Versions of objects, and what is shown of a bucket, as plain data. All moments are in microseconds since 1970.
use crate::copying::Copied;
use crate::hashed::Hashed;
use crate::names::{BucketName, Name};
use crate::settings::{Meta, Settings};
use std::alloc::AllocError;

/// The state of a version. Source: Cloud Storage, "Object Versioning" and "Soft delete".
#[derive(Clone, Copy, Debug, PartialEq, Eq)]
pub enum Kind {
    Live,
    /// Replaced, or deleted, in a versioned bucket at that moment.
    Noncurrent { at: u64 },
    /// Soft-deleted at that moment. From the moment `hard` on it is gone.
    Soft { at: u64, hard: u64 },
}

/// A version of an object.
pub struct Row {
    pub name: Name,
    pub generation: u64,
    pub metageneration: u64,
    pub hashed: Hashed,
    /// The component count, of a composed version.
    pub components: Option<u32>,
    pub meta: Meta,
    pub created: u64,
    pub updated: u64,
    /// The moment from which the bucket's retention period counts.
    pub retention_start: u64,
    pub kind: Kind,
}

impl Drop for Row {
    fn drop(self) {
        let Row {
            name,
            generation: _,
            metageneration: _,
            hashed,
            components: _,
            meta,
            created: _,
            updated: _,
            retention_start: _,
            kind: _,
        } = self;
        drop(name);
        drop(hashed);
        drop(meta);
    }
}

impl Copied for Row {
    fn copy(&self) -> Result<Row, AllocError> {
        Ok(Row {
            name: self.name.copy()?,
            generation: self.generation,
            metageneration: self.metageneration,
            hashed: self.hashed.copy()?,
            components: self.components,
            meta: self.meta.copy()?,
            created: self.created,
            updated: self.updated,
            retention_start: self.retention_start,
            kind: self.kind,
        })
    }
}

/// What of a version decides whether it is covered.
#[derive(Clone, Copy, Debug, PartialEq, Eq)]
pub struct RowFacts {
    pub temporary_hold: bool,
    pub event_hold: bool,
    pub retention_start: u64,
    pub kind: Kind,
}

/// What is shown of a bucket.
pub struct BucketRow {
    pub name: BucketName,
    pub generation: u64,
    pub metageneration: u64,
    pub created: u64,
    pub updated: u64,
    pub settings: Settings,
}

impl Drop for BucketRow {
    fn drop(self) {
        let BucketRow {
            name,
            generation: _,
            metageneration: _,
            created: _,
            updated: _,
            settings,
        } = self;
        drop(name);
        drop(settings);
    }
}

impl Copied for BucketRow {
    fn copy(&self) -> Result<BucketRow, AllocError> {
        Ok(BucketRow {
            name: self.name.copy()?,
            generation: self.generation,
            metageneration: self.metageneration,
            created: self.created,
            updated: self.updated,
            settings: self.settings.copy()?,
        })
    }
}

/// The digests that a request says its content has.
#[derive(Clone, Copy, Debug, PartialEq, Eq)]
pub struct Expect {
    pub crc: Option<u32>,
    pub md5: Option<[u8; 16]>,
}

/// A source of a compose, with its own precondition `ifGenerationMatch`.
#[derive(Drop)]
pub struct Part {
    pub name: Name,
    pub generation: Option<u64>,
    pub generation_is: Option<u64>,
}

impl Copied for Part {
    fn copy(&self) -> Result<Part, AllocError> {
        Ok(Part {
            name: self.name.copy()?,
            generation: self.generation,
            generation_is: self.generation_is,
        })
    }
}
