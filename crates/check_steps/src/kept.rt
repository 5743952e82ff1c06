//! What the plain store keeps under the name of a bucket: plain vectors, and versions with all their bytes.
use gcs_meaning::{Copied, Expect, Kind, Meta, Name, Pre, Reason, Settings, Text, Unit};
use std::alloc::{AllocError, AllocFailed, Global};

/// What an object is, or an upload will be.
pub struct Body {
    pub name: Name,
    pub bytes: Vec<u8>,
    /// False where the bytes were composed.
    pub has_md5: bool,
    pub components: Option<u32>,
    pub meta: Meta,
}

impl Drop for Body {
    fn drop(self) {
        let Body {
            name,
            bytes,
            has_md5: _,
            components: _,
            meta,
        } = self;
        drop(name);
        drop(bytes);
        drop(meta);
    }
}

impl Body {
    /// The same body. `Err`: no memory.
    pub fn copy(&self) -> Result<Body, AllocError> {
        Ok(Body {
            name: self.name.copy()?,
            bytes: self.bytes.clone()?,
            has_md5: self.has_md5,
            components: self.components,
            meta: self.meta.copy()?,
        })
    }
}

/// A version of an object. Those of a bucket stand in the order in which they were made.
pub struct Version {
    pub body: Body,
    pub generation: u64,
    pub metageneration: u64,
    pub created: u64,
    pub updated: u64,
    pub retention_start: u64,
    pub kind: Kind,
}

impl Drop for Version {
    fn drop(self) {
        let Version {
            body,
            generation: _,
            metageneration: _,
            created: _,
            updated: _,
            retention_start: _,
            kind: _,
        } = self;
        drop(body);
    }
}

impl Version {
    /// The same version. `Err`: no memory.
    pub fn copy(&self) -> Result<Version, AllocError> {
        Ok(Version {
            body: self.body.copy()?,
            generation: self.generation,
            metageneration: self.metageneration,
            created: self.created,
            updated: self.updated,
            retention_start: self.retention_start,
            kind: self.kind,
        })
    }

    pub fn is_of(&self, name: &Name) -> bool {
        self.body.name.as_bytes() == name.as_bytes()
    }

    pub fn is_soft(&self) -> bool {
        match self.kind {
            Kind::Soft { .. } => true,
            Kind::Live | Kind::Noncurrent { .. } => false,
        }
    }
}

/// How an upload stands. One that is done made this version.
#[derive(Drop)]
pub enum Progress {
    Running,
    Done(Version),
    Cancelled,
    Expired,
}

/// An upload in pieces, whose body has the bytes that came so far.
pub struct Upload {
    pub number: u64,
    pub body: Body,
    pub pre: Pre,
    pub expect: Expect,
    pub total: Option<u64>,
    pub start: u64,
    pub progress: Progress,
}

impl Drop for Upload {
    fn drop(self) {
        let Upload {
            number: _,
            body,
            pre: _,
            expect: _,
            total: _,
            start: _,
            progress,
        } = self;
        drop(body);
        drop(progress);
    }
}

/// A bucket that is alive, or was.
pub struct Bucket {
    pub settings: Settings,
    pub generation: u64,
    pub metageneration: u64,
    pub created: u64,
    pub updated: u64,
    pub versions: Vec<Version>,
    pub uploads: Vec<Upload>,
}

impl Drop for Bucket {
    fn drop(self) {
        let Bucket {
            settings,
            generation: _,
            metageneration: _,
            created: _,
            updated: _,
            versions,
            uploads,
        } = self;
        drop(settings);
        drop(versions);
        drop(uploads);
    }
}

/// A deleted bucket, until its hard time.
#[derive(Drop)]
pub struct Grave {
    pub bucket: Bucket,
    pub hard: u64,
}

/// What is kept under the name, and the numbers that outlive the bucket.
pub struct Slot {
    pub alloc: Global,
    /// Whether a bucket was ever inserted under the name.
    pub is_known: bool,
    pub alive: Option<Bucket>,
    pub graves: Vec<Grave>,
    pub last_moment: u64,
    pub last_object: u64,
    pub last_bucket: u64,
    pub last_upload: u64,
}

impl Drop for Slot {
    fn drop(self) {
        let Slot {
            alloc: _,
            is_known: _,
            alive,
            graves,
            last_moment: _,
            last_object: _,
            last_bucket: _,
            last_upload: _,
        } = self;
        drop(alive);
        drop(graves);
    }
}

/// A page of a listing.
pub struct Page {
    pub items: Vec<Version>,
    pub prefixes: Vec<Text>,
    pub next: Option<Unit>,
}

impl Drop for Page {
    fn drop(self) {
        let Page {
            items,
            prefixes,
            next,
        } = self;
        drop(items);
        drop(prefixes);
        drop(next);
    }
}

/// What the plain store answers. A bucket is the one that is alive after the step.
pub enum Wanted {
    Bucket,
    Object(Version),
    Empty,
    Page(Page),
    Started(u64),
    Kept(u64),
    Complete(Vec<u8>),
    Cancelled,
    Refused(Reason),
}

impl Drop for Wanted {
    fn drop(self) {
        match self {
            Wanted::Object(version) => drop(version),
            Wanted::Page(page) => drop(page),
            Wanted::Complete(bytes) => drop(bytes),
            Wanted::Bucket
            | Wanted::Empty
            | Wanted::Started(_)
            | Wanted::Kept(_)
            | Wanted::Cancelled
            | Wanted::Refused(_) => {}
        }
    }
}

/// Why a step ends before its change.
#[derive(Drop)]
pub enum Stop {
    Refused(Reason),
    NoMemory,
}

impl From<AllocError> for Stop {
    fn from(_: AllocError) -> Stop {
        Stop::NoMemory
    }
}

impl<T: Drop> From<AllocFailed<T>> for Stop {
    fn from(_: AllocFailed<T>) -> Stop {
        Stop::NoMemory
    }
}
