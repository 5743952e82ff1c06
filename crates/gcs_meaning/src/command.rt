//! The commands on the store, their answers and the entries of a history.
ghost use Rattle.std.specs.Prelude.{◌≡◌};
ghost use Rattle.std.specs.Option.{option_copied};
ghost use Rattle.gcs_meaning.specs.History.{bucket_of};

use crate::changes::{MetaChange, SettingsChange};
use crate::hashed::Hashed;
use crate::list::List;
use crate::listing::{Page, PageQuery};
use crate::names::{BucketName, Name};
use crate::reason::Reason;
use crate::settings::{Meta, Pre, Settings};
use crate::text::Text;
use crate::version::{BucketRow, Expect, Part, Row};
use gcs_chunks::Content;

/// One call on the store. All but `BucketList` name a bucket.
#[derive(Drop)]
pub enum Command {
    BucketInsert {
        bucket: BucketName,
        settings: Settings,
    },
    BucketList {
        shard: u8,
        prefix: Text,
        after: Text,
        most: u32,
    },
    BucketGet {
        bucket: BucketName,
        pre: Pre,
    },
    BucketChange {
        bucket: BucketName,
        pre: Pre,
        change: SettingsChange,
        whole: bool,
    },
    BucketDelete {
        bucket: BucketName,
        pre: Pre,
    },
    BucketLock {
        bucket: BucketName,
        pre: Pre,
    },
    BucketRestore {
        bucket: BucketName,
        generation: u64,
    },
    List {
        bucket: BucketName,
        query: PageQuery,
    },
    Get {
        bucket: BucketName,
        name: Name,
        generation: Option<u64>,
        soft: bool,
        pre: Pre,
    },
    Change {
        bucket: BucketName,
        name: Name,
        generation: Option<u64>,
        pre: Pre,
        change: MetaChange,
        whole: bool,
    },
    Delete {
        bucket: BucketName,
        name: Name,
        generation: Option<u64>,
        pre: Pre,
    },
    Put {
        bucket: BucketName,
        name: Name,
        pre: Pre,
        meta: Meta,
        hashed: Hashed,
        components: Option<u32>,
        expect: Expect,
    },
    Compose {
        bucket: BucketName,
        name: Name,
        pre: Pre,
        meta: Meta,
        parts: List<Part>,
    },
    Restore {
        bucket: BucketName,
        name: Name,
        generation: u64,
        pre: Pre,
    },
    Start {
        bucket: BucketName,
        name: Name,
        pre: Pre,
        meta: Meta,
        expect: Expect,
        total: Option<u64>,
    },
    Append {
        bucket: BucketName,
        upload: u64,
        offset: Option<u64>,
        total: Option<u64>,
        content: Content,
    },
    Finish {
        bucket: BucketName,
        upload: u64,
        hashed: Hashed,
    },
    Cancel {
        bucket: BucketName,
        upload: u64,
    },
}

/// What a command answers.
#[derive(Drop)]
pub enum Answer {
    Bucket(BucketRow),
    Buckets(List<BucketRow>),
    Object(Row, Settings),
    Empty,
    Page(Page),
    Started(u64),
    Kept(u64),
    Complete(Content),
    Cancelled,
    Refused(Reason),
}

/// One entry of a shard's history: the command, the caller's number, the entry's number among that caller's entries
/// (from 0), and the reading of the clock that its request took (microseconds since 1970).
#[derive(Drop)]
pub struct Entry {
    pub caller: u32,
    pub number: u64,
    pub moment: u64,
    pub command: Command,
}

impl Command {
    /// The bucket that the command names.
    pub fn bucket(&self) -> Option<&BucketName>
        ensures { option_copied result ≡ bucket_of self.now }
    {
        match self {
            Command::BucketInsert { bucket, .. } => Some(bucket),
            Command::BucketList { .. } => None,
            Command::BucketGet { bucket, .. } => Some(bucket),
            Command::BucketChange { bucket, .. } => Some(bucket),
            Command::BucketDelete { bucket, .. } => Some(bucket),
            Command::BucketLock { bucket, .. } => Some(bucket),
            Command::BucketRestore { bucket, .. } => Some(bucket),
            Command::List { bucket, .. } => Some(bucket),
            Command::Get { bucket, .. } => Some(bucket),
            Command::Change { bucket, .. } => Some(bucket),
            Command::Delete { bucket, .. } => Some(bucket),
            Command::Put { bucket, .. } => Some(bucket),
            Command::Compose { bucket, .. } => Some(bucket),
            Command::Restore { bucket, .. } => Some(bucket),
            Command::Start { bucket, .. } => Some(bucket),
            Command::Append { bucket, .. } => Some(bucket),
            Command::Finish { bucket, .. } => Some(bucket),
            Command::Cancel { bucket, .. } => Some(bucket),
        }
    }
}
