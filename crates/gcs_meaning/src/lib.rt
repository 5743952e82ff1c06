//! The data types of the store and the definitions that its contracts cite: what a bucket is, what one command does to
//! it, what a shard's history means, and what a caller of the store knows.
#![tactic(auto)]

mod changes;
mod changing;
mod command;
mod copying;
mod desk;
mod hashed;
mod laws;
mod limits;
mod list;
mod listing;
mod moment;
mod names;
mod pairs;
mod policy;
mod reason;
mod refusals;
mod rewriting;
mod settings;
mod text;
mod uploading;
mod version;

pub use changes::{MetaChange, Set, SettingsChange};
pub use command::{Answer, Command, Entry};
pub use copying::Copied;
pub use desk::{Desk, Unheld};
pub use hashed::Hashed;
pub use laws::{
    law_answers, law_buckets, law_contents, law_covered, law_fit, law_generations, law_locked,
    law_small, law_soft,
};
pub use limits::{
    DEFAULT_CLASS, DEFAULT_CONTENT_TYPE, DEFAULT_SOFT_SECONDS, LARGEST_CUSTOM, LARGEST_OBJECT,
    MICROSECONDS_PER_SECOND, SHARDS,
};
pub use list::List;
pub use listing::{Page, PageQuery, Unit, View};
pub use moment::{LAST_READING, effective, shard_of};
pub use names::{BucketName, Name};
pub use pairs::Pairs;
pub use policy::{Cover, PreResult, Retired};
pub use reason::{Digest, Key, Reason};
pub use refusals::key_text;
pub use rewriting::{RewriteReply, RewriteToken};
pub use settings::{Meta, Pre, Retention, Settings};
pub use text::Text;
pub use uploading::{Progress, Upload, UploadState};
pub use version::{BucketRow, Expect, Kind, Part, Row, RowFacts};
