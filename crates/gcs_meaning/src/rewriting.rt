//! Rewrites that go in several calls, as plain data. Source: Cloud Storage JSON API, "Objects: rewrite".
use crate::names::{BucketName, Name};
use crate::text::Text;

/// How far a rewrite of one source generation to one destination has come: `done` is in bytes, at least 1.
#[derive(Drop)]
pub struct RewriteToken {
    pub generation: u64,
    pub done: u64,
    pub from_bucket: BucketName,
    pub from_name: Name,
    pub to_bucket: BucketName,
    pub to_name: Name,
}

/// What a rewrite says: sizes in bytes, and the token for the next call, absent where the rewrite is done.
#[derive(Drop)]
pub struct RewriteReply {
    pub size: u64,
    pub rewritten: u64,
    pub token: Option<Text>,
}
