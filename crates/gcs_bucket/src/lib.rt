//! What is kept under the name of a bucket, its slot, with each command on it.
#![tactic(auto)]

mod alive;
mod append;
mod bucket;
mod bucket_change;
mod bucket_deletion;
mod bucket_get;
mod bucket_lock;
mod bucket_restore;
mod cancel;
mod compose;
mod ended;
mod finish;
mod get;
mod graves;
mod insertion;
mod list;
mod object_change;
mod object_deletion;
mod put;
mod refusals;
mod restore;
mod slot;
mod start;

pub use bucket::Bucket;
pub use gcs_versions::Steps;
