//! Names of buckets and objects, accepted exactly by rule, and the bytes that a path's segment stands for.
#![tactic(auto)]

mod names;
mod segments;

pub use names::{BadName, bucket_name, law_bucket_name, law_object_name, object_name};
pub use segments::segment;
