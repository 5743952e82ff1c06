//! The JSON that replies show: the resources of objects and buckets, their lists, the answer of a rewrite, and the errors of
//! refusals. Each is made as a value of `serde_json`, or written as the compact text of that value, by one table of fields.
#![tactic(auto)]

mod bucket;
mod bucket_sink;
mod fields;
mod laws;
mod list_sink;
mod lists;
mod object;
mod parts;
mod policies;
mod refusal;
mod rewriting;
mod sink;
mod writing;

pub use bucket::{bucket_text, bucket_value};
pub use laws::law_fields_rise;
pub use lists::{buckets_text, buckets_value, list_text, list_value};
pub use object::{object_text, object_value};
pub use refusal::{error_text, error_value};
pub use rewriting::{rewrite_text, rewrite_value};
