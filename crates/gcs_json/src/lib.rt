//! The typed reading of JSON bodies: what the body of a bucket, of an object or of a compose says, or the first fault in it.
#![tactic(auto)]

mod bucket;
mod compose;
mod fault;
mod fields;
mod kind;
mod laws;
mod lifecycle;
mod numbers;
mod object;
mod pairs;
mod sources;
mod texts;
mod words;

pub use bucket::{BucketBody, read_bucket_body};
pub use compose::{ComposeBody, read_compose_body};
pub use fault::BodyFault;
pub use laws::{
    law_compose_fields, law_fields, law_first_compose_fault, law_first_fault,
    law_first_object_fault, law_object_fields,
};
pub use object::{ObjectBody, read_object_body};
