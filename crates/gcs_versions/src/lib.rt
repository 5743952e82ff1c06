//! The versions of a bucket's objects, by name and generation.
#![tactic(auto)]

mod choosing;
mod keys;
mod kinds;
mod preparing;
mod slots;
mod versions;

pub use gcs_index::Steps;
pub use kinds::{is_readable, stays};
pub use versions::Versions;
