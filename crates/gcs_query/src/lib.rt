//! The query of a request's target: its pairs, decoded, and the values of its keys as texts, numbers and flags.
#![tactic(auto)]

mod reading;
mod values;

pub use reading::{Query, QueryFault, decoded, read_query};
pub use values::BadValue;
