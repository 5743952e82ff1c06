//! Multipart bodies as they come, in any pieces (RFC 2046, 5.1): the boundary that a content type names, and a parser of
//! parts that is fed with bytes and tells events.
#![tactic(auto)]

mod content_type;
mod fields;
mod head;
mod laws;
mod mark;
mod parameters;
mod parts;
mod seek;
mod words;

pub use content_type::{boundary, law_boundary};
pub use laws::{law_first_content, law_one_body};
pub use parts::{PartTaken, Parts};
