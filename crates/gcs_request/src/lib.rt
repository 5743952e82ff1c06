//! What a message asks for: by its head alone, and once its body has come.
#![tactic(auto)]

mod begins;
mod bodies;
mod head_tests;
mod heading;
mod heads;
mod json_bodies;
mod piece_ranges;
mod ranges;
mod requests;
mod rewriting;
mod upload_json;

pub use bodies::Come;
pub use heading::{HeadPart, Heading, read_head};
pub use heads::{HeadFields, text_of_field};
pub use piece_ranges::{PieceRange, law_piece_ranges};
pub use ranges::law_ranges;
pub use requests::{Asked, request_of};
