//! Field masks, by which a client asks for a part of a resource: their text, and what one leaves of
//! a JSON value.
#![tactic(auto)]

mod laws;
mod mask;
mod read;
mod scan;
mod select;

pub use laws::law_one_mask;
pub use mask::{Item, Mask, Name};
pub use read::{MaskFault, read_mask};
pub use select::apply;
