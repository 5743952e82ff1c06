//! What is written for a reply: its head, its fields and its body, in memory or read as it is given out.
#![tactic(auto)]

mod copying;
mod excerpt;
mod form;
mod head_lines;
mod json;
mod media;
mod outgoing;
mod resumable;
mod rewriting;
mod turned;
mod writing;

pub use form::Form;
pub use outgoing::Outgoing;
pub use writing::{fault_reply, memory_reply, write_refusal, write_reply};
