//! Resumable uploads by their numbers: pieces in their order, what is kept of them, and how each ends.
//!
//! Source: Cloud Storage, "Resumable uploads".
#![tactic(auto)]

mod fault;
mod laws;
mod piece;
mod running;
mod uploads;

pub use fault::UploadFault;
pub use laws::{law_kept_is_sent, law_kept_stays};
pub use running::is_late;
pub use uploads::Uploads;
