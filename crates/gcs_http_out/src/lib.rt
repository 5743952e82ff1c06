//! What an HTTP/1.1 server writes besides bodies: the heads of its replies, and the replies that are constants.
//! It is the only place where a status has its phrase and where the text of a field line is made.
#![tactic(auto)]

mod constants;
mod head;
mod reply;

pub use constants::fixed;
pub use head::{Ending, ReplyHead, head_bytes, push_end, push_field, push_status};
pub use reply::{Fixed, FixedText};
