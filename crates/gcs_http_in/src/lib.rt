//! Framing of HTTP/1.1 requests: a `Framer` is fed with bytes in pieces of any size, and tells where a head,
//! its content and the message end, or why the message is refused.
#![tactic(auto)]

mod chunked;
mod fault;
mod fields;
mod framer;
mod head;
mod laws;
mod limits;
mod reader;
mod request;
mod state;

pub use fault::FrameFault;
pub use framer::Framer;
pub use laws::{law_bounded, law_one_reading, law_reads};
pub use limits::Limits;
pub use state::Taken;
