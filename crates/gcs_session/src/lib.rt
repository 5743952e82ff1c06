//! A connection: messages in and replies out, over any source, sink, clock and desk.
#![tactic(auto)]

mod answering;
mod body;
mod bounded;
mod coming;
mod connection;
mod ends;
mod filling;
mod hashing;
mod kept;
mod session;
mod two_parts;
mod unsent;
mod writing;

pub use connection::serve_connection;
pub use ends::SessionEnd;
pub use session::{Fed, Session, Want};
pub use writing::write_all;
