//! What the program does with its words: one connection over standard input and output, or those that come to an address,
//! served by workers beside each other over one store.
//!
//! A listener hands out connections, in memory or over TCP. Each worker takes the next one and serves it to its end at its
//! own desk of the store. The statuses of the program stand here too.
#![tactic(auto)]

mod alone;
mod gated;
mod link;
mod listener;
mod memory;
mod positionals;
mod refusal;
mod running;
mod serving;
mod status;
mod stream;
mod tcp;
mod words;
mod workers;

pub use alone::run_alone;
pub use link::{Link, Pair};
pub use listener::Listen;
pub use memory::ListListen;
pub use running::run_shared;
pub use serving::{ServeEnd, serve_all};
pub use status::Status;
pub use stream::{TcpReader, TcpWriter};
pub use tcp::TcpPairs;
pub use words::{Word, WordsFault, Work, read_words};
