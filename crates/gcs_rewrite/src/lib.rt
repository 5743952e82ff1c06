//! What a request asks the store, step by step, and what it says of the answers.
#![tactic(auto)]

mod commands;
mod copies;
mod copy_meta;
mod inserts;
mod lists;
mod made;
mod moves;
mod range;
mod replies;
mod request;
mod restores;
mod resumable;
mod script;
mod token_lines;
mod tokens;

pub use inserts::usual_settings;
pub use moves::Move;
pub use range::Range;
pub use replies::Reply;
pub use request::{Given, Request};
pub use script::next;
pub use tokens::{RewriteFault, law_rewrite_tokens, read_rewrite, write_rewrite};
