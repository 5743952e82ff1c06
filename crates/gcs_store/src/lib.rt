//! The store: its shards, each with the history that its slots come from; the desk of a program that shares its store with
//! nobody; and the store that several callers share, each at a desk of its own.
#![tactic(auto)]

mod bucket_lists;
mod closing;
mod desk;
mod object;
mod opening;
mod passes;
mod shard;
mod shared_desk;
mod slots;
mod store;

pub use closing::Closing;
pub use desk::PlainDesk;
pub use passes::Passes;
pub use shard::Shard;
pub use shared_desk::SharedDesk;
pub use store::SharedStore;
