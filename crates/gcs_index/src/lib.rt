//! An ordered index: values by their keys, in blocks, so that a search looks at few keys and a change moves few entries.
#![tactic(auto)]

mod blocks;
mod copying;
mod editing;
mod index;
mod probe;
mod removing;
mod seeking;
mod steps;

pub use blocks::{Entry, Place};
pub use index::Index;
pub use probe::Probe;
pub use steps::Steps;
