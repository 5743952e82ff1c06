//! The joined content of several versions, in the order in which a compose names them.
//!
//! Source: Cloud Storage JSON API, "Objects: compose".
#![tactic(auto)]

mod composing;
mod fault;

pub use composing::{Composed, compose};
pub use fault::ComposeFault;
