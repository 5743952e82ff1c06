//! The outside of the server as traits: a source of bytes, a sink of bytes and a clock.
//!
//! Each tells its content where it can, and counts its failures, so that a contract above can say
//! of a failure that the outside caused it. There is one of each in memory, and one over what the
//! machine has. At a gate a test can hold a worker up.
#![tactic(auto)]

mod clock;
mod failing;
mod gate;
mod hold;
mod sink;
mod source;

pub use clock::{Clock, ListClock, SystemClock};
pub use gate::{Gate, Place, QuietGate};
pub use hold::HoldGate;
pub use sink::{MemSink, Sink, StdSink};
pub use source::{MemSource, Source, StdSource};

/// A read or a write that failed. The count of its source or sink says that it was counted.
#[derive(Clone, Copy, Debug, PartialEq, Eq)]
pub struct Failed;
