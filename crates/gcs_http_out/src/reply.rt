//! Which constant reply is meant.
use crate::head::Ending;

/// The text of a constant reply: the eight faults of a message's framing, by their names, and want of memory.
#[derive(Clone, Copy, Debug, PartialEq, Eq)]
pub enum FixedText {
    HeadTooLong,
    TooManyFields,
    BadHead,
    BadCoding,
    BothLengths,
    BadLength,
    BodyTooLong,
    BadChunk,
    /// Memory was wanting before any step of the request was made.
    WantOfMemory,
    /// Memory was wanting after at least one step of the request was made.
    WantOfMemoryDone,
}

/// A constant reply. `head_only`, for a request by HEAD, leaves out the body but not its length (RFC 9110,
/// section 9.3.2).
#[derive(Clone, Copy, Debug, PartialEq, Eq)]
pub struct Fixed {
    pub what: FixedText,
    pub ending: Ending,
    pub head_only: bool,
}
