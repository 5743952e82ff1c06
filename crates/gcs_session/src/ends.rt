//! How a connection ends.

/// How a connection ended.
#[derive(Clone, Copy, Debug, PartialEq, Eq)]
pub enum SessionEnd {
    /// The source ended between two messages.
    Ended,
    /// The last reply said that it closes the connection, and was written whole.
    Closed,
    /// The source ended in a message. Nothing of it was done.
    Cut,
    /// A read failed.
    ReadFault,
    /// A write failed.
    WriteFault,
    /// There was no memory to begin with. Nothing was read.
    NoMemory,
}
