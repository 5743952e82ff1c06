//! Where a framer is, and what it tells.
use crate::fault::FrameFault;

/// Where in a message the next byte is.
#[derive(Clone, Copy, Debug, PartialEq, Eq)]
pub enum State {
    /// Between two messages, or in a head.
    Head,
    /// In a body by length, of which so many bytes are left.
    Length(u64),
    /// In a body by chunks.
    Chunked,
    /// The last message closed the connection. Whether only CR and LF came since.
    Closed { bare: bool },
}

/// What a byte brings.
#[derive(Clone, Copy, Debug, PartialEq, Eq)]
pub enum Step {
    More,
    Head,
    End,
    Fault(FrameFault),
}

/// What a call of `Framer::feed` tells, and how many bytes of the piece it took.
#[derive(Clone, Copy, Debug, PartialEq, Eq)]
pub enum Taken {
    /// The whole piece was taken, and nothing is to be told.
    More {
        taken: usize,
    },
    /// The head of a message is whole.
    Head {
        taken: usize,
    },
    /// The bytes `from..to` of the piece are content of the message.
    Body {
        taken: usize,
        from: usize,
        to: usize,
    },
    /// The message is whole. `taken` is 0 where its last byte was told before.
    End {
        taken: usize,
    },
    /// The message is refused. Nothing after it is read as a message.
    Fault {
        taken: usize,
        fault: FrameFault,
    },
}
