//! Why a message is refused by its framing.

/// What is wrong with a message. The variants stand in the order in which a message is tested for them; numbers are
/// those of `Limits::usual()`.
#[derive(Clone, Copy, Debug, PartialEq, Eq)]
pub enum FrameFault {
    /// The first 32,768 bytes, leading empty lines with them, hold no whole head.
    HeadTooLong,
    /// More than 100 nonempty lines follow the first one.
    TooManyFields,
    /// The head as a whole is no request head of version 1.0 or 1.1 (RFC 9112, 3 and 5).
    BadHead,
    /// There are several `Transfer-Encoding` fields, or the one isn't `chunked` (RFC 9112, 6.1).
    BadCoding,
    /// Both `Transfer-Encoding` and `Content-Length` are there (RFC 9112, 6.3).
    BothLengths,
    /// A `Content-Length` isn't 1 to 18 decimal digits, or two of them differ as numbers (RFC 9112, 6.2).
    BadLength,
    /// The body has more than 1,073,741,824 bytes, by its length or by the sizes of its chunks so far.
    BodyTooLong,
    /// A chunk line, the end of a chunk or the trailer is none (RFC 9112, 7.1).
    BadChunk,
}
