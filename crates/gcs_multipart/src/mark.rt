//! What a delimiter ends with, and what a byte brings on the way to one.

/// How a delimiter ends.
#[derive(Clone, Copy)]
pub enum Mark {
    /// With CR LF: a part follows.
    Next,
    /// With `--`.
    Last,
}

/// What a byte brings.
#[derive(Clone, Copy)]
pub(crate) enum Sought {
    /// It may belong to a delimiter, as the bytes that were held.
    Held,
    /// The bytes that were held are content; this byte, a CR, may begin a delimiter.
    Given,
    /// The bytes that were held are content, and this one.
    Passed,
    /// It ends a delimiter.
    Found(Mark),
}
