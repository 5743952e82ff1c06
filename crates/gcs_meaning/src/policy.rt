//! What the tests of a version answer, as plain data.
use crate::reason::Key;

/// What becomes of the four preconditions of a request.
#[derive(Clone, Copy, Debug, PartialEq, Eq)]
pub enum PreResult {
    Holds,
    /// The first that fails, with the number that was wanted and the one that was found.
    Fails { which: Key, wanted: u64, found: u64 },
}

/// What keeps a version from being deleted or replaced: the first that covers.
///
/// `until` is in microseconds since 1970, and is itself free.
#[derive(Clone, Copy, Debug, PartialEq, Eq)]
pub enum Cover {
    Free,
    Temporary,
    EventBased,
    Retained { until: u64 },
    SoftDeleted { until: u64 },
}

/// What becomes of a version that is taken away.
///
/// `hard` is the moment, in microseconds since 1970, at which a soft-deleted version goes.
#[derive(Clone, Copy, Debug, PartialEq, Eq)]
pub enum Retired {
    Noncurrent,
    Soft { hard: u64 },
    Out,
}
