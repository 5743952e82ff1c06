//! Where a worker can be held up, for tests of threads.

/// What a worker comes to.
#[derive(Clone, Copy, Debug, PartialEq, Eq)]
pub enum Place {
    /// The read of this number, from 1, on the worker's present connection.
    Read(u64),
    /// A step on the store, before the worker's turn came.
    BeforeTurn,
    /// A step on the store, once the turn was given up.
    AfterTurn,
}

/// What workers pass at each place, told by a worker's number. It may hold a worker up, and nothing more is said of it.
pub trait Gate: Sync {
    fn at(&self, worker: u32, place: Place);
}

/// A gate that holds nobody up.
#[derive(Clone, Copy)]
pub struct QuietGate;

impl Gate for QuietGate {
    fn at(&self, _worker: u32, _place: Place) {}
}
