//! What a seat at the table knows. It is said in proofs alone: no value of it is ever made.
use crate::object::Entry;
use std::collections::LinkedList;

/// What a seat knows of the history, and where it stands in the queue.
pub struct View<C, H> {
    /// The number of the caller that has the seat.
    pub caller: u32,
    /// How many seats were made, in the view of the first seat. Else 0.
    pub made: u32,
    /// Whether the seat was joined into another.
    pub spent: bool,
    /// What no call changes of the object, and nothing where the seat is spent.
    pub home: Option<H>,
    /// The longest beginning of the history that it knows of.
    pub seen: LinkedList<Entry<C>>,
    /// What it has seen itself, without what the seats that it took in had seen.
    pub own: LinkedList<Entry<C>>,
    /// The entries of its caller.
    pub mine: LinkedList<Entry<C>>,
    /// 0 without a ticket, 1 with one, 2 served, 3 served and its entry added.
    pub stage: u64,
    /// The ticket, where it has one. Tickets are counted modulo 2^64.
    pub ticket: u64,
    /// The history as it was when the seat was served.
    pub base: LinkedList<Entry<C>>,
    /// What the seats that it took in had seen and made, in that order.
    pub joined: LinkedList<Joined<C>>,
}

/// What a seat that was joined into another had seen and made.
pub struct Joined<C> {
    pub caller: u32,
    pub seen: LinkedList<Entry<C>>,
    pub mine: LinkedList<Entry<C>>,
}
