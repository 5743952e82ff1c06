//! A gate that holds a read up until another worker has stepped on the store.
use crate::gate::{Gate, Place};
use std::sync::atomic::{AtomicBool, AtomicU64, Ordering};
use std::thread;

/// Holds each worker's read of one number up until another worker has passed `AfterTurn`, before it came or since, but for
/// at most so many turns of a loop. It is for tests: that two workers serve beside each other shows in that none of them
/// ran out of turns. A worker's number is below 64.
#[derive(Drop)]
pub struct HoldGate {
    read: u64,
    turns: u32,
    // A bit for each worker that has passed `AfterTurn`.
    stepped: AtomicU64,
    reads: AtomicU64,
    out_of_turns: AtomicBool,
}

impl HoldGate {
    /// `read`: the number of the read, from 1.
    pub fn new(read: u64, turns: u32) -> HoldGate {
        HoldGate {
            read,
            turns,
            stepped: AtomicU64::new(0),
            reads: AtomicU64::new(0),
            out_of_turns: AtomicBool::new(false),
        }
    }

    /// Whether a read was held up for all its turns.
    pub fn ran_out(&self) -> bool {
        self.out_of_turns.load(Ordering::SeqCst)
    }

    /// How many reads of that number came to the gate, over all workers.
    pub fn reads(&self) -> u64 {
        self.reads.load(Ordering::SeqCst)
    }

    fn hold(&self, worker: u32) {
        self.reads.fetch_add(1, Ordering::SeqCst);
        for _ in 0..self.turns {
            if self.stepped.load(Ordering::SeqCst) & !bit_of(worker) != 0 {
                return;
            }
            thread::yield_now();
        }
        self.out_of_turns.store(true, Ordering::SeqCst);
    }
}

impl Gate for HoldGate {
    fn at(&self, worker: u32, place: Place) {
        match place {
            Place::Read(number) => {
                if number == self.read {
                    self.hold(worker);
                }
            }
            Place::BeforeTurn => {}
            Place::AfterTurn => {
                self.stepped.fetch_or(bit_of(worker), Ordering::SeqCst);
            }
        }
    }
}

// The bit of a worker.
fn bit_of(worker: u32) -> u64 {
    1u64 << (worker % 64)
}
