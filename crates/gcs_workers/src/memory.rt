//! Connections in memory.
ghost use Rattle.std.specs.Prelude.{◌≡◌, map, Some};

use crate::link::{Link, Pair};
use crate::listener::Listen;
use gcs_io::{Failed, ListClock, MemSink, MemSource};
use std::collections::VecDeque;

/// A listener that hands out connections in memory, in order. The calls whose numbers, from 1, are in `failing` fail
/// and hand out nothing.
#[derive(Drop)]
pub struct ListListen {
    pairs: VecDeque<Pair<MemSource, MemSink, ListClock>>,
    failing: Vec<u32>,
    calls: u64,
    faults: u64,
    ends: u64,
}

impl ListListen {
    ghost use Rattle.gcs_workers.specs.Memory.{pair_told};

    pub fn new(
        pairs: VecDeque<Pair<MemSource, MemSink, ListClock>>,
        failing: Vec<u32>,
    ) -> ListListen
        ensures pending { ⟦<ListListen as Listen>⟧.pending result ≡ Some (map pair_told pairs.items) }
        ensures faults { ⟦<ListListen as Listen>⟧.fault_count result ≡ 0 }
        ensures ends { ⟦<ListListen as Listen>⟧.end_count result ≡ 0 }
    {
        ListListen {
            pairs,
            failing,
            calls: 0,
            faults: 0,
            ends: 0,
        }
    }

    fn next_fails(&mut self) -> bool
        ensures pairs { self.new.pairs ≡ self.old.pairs }
        ensures faults { self.new.faults ≡ self.old.faults }
        ensures ends { self.new.ends ≡ self.old.ends }
    {
        self.calls = self.calls.saturating_add(1);
        let number = self.calls;
        self.failing
            .iter()
            .any(|failing| u64::from(*failing) == number)
    }
}

impl Listen for ListListen {
    ghost use Rattle.gcs_workers.specs.Memory.{pending_told};

    type Reader = MemSource;

    type Writer = MemSink;

    type Time = ListClock;

    ghost pending = { λ s. pending_told s };

    ghost fault_count = { λ s. s.faults };

    ghost end_count = { λ s. s.ends };

    fn next(&mut self) -> Result<Option<Link<MemSource, MemSink, ListClock>>, Failed> {
        if self.next_fails() {
            self.faults = self.faults.saturating_add(1);
            return Err(Failed);
        }
        match self.pairs.pop_front() {
            Some(pair) => Ok(Some(Link::new(pair))),
            None => {
                self.ends = self.ends.saturating_add(1);
                Ok(None)
            }
        }
    }

    fn faults(&self) -> u64 {
        self.faults
    }

    fn ends(&self) -> u64 {
        self.ends
    }
}
