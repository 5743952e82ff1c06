//! An index, and a plain sorted list of the keys that it must have.
use gcs_index::{Index, Steps};
use std::alloc::{AllocError, Global};
use std::sync::ledger::Ledger;

/// The values of the index tell their keys, and the list has the keys alone.
#[derive(Drop)]
pub struct Compared {
    index: Index<u64, u64>,
    list: Vec<u64>,
}

impl Compared {
    pub fn new(alloc: Global) -> Compared {
        Compared {
            index: Index::new(alloc),
            list: Vec::new(alloc),
        }
    }

    /// Puts a key into both, where it isn't there, and answers whether both say the same of that. `Err`: no memory.
    pub fn put_in<L: Ledger>(
        &mut self,
        key: u64,
        steps: &mut Steps<L>,
    ) -> Result<bool, AllocError> {
        self.index.reserve_one()?;
        let is_new = self.index.find(&key, steps).is_none();
        if is_new {
            self.index.insert(key, value_of(key));
        }
        match self.list.binary_search(&key) {
            Ok(_) => Ok(!is_new),
            Err(place) => {
                self.list.insert(place, key)?;
                Ok(is_new)
            }
        }
    }

    /// Takes a key out of both, and answers whether both say the same of it.
    pub fn take_out(&mut self, key: u64) -> bool {
        let value = self.index.remove(&key);
        match self.list.binary_search(&key) {
            Ok(place) => {
                self.list.remove(place);
                value == Some(value_of(key))
            }
            Err(_) => value.is_none(),
        }
    }

    /// A copy of the index, beside the same list. `Err`: no memory.
    pub fn copy(&self) -> Result<Compared, AllocError> {
        Ok(Compared {
            index: self.index.copy()?,
            list: self.list.clone()?,
        })
    }

    /// Whether the index has the keys of the list, one behind the other, and what is sought is found where the list has it.
    pub fn is_same<L: Ledger>(&self, steps: &mut Steps<L>) -> bool {
        self.has_list(steps) && self.finds_list(steps) && self.ends_with_list()
    }

    // From place to place the index has the keys of the list, with their values.
    fn has_list<L: Ledger>(&self, steps: &mut Steps<L>) -> bool {
        let mut place = self.index.seek(&0, steps);
        for key in &self.list {
            let Some(here) = place else {
                return false;
            };
            let (found, value) = self.index.at(here);
            if *found != *key || *value != value_of(*key) {
                return false;
            }
            place = self.index.next(here);
        }
        place.is_none()
    }

    // Each key of the list is found, and the numbers on both sides of it as the list has them.
    fn finds_list<L: Ledger>(&self, steps: &mut Steps<L>) -> bool {
        for key in &self.list {
            for bound in [key.saturating_sub(1), *key, key.saturating_add(1)] {
                if !self.finds(bound, steps) {
                    return false;
                }
            }
        }
        true
    }

    fn finds<L: Ledger>(&self, bound: u64, steps: &mut Steps<L>) -> bool {
        let (place, value) = match self.list.binary_search(&bound) {
            Ok(place) => (place, Some(value_of(bound))),
            Err(place) => (place, None),
        };
        self.first_from(bound, steps) == self.list.get(place).copied()
            && self.index.find(&bound, steps).copied() == value
    }

    fn first_from<L: Ledger>(&self, bound: u64, steps: &mut Steps<L>) -> Option<u64> {
        let place = self.index.seek(&bound, steps)?;
        Some(*self.index.at(place).0)
    }

    fn ends_with_list(&self) -> bool {
        self.last() == self.list.last().copied() && self.index.is_empty() == self.list.is_empty()
    }

    fn last(&self) -> Option<u64> {
        let place = self.index.last()?;
        Some(*self.index.at(place).0)
    }
}

// A value that tells its key.
fn value_of(key: u64) -> u64 {
    !key
}
