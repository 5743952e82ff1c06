//! The object that callers take turns on: a sum, with the history of what was added.
ghost use Rattle.std.specs.Prelude.{◌≡◌, []};

use gcs_turn::{Entry, Object};
use std::alloc::{AllocError, Global};
use std::fmt::Write;

/// A sum, with the history of what was added. It counts modulo 2^64.
#[derive(Drop)]
pub struct Tally {
    sum: u64,
    most: usize,
    history: Vec<Entry<u64>>,
}

impl Tally {
    /// Nothing was added yet. It takes at most so many entries, and 2^40.
    pub fn new(alloc: Global, most: usize) -> Tally
        ensures { result.history.items ≡ [] }
    {
        Tally {
            sum: 0,
            most,
            history: Vec::new(alloc),
        }
    }

    /// The entries one after the other, as `caller.number at moment adds command`.
    pub fn text(&self, alloc: Global) -> Result<String, AllocError> {
        let mut text = String::new(alloc);
        for entry in &self.history {
            let Ok(()) = write!(
                text,
                "{}.{} at {} adds {}; ",
                entry.caller, entry.number, entry.moment, entry.command
            ) else {
                return Err(AllocError);
            };
        }
        Ok(text)
    }

    /// How many entries the callers 0 and 1 have, whether those of each are numbered in order, and the sum.
    pub fn counts(&self, alloc: Global) -> Result<String, AllocError> {
        let mut counts: [u64; 2] = [0, 0];
        let mut in_order = true;
        for entry in &self.history {
            match counts.get_mut(entry.caller as usize) {
                Some(count) => {
                    in_order &= entry.number == *count;
                    *count = count.saturating_add(1);
                }
                None => in_order = false,
            }
        }
        let order = if in_order { "in order" } else { "out of order" };
        format!(in alloc;
            "{} entries, {} and {}, {order}, sum {}",
            self.history.len(),
            counts[0],
            counts[1],
            self.sum
        )
    }
}

impl Object for Tally {
    type Command = u64;

    type Answer = u64;

    type Home = ();

    ghost history = { λ t. t.history.items };

    ghost home = { λ _. tt };

    ghost answer = { λ _ _ _. Unit {0} };

    ghost fits = { λ _ _. Unit {0} };

    ghost suits = { λ _ _. Unit {0} };

    fn apply(&mut self, caller: u32, number: u64, moment: u64, command: u64) -> Result<u64, u64> {
        if self.history.len() >= self.most.min(1 << 40) {
            return Err(command);
        }
        let entry = Entry {
            caller,
            number,
            moment,
            command,
        };
        let Ok(()) = self.history.push(entry) else {
            return Err(command);
        };
        self.sum = self.sum.wrapping_add(command);
        Ok(self.sum)
    }
}
