//! The desk of one caller at a store that callers share.
ghost use Rattle.std.specs.Prelude.{◌≡◌};
ghost use Rattle.gcs_meaning.specs.Desk.{AreLists};

use crate::passes::Passes;
use crate::store::SharedStore;
use gcs_chunks::Piece;
use gcs_io::{Gate, Place};
use gcs_meaning::{Answer, Command, Desk, List, Unheld};
use std::alloc::AllocError;
use std::marker::Model;
use std::sync::{Arc, Wait};

/// A caller's desk at a store. It waits for its turn on a shard at each call, and passes a gate, as this worker, before the
/// turn and after it. Contracts see the store, the caller, and in each shard what the caller has seen and made.
pub struct SharedDesk<'a, 'c, R: Wait, G: Gate> {
    rt: &'a R,
    gate: &'a G,
    store: &'a SharedStore<'c>,
    worker: u32,
    passes: Passes<'c>,
}

impl<'a, 'c, R: Wait, G: Gate> Model for SharedDesk<'a, 'c, R, G> {
    ghost use Rattle.gcs_store.specs.Passes.{IsPassesOf, caller_of, rows_of};
    ghost use Rattle.gcs_store.specs.Store.{SharedDeskValue};

    ghost Value = { SharedDeskValue };

    ghost view = { λ d. record { home = d.store.now; caller = caller_of d.passes; rows = rows_of d.passes } };

    ghost invariant = { λ d. IsPassesOf d.store.now d.passes };
}

impl<'c> SharedStore<'c> {
    ghost use Rattle.gcs_store.specs.Passes.{IsPassesOf, caller_of, rows_of};

    /// A desk for the caller of these passes. It has seen what they tell.
    pub fn desk<'a, R: Wait, G: Gate>(
        &'a self,
        rt: &'a R,
        gate: &'a G,
        worker: u32,
        passes: Passes<'c>,
    ) -> SharedDesk<'a, 'c, R, G>
        requires { IsPassesOf self.now passes }
        ensures { result ≡ record { home = self.now; caller = caller_of passes.entry; rows = rows_of passes.entry } }
    {
        SharedDesk {
            rt,
            gate,
            store: self,
            worker,
            passes,
        }
    }
}

impl<'a, 'c, R: Wait, G: Gate> SharedDesk<'a, 'c, R, G> {
    ghost use Rattle.gcs_store.specs.Passes.{IsPassesOf, caller_of, rows_of};
    ghost use Rattle.gcs_store.specs.Store.{mine_in, seen_in};

    /// Gives the passes back. They are of the store, and tell all that was seen and made at the desk.
    pub fn leave(self) -> Passes<'c>
        ensures own { IsPassesOf self.entry.home result }
        ensures caller { caller_of result ≡ self.entry.caller }
        ensures rows { rows_of result ≡ self.entry.rows }
    {
        let SharedDesk {
            rt: _,
            gate: _,
            store: _,
            worker: _,
            passes,
        } = self;
        passes
    }

    /// Does nothing. Its clause says what holds of every desk: in each shard the caller's entries are its own list, numbered
    /// from 0, and no two entries have the same caller and number.
    pub fn known(&self)
        ensures { AreLists self.now.caller (seen_in self.now.rows) (mine_in self.now.rows) }
    {
        let _ = &self.passes;
    }
}

impl<'a, 'c, R: Wait, G: Gate> Desk for SharedDesk<'a, 'c, R, G> {
    /// The store. So who has a desk at a store and hands it on gets back a desk at that store.
    type Home = SharedStore<'c>;

    ghost use Rattle.gcs_store.specs.Store.{mine_in, seen_in};

    ghost stands = { λ d. record { caller = d.caller; chunks = d.home.chunks; home = d.home } };

    ghost seen = { λ d. seen_in d.rows };

    ghost mine = { λ d. mine_in d.rows };

    fn call(&mut self, shard: u8, moment: u64, command: Command) -> Result<Answer, Unheld> {
        let place = usize::from(shard);
        let turn = self.store.turn(place);
        let pass = &mut self.passes.seats[place];
        self.gate.at(self.worker, Place::BeforeTurn);
        let made = turn.call(self.rt, pass, moment, command);
        self.gate.at(self.worker, Place::AfterTurn);
        match made {
            Ok(answer) => return Ok(answer),
            Err(command) => return Err(Unheld { command }),
        }
    }

    fn publish(&mut self, bytes: List<u8>) -> Result<Arc<Piece>, AllocError> {
        self.store.chunks().publish(self.rt, bytes.into_vec())
    }
}
