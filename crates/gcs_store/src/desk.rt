//! The desk of a program that shares its store with nobody.
ghost use Rattle.std.specs.Prelude.{◌≡◌, ◌<◌, ℕ, [], IfOk};
ghost use Rattle.gcs_meaning.specs.Desk.{AreLists};
ghost use Rattle.gcs_store.specs.Desk.{history_at, shard_at};

use crate::shard::Shard;
use gcs_chunks::{Chunks, Piece};
use gcs_meaning::{Answer, Command, Desk, List, SHARDS, Unheld};
use std::alloc::{AllocError, Global};
use std::marker::Model;
use std::sync::Arc;

/// Sixteen shards over the same chunks, all of whose entries are of caller 0, seen as the chunks and what each shard is
/// seen as. What the caller has seen of a shard and its own entries there are both the shard's history.
#[derive(Drop)]
pub struct PlainDesk<'c> {
    alloc: Global,
    chunks: &'c Chunks,
    shards: Vec<Shard<'c>>,
}

impl<'c> Model for PlainDesk<'c> {
    ghost use Rattle.gcs_store.specs.Desk.{AreOwn, DeskValue};

    ghost Value = { DeskValue };

    ghost view = { λ d. record { chunks = d.chunks.now; shards = d.shards.items } };

    ghost invariant = { λ d. AreOwn (record { chunks = d.chunks.now; shards = d.shards.items }) };
}

impl<'c> PlainDesk<'c> {
    /// Sixteen shards without an entry, whose contents are of these chunks. `Err`: no memory.
    pub fn new(alloc: Global, chunks: &'c Chunks) -> Result<PlainDesk<'c>, AllocError>
        ensures empty { IfOk result (λ desk. (s : ℕ) → history_at desk s ≡ []) }
        ensures chunks { IfOk result (λ desk. desk.chunks ≡ chunks.now) }
    {
        let mut shards = Vec::with_capacity(alloc, SHARDS as usize)?;
        for _ in 0..SHARDS {
            shards.push(Shard::new(alloc, chunks))?;
        }
        Ok(PlainDesk {
            alloc,
            chunks,
            shards,
        })
    }

    /// The shard of this number.
    pub fn shard(&self, number: u8) -> &Shard<'c>
        requires { number < 16 }
        ensures { result.now ≡ shard_at self.now number }
    {
        &self.shards[number as usize]
    }

    /// Does nothing. Its clause says what holds of every desk: in each shard the entries are the
    /// caller's own, numbered from 0.
    #[tactic(auto, using(crate::proofs::Desks::own_lists))]
    pub fn known(&self)
        ensures { AreLists 0 (history_at self.now) (history_at self.now) }
    {
        let _ = &self.shards;
    }
}

impl<'c> Desk for PlainDesk<'c> {
    type Home = ();

    ghost stands = { λ d. record { caller = 0; chunks = d.chunks; home = tt } };

    ghost seen = { λ d s. history_at d s };

    ghost mine = { λ d s. history_at d s };

    fn call(&mut self, shard: u8, moment: u64, command: Command) -> Result<Answer, Unheld> {
        let shard = &mut self.shards[shard as usize];
        let number = shard.history().len() as u64;
        let answer = match shard.apply(0, number, moment, command) {
            Ok(answer) => answer,
            Err(command) => return Err(Unheld { command }),
        };
        Ok(answer)
    }

    fn publish(&mut self, bytes: List<u8>) -> Result<Arc<Piece>, AllocError> {
        Piece::own(self.alloc, bytes.into_vec())
    }
}
