//! The store that callers share: a turn for each shard.
ghost use Rattle.std.specs.Prelude.{◌≡◌, ◌≤◌, ◌<◌, ℕ, [], IfOk, IfErr, vec_capacity};
ghost use mathlib.Core.Option.{some};
ghost use lib.ListN.{get_elem?};

use crate::closing::{Closing, close_turns, gather};
use crate::opening::{add_seats, empty_passes};
use crate::passes::Passes;
use crate::shard::Shard;
use gcs_chunks::Chunks;
use gcs_meaning::SHARDS;
use gcs_turn::Turn;
use std::alloc::{AllocError, Global};
use std::marker::Model;

/// Sixteen shards over the same chunks, on which 1 to 65 callers take turns. Contracts see its chunks, how many callers it
/// has, and which turns are its own; what the callers have seen is told by their passes.
#[derive(Drop)]
pub struct SharedStore<'c> {
    alloc: Global,
    chunks: &'c Chunks,
    callers: u32,
    turns: Vec<Turn<Shard<'c>>>,
}

impl<'c> Model for SharedStore<'c> {
    ghost use Rattle.gcs_store.specs.Store.{AreTurns, StoreValue, store_at};

    ghost Value = { StoreValue };

    ghost view = { λ s. store_at s.chunks.now s.callers s.turns.items };

    ghost invariant = { λ s. AreTurns s.chunks.now s.callers s.turns.items };
}

impl<'c> SharedStore<'c> {
    ghost use Rattle.gcs_turn.specs.Passes.{callers_of, made_with};
    ghost use Rattle.gcs_store.specs.Closed.{AreClosed};
    ghost use Rattle.gcs_store.specs.Passes.{AreAllPassesOf, HasSeenNothing};
    ghost use Rattle.gcs_store.specs.Store.{table_of};

    /// A store without an entry, whose contents are of these chunks, and the passes of each caller from 0 on, which have
    /// seen nothing. No turn takes memory after this but for what a shard keeps. `Err`: no memory.
    pub fn new(
        alloc: Global,
        chunks: &'c Chunks,
        callers: u32,
    ) -> Result<(SharedStore<'c>, Vec<Passes<'c>>), AllocError>
        requires { (1 ≤ callers) × (callers ≤ 65) }
        ensures store { IfOk result (λ made. (made.0.chunks ≡ chunks.now) × (made.0.callers ≡ callers)) }
        ensures passes { IfOk result (λ made. AreAllPassesOf made.0 made.1.items) }
        ensures fresh { IfOk result (λ made. (i : ℕ) (p : _) → get_elem? made.1.items i ≡ some p → HasSeenNothing p) }
    {
        let mut turns = Vec::new(alloc);
        let mut all = empty_passes(alloc, callers)?;
        for _ in 0..SHARDS {
            let (turn, seats) = Turn::new(alloc, Shard::new(alloc, chunks), callers)?;
            add_seats(&mut all, seats)?;
            turns.push(turn)?;
        }
        let store = SharedStore {
            alloc,
            chunks,
            callers,
            turns,
        };
        Ok((store, all))
    }

    /// Where the store's contents lie.
    pub fn chunks(&self) -> &'c Chunks
        ensures { result.now ≡ self.now.chunks }
    {
        self.chunks
    }

    /// Closes the turns by the passes of all callers, and gives the shards out. `Err`: no memory, and no turn is closed:
    /// what is given back can be tried again.
    ///
    /// Each shard has one history. It begins with what each caller had seen, its entries of that caller are those that the
    /// caller made, each once, and it has no others.
    pub fn finish(self, passes: Vec<Passes<'c>>) -> Result<Vec<Shard<'c>>, Closing<'c>>
        requires { AreAllPassesOf self passes.items }
        ensures ok { IfOk result (λ shards. AreClosed self.entry passes.entry.items shards.items) }
        ensures err { IfErr result (λ closing. closing ≡ record { store = self.entry; passes = passes.entry.items }) }
    {
        Closing::new(self, passes).finish()
    }

    // The turn of a shard.
    pub(crate) fn turn(&self, shard: usize) -> &Turn<Shard<'c>>
        requires { shard < 16 }
        ensures table { get_elem? self.now.tables shard ≡ some (table_of result.now) }
        ensures home { (made_with result.now).chunks ≡ self.now.chunks }
        ensures callers { callers_of result.now ≡ self.now.callers }
    {
        &self.turns[shard]
    }

    // A list without a shard, with room for all of them. `Err`: no memory.
    pub(crate) fn room(&self) -> Result<Vec<Shard<'c>>, AllocError>
        ensures { IfOk result (λ shards. (shards.items ≡ []) × (16 ≤ vec_capacity shards)) }
    {
        Vec::with_capacity(self.alloc, SHARDS as usize)
    }

    // Closes each turn by the passes of all callers. It takes no memory.
    pub(crate) fn close(self, passes: Vec<Passes<'c>>, shards: Vec<Shard<'c>>) -> Vec<Shard<'c>>
        requires passes { AreAllPassesOf self passes.items }
        requires room { (shards.items ≡ []) × (16 ≤ vec_capacity shards) }
        ensures { AreClosed self.entry passes.entry.items result.items }
    {
        let SharedStore {
            alloc: _,
            chunks: _,
            callers: _,
            turns,
        } = self;
        let firsts = gather(&turns, passes);
        close_turns(turns, firsts, shards)
    }
}
