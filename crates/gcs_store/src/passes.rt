//! A caller's passes, one for the turn of each shard.
use crate::shard::Shard;
use gcs_turn::Pass;
use std::alloc::Global;

/// A caller's right to take turns on the shards of a store: its pass for each, in their order. It tells what the caller has
/// seen of each shard's history, and which entries are its own.
#[derive(Drop)]
pub struct Passes<'c> {
    pub(crate) caller: u32,
    pub(crate) seats: Vec<Pass<Shard<'c>>>,
}

impl<'c> Passes<'c> {
    ghost use Rattle.std.specs.Prelude.{◌≡◌, []};
    ghost use Rattle.gcs_store.specs.Passes.{rows_of};

    /// Passes for no shard, which tell nothing: what stands in the place of those that were lent out. They take no memory.
    pub fn none(alloc: Global) -> Passes<'c>
        ensures { rows_of result ≡ [] }
    {
        Passes {
            caller: 0,
            seats: Vec::new(alloc),
        }
    }
}
