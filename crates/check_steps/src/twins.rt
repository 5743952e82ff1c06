//! The store and the plain store, side by side.
ghost use Rattle.std.specs.Prelude.{◌≡◌};
ghost use Rattle.check_steps.specs.Commands.{IsAskable};

use crate::comparing::is_same;
use crate::kept::{Slot, Wanted};
use crate::kinds::{Missing, kind_text};
use gcs_chunks::Chunks;
use gcs_meaning::Command;
use gcs_store::Shard;
use std::alloc::{AllocError, Global};

/// A shard of the store with the name of one bucket, and the plain store of that name.
#[derive(Drop)]
pub struct Twins<'c> {
    alloc: Global,
    chunks: &'c Chunks,
    shard: Shard<'c>,
    pub slot: Slot,
    // What the shard answers is read in these chunks.
    ghost of_chunks: { shard.chunks ≡ chunks.now },
}

impl<'c> Twins<'c> {
    /// Both without a bucket.
    pub fn new(alloc: Global, chunks: &'c Chunks) -> Twins<'c> {
        Twins {
            alloc,
            chunks,
            shard: Shard::new(alloc, chunks),
            slot: Slot::new(alloc),
        }
    }

    /// Makes the command on both, and answers what was wanted where the store answers something else. `Err`: no memory.
    pub fn step(
        &mut self,
        moment: u64,
        command: Command,
        missing: &mut Missing,
    ) -> Result<Option<String>, AllocError>
        requires { IsAskable command }
    {
        let wanted = self.slot.apply(moment, &command, self.chunks)?;
        let text = kind_text(self.alloc, &wanted)?;
        missing.note(text.as_str());
        if self.answers(moment, command, &wanted)? {
            return Ok(None);
        }
        Ok(Some(text))
    }

    // Whether the store answers the command so, and the slots are alike then. `Err`: no memory.
    fn answers(
        &mut self,
        moment: u64,
        command: Command,
        wanted: &Wanted,
    ) -> Result<bool, AllocError>
        requires { IsAskable command }
    {
        let Ok(found) = self.shard.apply(0, 0, moment, command) else {
            return Err(AllocError);
        };
        is_same(self.alloc, self.chunks, &found, wanted, &self.slot)
    }
}
