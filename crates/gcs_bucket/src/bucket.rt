//! A bucket's slot: what is kept under its name, and the one call that changes it.
ghost use Rattle.std.specs.Prelude.{◌≡◌, IfOk, OnErr, true, false, option_map};
ghost use Rattle.gcs_index.specs.Looks.{AreLooks};
ghost use Rattle.gcs_meaning.specs.Contents.{CommandLiesIn, SlotLiesIn};
ghost use Rattle.gcs_meaning.specs.Fit.{IsFit};
ghost use Rattle.gcs_meaning.specs.Slot.{bucket_row, fresh_slot};
ghost use Rattle.gcs_meaning.specs.Bounds.{IsSmall};
ghost use Rattle.gcs_meaning.specs.Step.{step, IsOnSlot};
ghost use Rattle.gcs_meaning.specs.Making.{NewAreAbove};
ghost use Rattle.gcs_bucket.specs.Commands.{is_list};
ghost use Rattle.gcs_bucket.specs.Covered.{KeepsCovered};
ghost use Rattle.gcs_bucket.specs.Searches.{list_searches, searches_of};
ghost use Rattle.gcs_bucket.specs.Slot.{row_count};

use crate::slot::Slot;
use gcs_chunks::Chunks;
use gcs_meaning::{Answer, BucketName, BucketRow, Command};
use gcs_versions::Steps;
use std::alloc::{AllocError, Global};
use std::marker::Model;
use std::sync::ledger::Ledger;

/// What is kept under the name of a bucket, seen as its slot: the bucket while it is alive, its
/// versions, and the last numbers, which outlive it.
///
/// put a, clock 10   a: 10 live
/// put a, clock 10   a: 10 soft-deleted, 11 live         two generations in one moment
/// put a, clock 5    a: 10 and 11 soft-deleted, 12 live  the moment stays 10
#[derive(Drop)]
pub struct Bucket {
    slot: Slot,
}

impl Model for Bucket {
    ghost use Rattle.gcs_meaning.specs.Slot.{Slot};
    ghost use Rattle.gcs_bucket.specs.Slot.{IsSound, value_of};

    ghost Value = { Slot };

    ghost view = { λ b. value_of b.slot };

    ghost invariant = { λ b. IsSound (value_of b.slot) };
}

impl Bucket {
    /// The slot of a name before the first insert.
    #[tactic(auto, using(crate::proofs::Sound::fresh_sound))]
    pub fn new(alloc: Global) -> Bucket
        ensures { result ≡ fresh_slot }
    {
        Bucket {
            slot: Slot::new(alloc),
        }
    }

    /// The same slot, in memory of its own. `Err`: no memory.
    pub fn copy(&self) -> Result<Bucket, AllocError>
        ensures { IfOk result (λ made. made ≡ self.now) }
    {
        Ok(Bucket {
            slot: self.slot.copy()?,
        })
    }

    /// What is shown of the bucket, where it is alive. `Err`: no memory.
    pub fn show(&self, name: &BucketName) -> Result<Option<BucketRow>, AllocError>
        ensures { IfOk result (λ shown. shown ≡ option_map (bucket_row name.now) self.now.alive) }
    {
        match &self.slot.alive {
            Some(state) => Ok(Some(state.show(name)?)),
            None => Ok(None),
        }
    }

    /// One command, whose request took the clock's reading `moment` (microseconds since 1970). The
    /// slot is aged first, then tested, then changed; a refusal is an answer. `steps` counts the
    /// looks at the versions.
    ///
    /// `Err`: no memory, and the slot stays as it was, not even aged.
    pub fn apply<L: Ledger>(
        &mut self,
        moment: u64,
        command: &Command,
        chunks: &Chunks,
        steps: &mut Steps<L>,
    ) -> Result<Answer, AllocError>
        requires small { IsSmall self.old }
        requires in_range { IsOnSlot command.now }
        requires lies { SlotLiesIn chunks.now self.old }
        requires contents { CommandLiesIn chunks.now command.now }
        ensures done { IfOk result (λ answer. step self.old moment command.now ≡ (answer, self.new)) }
        ensures err { OnErr result (self.new ≡ self.old) }
        ensures fit { IsFit self.new }
        ensures covered { KeepsCovered moment self.old self.new }
        ensures rises { NewAreAbove self.old self.new }
        ensures looks { is_list command.now ≡ false → AreLooks (searches_of command.now) (row_count self.old) steps.old steps.new }
        ensures page_looks { is_list command.now ≡ true → IfOk result (λ answer.
            AreLooks (list_searches moment self.old command.now answer) (row_count self.old) steps.old steps.new) }
    {
        self.slot.apply(moment, command, chunks, steps)
    }
}
