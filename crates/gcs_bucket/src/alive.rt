//! A bucket that is alive: its settings, its numbers, its versions and its uploads.
ghost use Rattle.std.specs.Prelude.{◌≡◌, ℕ, IfOk, List};
ghost use Rattle.gcs_meaning.specs.Aging.{aged_state};
ghost use Rattle.gcs_meaning.specs.Slot.{bucket_row};
ghost use Rattle.gcs_versions.specs.Kept.{IsReadyToPut, IsReadyToRetire};
ghost use Rattle.gcs_bucket.specs.Alive.{state_of};

use gcs_meaning::{BucketName, BucketRow, Copied, Settings};
use gcs_uploads::Uploads;
use gcs_versions::Versions;
use std::alloc::AllocError;

/// The fields of a bucket that is alive. Moments are microseconds since 1970.
pub struct State {
    pub settings: Settings,
    pub generation: u64,
    pub metageneration: u64,
    pub created: u64,
    pub updated: u64,
    pub rows: Versions,
    pub uploads: Uploads,
}

impl Drop for State {
    fn drop(self) {
        let State {
            settings,
            generation: _,
            metageneration: _,
            created: _,
            updated: _,
            rows,
            uploads,
        } = self;
        drop(settings);
        drop(rows);
        drop(uploads);
    }
}

impl State {
    /// The same bucket, in memory of its own. `Err`: no memory.
    pub fn copy(&self) -> Result<State, AllocError>
        ensures { IfOk result (λ made. state_of made ≡ state_of self.now) }
    {
        Ok(State {
            settings: self.settings.copy()?,
            generation: self.generation,
            metageneration: self.metageneration,
            created: self.created,
            updated: self.updated,
            rows: self.rows.copy()?,
            uploads: self.uploads.copy()?,
        })
    }

    /// What is shown of the bucket. `Err`: no memory.
    pub fn show(&self, name: &BucketName) -> Result<BucketRow, AllocError>
        ensures { IfOk result (λ row. row ≡ bucket_row name.now (state_of self.now)) }
    {
        Ok(BucketRow {
            name: name.copy()?,
            generation: self.generation,
            metageneration: self.metageneration,
            created: self.created,
            updated: self.updated,
            settings: self.settings.copy()?,
        })
    }

    /// Takes away what has passed its hard time. What was prepared stays prepared.
    #[tactic(auto, unfolding(gcs_meaning::specs::Aging::aged_state, gcs_meaning::specs::Uploads::aged_uploads))]
    pub fn age(&mut self, moment: u64)
        ensures state { state_of self.new ≡ aged_state moment (state_of self.old) }
        ensures put { (name : List ℕ) → IsReadyToPut name self.old.rows → IsReadyToPut name self.new.rows }
        ensures retire { (name : List ℕ) → IsReadyToRetire name self.old.rows → IsReadyToRetire name self.new.rows }
    {
        self.rows.age(moment);
        self.uploads.age(moment);
    }
}
