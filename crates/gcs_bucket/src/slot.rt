//! The fields of a bucket's slot, and the one call on them.
ghost use Rattle.std.specs.Prelude.{◌≡◌, ◌≤◌, ℕ, List, IfOk, OnErr, OnOk, true, false, vec_len, vec_capacity};
ghost use Rattle.gcs_index.specs.Looks.{AreLooks};
ghost use Rattle.gcs_meaning.specs.Aging.{aged};
ghost use Rattle.gcs_meaning.specs.Contents.{CommandLiesIn, SlotLiesIn};
ghost use Rattle.gcs_meaning.specs.Slot.{fresh_slot};
ghost use Rattle.gcs_meaning.specs.Step.{step, IsOnSlot};
ghost use Rattle.gcs_bucket.specs.Alive.{CanPut, CanRetire};
ghost use Rattle.gcs_bucket.specs.Commands.{is_list, IsOfStored, IsOnUpload, IsOnVersion};
ghost use Rattle.gcs_bucket.specs.Searches.{list_searches, searches_of};
ghost use Rattle.gcs_bucket.specs.Slot.{row_count, value_of, IsReady};

use crate::alive::State;
use crate::graves::{Grave, age_graves, copy_graves};
use gcs_chunks::Chunks;
use gcs_meaning::{Answer, Command, Name};
use gcs_versions::Steps;
use std::alloc::{AllocError, Global};
use std::sync::ledger::Ledger;

/// The fields of a slot. The deleted buckets and the four numbers outlive the deletion of its bucket.
pub struct Slot {
    pub alloc: Global,
    pub alive: Option<State>,
    pub graves: Vec<Grave>,
    pub last_moment: u64,
    pub last_object: u64,
    pub last_bucket: u64,
    pub next_upload: u64,
}

impl Drop for Slot {
    fn drop(self) {
        let Slot {
            alloc: _,
            alive,
            graves,
            last_moment: _,
            last_object: _,
            last_bucket: _,
            next_upload: _,
        } = self;
        drop(alive);
        drop(graves);
    }
}

impl Slot {
    /// The slot before the first insert.
    pub fn new(alloc: Global) -> Slot
        ensures { value_of result ≡ fresh_slot }
    {
        Slot {
            alloc,
            alive: None,
            graves: Vec::new(alloc),
            last_moment: 0,
            last_object: 0,
            last_bucket: 0,
            next_upload: 1,
        }
    }

    /// The same slot, in memory of its own. `Err`: no memory.
    pub fn copy(&self) -> Result<Slot, AllocError>
        ensures { IfOk result (λ made. value_of made ≡ value_of self.now) }
    {
        let alive = match &self.alive {
            Some(state) => Some(state.copy()?),
            None => None,
        };
        Ok(Slot {
            alloc: self.alloc,
            alive,
            graves: copy_graves(self.alloc, &self.graves)?,
            last_moment: self.last_moment,
            last_object: self.last_object,
            last_bucket: self.last_bucket,
            next_upload: self.next_upload,
        })
    }

    /// One command, whose request took this reading. `Err`: no memory, and nothing is changed.
    pub fn apply<L: Ledger>(
        &mut self,
        reading: u64,
        command: &Command,
        chunks: &Chunks,
        steps: &mut Steps<L>,
    ) -> Result<Answer, AllocError>
        requires ready { IsReady (value_of self.old) }
        requires in_range { IsOnSlot command.now }
        requires lies { SlotLiesIn chunks.now (value_of self.old) }
        requires contents { CommandLiesIn chunks.now command.now }
        ensures done { IfOk result (λ answer. step (value_of self.old) reading command.now ≡ (answer, value_of self.new)) }
        ensures err { OnErr result (value_of self.new ≡ value_of self.old) }
        ensures looks { is_list command.now ≡ false → AreLooks (searches_of command.now) (row_count (value_of self.old)) steps.old steps.new }
        ensures page_looks { is_list command.now ≡ true → IfOk result (λ answer.
            AreLooks (list_searches reading (value_of self.old) command.now answer) (row_count (value_of self.old)) steps.old steps.new) }
    {
        match command {
            Command::BucketInsert { bucket, settings } => self.insert(reading, bucket, settings),
            Command::BucketGet { bucket, pre } => self.get_bucket(reading, bucket, pre),
            Command::BucketChange {
                bucket,
                pre,
                change,
                whole,
            } => self.change_bucket(reading, bucket, pre, change, *whole),
            Command::BucketDelete { bucket: _, pre } => self.delete_bucket(reading, pre),
            Command::BucketLock { bucket, pre } => self.lock_bucket(reading, bucket, pre),
            Command::BucketRestore { bucket, generation } => {
                self.restore_bucket(reading, bucket, *generation)
            }
            Command::List { bucket: _, query } => self.list(reading, query, steps),
            Command::Start { .. }
            | Command::Append { .. }
            | Command::Finish { .. }
            | Command::Cancel { .. } => self.apply_to_upload(reading, command, chunks, steps),
            _ => self.apply_to_version(reading, command, steps),
        }
    }

    // One command on a version.
    fn apply_to_version<L: Ledger>(
        &mut self,
        reading: u64,
        command: &Command,
        steps: &mut Steps<L>,
    ) -> Result<Answer, AllocError>
        requires ready { IsReady (value_of self.old) }
        requires version { IsOnVersion command.now }
        ensures done { IfOk result (λ answer. step (value_of self.old) reading command.now ≡ (answer, value_of self.new)) }
        ensures err { OnErr result (value_of self.new ≡ value_of self.old) }
        ensures looks { AreLooks (searches_of command.now) (row_count (value_of self.old)) steps.old steps.new }
    {
        match command {
            Command::Get {
                bucket: _,
                name,
                generation,
                soft,
                pre,
            } => self.get(reading, name, *generation, *soft, pre, steps),
            Command::Change {
                bucket: _,
                name,
                generation,
                pre,
                change,
                whole,
            } => self.change(reading, name, *generation, pre, change, *whole, steps),
            Command::Delete {
                bucket: _,
                name,
                generation,
                pre,
            } => self.delete(reading, name, *generation, pre, steps),
            Command::Put {
                bucket: _,
                name,
                pre,
                meta,
                hashed,
                components,
                expect,
            } => self.put(reading, name, pre, meta, hashed, *components, expect, steps),
            _ => self.apply_to_stored(reading, command, steps),
        }
    }

    // One command that makes a version of what is stored.
    fn apply_to_stored<L: Ledger>(
        &mut self,
        reading: u64,
        command: &Command,
        steps: &mut Steps<L>,
    ) -> Result<Answer, AllocError>
        requires ready { IsReady (value_of self.old) }
        requires stored { IsOfStored command.now }
        ensures done { IfOk result (λ answer. step (value_of self.old) reading command.now ≡ (answer, value_of self.new)) }
        ensures err { OnErr result (value_of self.new ≡ value_of self.old) }
        ensures looks { AreLooks (searches_of command.now) (row_count (value_of self.old)) steps.old steps.new }
    {
        match command {
            Command::Compose {
                bucket: _,
                name,
                pre,
                meta,
                parts,
            } => self.compose(reading, name, pre, meta, parts, steps),
            Command::Restore {
                bucket: _,
                name,
                generation,
                pre,
            } => self.restore(reading, name, *generation, pre, steps),
            _ => unreachable!(),
        }
    }

    // One command on an upload.
    fn apply_to_upload<L: Ledger>(
        &mut self,
        reading: u64,
        command: &Command,
        chunks: &Chunks,
        steps: &mut Steps<L>,
    ) -> Result<Answer, AllocError>
        requires ready { IsReady (value_of self.old) }
        requires upload { IsOnUpload command.now }
        requires lies { SlotLiesIn chunks.now (value_of self.old) }
        requires contents { CommandLiesIn chunks.now command.now }
        ensures done { IfOk result (λ answer. step (value_of self.old) reading command.now ≡ (answer, value_of self.new)) }
        ensures err { OnErr result (value_of self.new ≡ value_of self.old) }
        ensures looks { AreLooks (searches_of command.now) (row_count (value_of self.old)) steps.old steps.new }
    {
        match command {
            Command::Start {
                bucket: _,
                name,
                pre,
                meta,
                expect,
                total,
            } => self.start(reading, name, pre, meta, expect, *total),
            Command::Append {
                bucket: _,
                upload,
                offset,
                total,
                content,
            } => self.append(reading, *upload, *offset, *total, content),
            Command::Finish {
                bucket: _,
                upload,
                hashed,
            } => self.finish(reading, *upload, hashed, chunks, steps),
            Command::Cancel { bucket: _, upload } => self.cancel(reading, *upload),
            _ => unreachable!(),
        }
    }

    /// Takes away what has passed its hard time. What was prepared stays prepared.
    pub fn age(&mut self, moment: u64)
        ensures value { value_of self.new ≡ aged (value_of self.old) moment }
        ensures put { (name : List ℕ) → CanPut name self.old.alive → CanPut name self.new.alive }
        ensures retire { (name : List ℕ) → CanRetire name self.old.alive → CanRetire name self.new.alive }
        ensures fewer { vec_len self.new.graves ≤ vec_len self.old.graves }
        ensures capacity { vec_capacity self.new.graves ≡ vec_capacity self.old.graves }
    {
        self.last_moment = moment;
        if let Some(state) = &mut self.alive {
            state.age(moment);
        }
        age_graves(&mut self.graves, moment);
    }

    /// Takes the memory of one put and one retirement of that name, in the bucket that is alive. Nothing that is seen
    /// changes. `Err`: no memory.
    pub fn prepare(&mut self, name: &Name) -> Result<(), AllocError>
        ensures value { value_of self.new ≡ value_of self.old }
        ensures put { OnOk result (CanPut name.now self.new.alive) }
        ensures retire { OnOk result (CanRetire name.now self.new.alive) }
    {
        match &mut self.alive {
            Some(state) => state.rows.prepare(name),
            None => Ok(()),
        }
    }
}
