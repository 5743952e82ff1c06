//! The versions of a bucket, behind the calls that change and find them.
ghost use Rattle.std.specs.Prelude.{◌≡◌, ◌≢◌, ◌≤◌, ◌<◌, ◌+◌, ◌^◌, ℕ, [], ◌∷◌, true, not, Some, None, List, length, IfOk, OnErr, OnOk};
ghost use Rattle.std.specs.List.{find, list_any};
ghost use Rattle.std.specs.Option.{ForSome, option_copied};
ghost use Rattle.gcs_index.specs.Looks.{AreLooks};
ghost use Rattle.gcs_meaning.specs.Aging.{aged_rows, kind_stays};
ghost use Rattle.gcs_meaning.specs.BucketDeletion.{latest_hard};
ghost use Rattle.gcs_meaning.specs.Choosing.{chosen_row, is_live, is_readable, live_row};
ghost use Rattle.gcs_meaning.specs.Order.{is_at_least, shown_rows, unit_at, AreVersions, IsNumbered};
ghost use Rattle.gcs_meaning.specs.Put.{with_row};
ghost use Rattle.gcs_meaning.specs.Retiring.{change_first, retired_row};
ghost use Rattle.gcs_versions.specs.Kept.{IsReadyToPut, IsReadyToRetire};
ghost use Rattle.gcs_versions.specs.Rows.{changed_version, is_version};

use crate::keys::{At, DueKey, Named, VersionKey};
use crate::preparing::{ForPut, ForRetirement, prepare};
use crate::slots::{Stored, row_in, set_kind, set_meta, slot_in};
use gcs_index::{Entry, Index, Steps};
use gcs_meaning::{Kind, Meta, Name, Retired, Row, View};
use slab::Slab;
use std::alloc::{AllocError, Global};
use std::marker::Model;
use std::sync::ledger::Ledger;

/// The versions of a bucket, seen as their rows, which rise by name and generation, and what is prepared for a change. A name
/// has at most one live version. Moments are microseconds since 1970.
///
/// ```text
/// put a, generation 10             a: 10 live
/// retire a 10 to noncurrent        a: 10 noncurrent
/// put a, generation 11             a: 10 noncurrent, 11 live
/// age                              soft-deleted rows go at their hard times, and no others
/// ```
///
/// Each row stands once, in a slot. Five indexes lead to the slots: all versions, those that are live or noncurrent, the live
/// ones and the soft-deleted ones, each by name and generation, and the soft-deleted ones by hard time.
pub struct Versions {
    alloc: Global,
    slots: Slab<Stored>,
    all: Index<VersionKey, usize>,
    readable: Index<VersionKey, usize>,
    live: Index<VersionKey, usize>,
    soft: Index<VersionKey, usize>,
    due: Index<DueKey, usize>,
    to_put: Option<ForPut>,
    to_retire: Option<ForRetirement>,
}

impl Model for Versions {
    ghost use Rattle.gcs_versions.specs.Indexes.{rows_at};
    ghost use Rattle.gcs_versions.specs.Kept.{Kept, IsKept};
    ghost use Rattle.gcs_versions.specs.Ready.{put_name, retirement_name};

    ghost Value = { Kept };

    ghost view = { λ v. record { rows = rows_at v.slots v.all.entries; to_put = put_name v.to_put; to_retire = retirement_name v.to_retire } };

    ghost invariant = { λ v. IsKept v.slots v.all v.readable v.live v.soft v.due v.to_put v.to_retire };
}

impl Drop for Versions {
    // Its own, so that a caller's proof sees one call and not each field.
    fn drop(self) {
        let Versions {
            alloc: _,
            slots,
            all,
            readable,
            live,
            soft,
            due,
            to_put,
            to_retire,
        } = self;
        drop(slots);
        drop(all);
        drop(readable);
        drop(live);
        drop(soft);
        drop(due);
        drop(to_put);
        drop(to_retire);
    }
}

impl Versions {
    /// No versions, whose memory comes from `alloc`.
    pub fn new(alloc: Global) -> Versions
        ensures { result.rows ≡ [] }
    {
        Versions {
            alloc,
            slots: Slab::new(alloc),
            all: Index::new(alloc),
            readable: Index::new(alloc),
            live: Index::new(alloc),
            soft: Index::new(alloc),
            due: Index::new(alloc),
            to_put: None,
            to_retire: None,
        }
    }

    /// Does nothing. Its clause says what holds of all versions that are kept: they rise strictly by
    /// name and generation, and a name has at most one live version.
    pub fn known(&self)
        ensures { AreVersions self.now.rows }
    {
        let _ = &self.slots;
    }

    /// The version of that name and generation, of any kind. One search.
    pub fn get<L: Ledger>(&self, name: &Name, generation: u64, steps: &mut Steps<L>) -> Option<&Row>
        ensures found { option_copied result ≡ find (is_version name.now generation) self.now.rows }
        ensures some { steps.old + 1 ≤ steps.new }
        ensures looks { AreLooks 1 (length self.now.rows) steps.old steps.new }
    {
        let name = name.as_bytes();
        let slot = self.all.find(&At { name, generation }, steps)?;
        row_in(&self.slots, *slot)
    }

    /// The live version of the name. One search.
    pub fn live<L: Ledger>(&self, name: &Name, steps: &mut Steps<L>) -> Option<&Row>
        ensures found { option_copied result ≡ live_row name.now self.now.rows }
        ensures some { steps.old + 1 ≤ steps.new }
        ensures looks { AreLooks 1 (length self.now.rows) steps.old steps.new }
    {
        let name = name.as_bytes();
        let slot = self.live.find(&Named { name }, steps)?;
        row_in(&self.slots, *slot)
    }

    /// The first version of the view whose name and generation are at least these. One search.
    pub fn seek<L: Ledger>(
        &self,
        view: View,
        bound: &[u8],
        number: u64,
        steps: &mut Steps<L>,
    ) -> Option<&Row>
        ensures found { option_copied result ≡ find (is_at_least (unit_at bound.now number)) (shown_rows view self.now.rows) }
        ensures some { steps.old + 1 ≤ steps.new }
        ensures looks { AreLooks 1 (length self.now.rows) steps.old steps.new }
    {
        let shown = match view {
            View::Live => &self.live,
            View::Versions => &self.readable,
            View::Soft => &self.soft,
        };
        let from = At {
            name: bound,
            generation: number,
        };
        let place = shown.seek(&from, steps)?;
        row_in(&self.slots, *shown.at(place).1)
    }

    /// Takes the memory of one put and one retirement of that name, in the place of what was prepared for another. `Err`: no
    /// memory, and what was prepared still is.
    #[tactic(auto, unfolding(crate::specs::Kept::IsReadyToPut, crate::specs::Kept::IsReadyToRetire))]
    pub fn prepare(&mut self, name: &Name) -> Result<(), AllocError>
        ensures rows { self.new.rows ≡ self.old.rows }
        ensures ready { OnOk result (IsReadyToPut name.now self.new × IsReadyToRetire name.now self.new) }
        ensures put { OnErr result ((other : List ℕ) → IsReadyToPut other self.old → IsReadyToPut other self.new) }
        ensures retire { OnErr result ((other : List ℕ) → IsReadyToRetire other self.old → IsReadyToRetire other self.new) }
    {
        self.slots.reserve(1)?;
        self.all.reserve_one()?;
        self.readable.reserve_one()?;
        self.live.reserve_one()?;
        self.soft.reserve_one()?;
        self.due.reserve_one()?;
        let (to_put, to_retire) = prepare(self.alloc, name)?;
        self.to_put = Some(to_put);
        self.to_retire = Some(to_retire);
        Ok(())
    }

    /// Adds a live version, whose generation is from 1 on. It was prepared, and the name has neither
    /// that generation nor a live version.
    #[tactic(auto, unfolding(crate::specs::Kept::IsReadyToPut, crate::specs::Kept::IsReadyToRetire))]
    pub fn put(&mut self, row: Row)
        requires ready { IsReadyToPut row.name self.old }
        requires absent { find (is_version row.name row.generation) self.old.rows ≡ None }
        requires no_live { live_row row.name self.old.rows ≡ None }
        requires live { is_live row.kind ≡ true }
        requires numbered { IsNumbered row }
        ensures { self.new.rows ≡ with_row row self.old.rows }
    {
        let Some(names) = self.to_put.take() else {
            unreachable!()
        };
        let generation = row.generation;
        let slot = self.slots.insert_reserved(Stored { row });
        self.all
            .insert(VersionKey::new(names.all, generation), slot);
        self.readable
            .insert(VersionKey::new(names.readable, generation), slot);
        self.live
            .insert(VersionKey::new(names.live, generation), slot);
    }

    /// Takes the live or noncurrent version of that generation away at `moment`. It was prepared.
    #[tactic(auto, unfolding(crate::specs::Kept::IsReadyToPut, crate::specs::Kept::IsReadyToRetire))]
    pub fn retire(&mut self, name: &Name, generation: u64, to: Retired, moment: u64)
        requires ready { IsReadyToRetire name.now self.old }
        requires there { chosen_row name.now (Some generation) self.old.rows ≢ None }
        ensures rows { self.new.rows ≡ change_first (is_version name.now generation) (retired_row to moment) self.old.rows }
        ensures ready { IsReadyToPut name.now self.old → IsReadyToPut name.now self.new }
    {
        let Some(ForRetirement { soft, due }) = self.to_retire.take() else {
            unreachable!()
        };
        let key = VersionKey::new(soft, generation);
        let Some(slot) = slot_in(&self.all, name, generation) else {
            unreachable!()
        };
        self.live.remove(&key);
        match to {
            Retired::Noncurrent => set_kind(&mut self.slots, slot, Kind::Noncurrent { at: moment }),
            Retired::Soft { hard } => {
                set_kind(&mut self.slots, slot, Kind::Soft { at: moment, hard });
                self.readable.remove(&key);
                self.soft.insert(key, slot);
                let version = VersionKey::new(due, generation);
                self.due.insert(DueKey { hard, version }, slot);
            }
            Retired::Out => {
                self.readable.remove(&key);
                self.all.remove(&key);
                self.slots.try_remove(slot);
            }
        }
    }

    /// Gives the version of that name and generation, which is there, other metadata and another
    /// start of its retention at `moment`.
    pub fn change(
        &mut self,
        name: &Name,
        generation: u64,
        meta: Meta,
        retention_start: u64,
        moment: u64,
    )
        requires there { find (is_version name.now generation) self.old.rows ≢ None }
        requires room { ForSome (find (is_version name.now generation) self.old.rows) (λ row. row.metageneration + 1 < 2 ^ 64) }
        ensures { self.new.rows ≡ change_first (is_version name.now generation) (λ row. changed_version meta retention_start moment row ∷ []) self.old.rows }
    {
        let Some(slot) = slot_in(&self.all, name, generation) else {
            unreachable!()
        };
        set_meta(&mut self.slots, slot, meta, retention_start, moment);
    }

    /// Takes away the soft-deleted versions whose hard time is at most `moment`. What was prepared
    /// stays prepared.
    #[tactic(auto, unfolding(crate::specs::Kept::IsReadyToPut, crate::specs::Kept::IsReadyToRetire))]
    pub fn age(&mut self, moment: u64)
        ensures rows { self.new.rows ≡ aged_rows moment self.old.rows }
        ensures put { (name : List ℕ) → IsReadyToPut name self.old → IsReadyToPut name self.new }
        ensures retire { (name : List ℕ) → IsReadyToRetire name self.old → IsReadyToRetire name self.new }
    {
        while self.has_due(moment) {
            self.drop_first_due(moment);
        }
    }

    // The hard time of a version has come.
    fn has_due(&self, moment: u64) -> bool
        ensures { result ≡ list_any (λ row. not (kind_stays moment row.kind)) self.now.rows }
    {
        match self.due.first() {
            Some(first) => self.due.at(first).0.hard <= moment,
            None => false,
        }
    }

    // Takes away the soft-deleted version whose hard time comes first, which has come.
    fn drop_first_due(&mut self, moment: u64)
        requires due { list_any (λ row. not (kind_stays moment row.kind)) self.old.rows ≡ true }
        ensures rows { aged_rows moment self.new.rows ≡ aged_rows moment self.old.rows }
        ensures fewer { length self.new.rows < length self.old.rows }
        ensures put { self.new.to_put ≡ self.old.to_put }
        ensures retire { self.new.to_retire ≡ self.old.to_retire }
    {
        if let Some(Entry { key, value: slot }) = self.due.pop_first() {
            self.soft.remove(&key.version);
            self.all.remove(&key.version);
            self.slots.try_remove(slot);
        }
    }

    /// One of the versions is live or noncurrent.
    pub fn has_readable(&self) -> bool
        ensures { result ≡ list_any (λ row. is_readable row.kind) self.now.rows }
    {
        !self.readable.is_empty()
    }

    /// The latest hard time of the soft-deleted versions, 0 where there are none.
    pub fn latest_hard(&self) -> u64
        ensures { result ≡ latest_hard self.now.rows }
    {
        match self.due.last() {
            Some(last) => self.due.at(last).0.hard,
            None => 0,
        }
    }

    /// The same versions, in memory of their own, with nothing prepared. `Err`: no memory.
    pub fn copy(&self) -> Result<Versions, AllocError>
        ensures { IfOk result (λ made. made.rows ≡ self.now.rows) }
    {
        Ok(Versions {
            alloc: self.alloc,
            slots: self.slots.clone()?,
            all: self.all.copy()?,
            readable: self.readable.copy()?,
            live: self.live.copy()?,
            soft: self.soft.copy()?,
            due: self.due.copy()?,
            to_put: None,
            to_retire: None,
        })
    }
}
