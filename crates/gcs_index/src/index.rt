//! The index: values by their keys.
ghost use Rattle.std.specs.Prelude.{◌≡◌, ◌≤◌, ◌<◌, ◌+◌, [], ◌∷◌, not, length, slice_get, ◌==◌, IfNone, IfOk, IfSome, None, OnErr, OnOk, Some};
ghost use Rattle.std.specs.List.{find};
ghost use Rattle.std.specs.Option.{option_copied};
ghost use Rattle.std.specs.Ordering.{is_eq, is_gt};
ghost use Rattle.gcs_index.specs.Entries.{entry_of, number_of, position, stands_at, value_in, with_entry, without_key, IsGood, IsSplit, Rises};
ghost use Rattle.gcs_index.specs.Looks.{AreLooks};

use crate::blocks::{Block, Entry, Place};
use crate::copying::copy_blocks;
use crate::editing::{insert_at, keep};
use crate::probe::Probe;
use crate::removing::remove_at;
use crate::seeking::{entry_in, find_in, first_in, last_in, seek_in, settled};
use crate::steps::Steps;
use std::alloc::{AllocError, Global};
use std::marker::{Brand, Model};
use std::sync::ledger::{Blank, Ledger};

/// Values by their keys, each key once. Contracts see a `Shelf`: the entries, rising by key; how many blocks stand ready for
/// insertions (`spare`); and how many entries each block has (`sizes`), which only places read.
///
/// ```text
/// insert 3 c    3 c
/// insert 1 a    1 a, 3 c
/// find 2        none
/// seek 2        the place of 3 c
/// remove 1      3 c                 and it gives a
/// ```
///
/// A change moves at most the entries of two blocks, and the list of blocks, a block some 128 entries at least.
#[derive(Drop)]
pub struct Index<K: Ord, V> {
    blocks: Vec<Block<K, V>>,
    spare: Vec<Block<K, V>>,
}

impl<K: Ord, V> Model for Index<K, V> {
    ghost use Rattle.std.specs.Prelude.{vec_len};
    ghost use Rattle.gcs_index.specs.Blocks.{entries_of, sizes_of, IsIndex};
    ghost use Rattle.gcs_index.specs.Entries.{Shelf};

    ghost Value = { Shelf K V };

    ghost view = { λ x. record { entries = entries_of x.blocks.items; spare = vec_len x.spare; sizes = sizes_of x.blocks.items } };

    ghost invariant = { λ x. IsIndex K.cmp x.blocks x.spare };
}

impl<K: Ord + Drop, V: Drop> Index<K, V> {
    /// No entries, and no block that stands ready. It takes no memory.
    pub fn new(alloc: Global) -> Index<K, V>
        ensures entries { result.entries ≡ [] }
        ensures spare { result.spare ≡ 0 }
    {
        Index {
            blocks: Vec::new(alloc),
            spare: Vec::new(alloc),
        }
    }

    /// Does nothing. Its clause says what holds of all indexes: each key is below those after it.
    pub fn known(&self)
        ensures { Rises K.cmp self.now.entries }
    {
        let _ = &self.blocks;
    }

    /// Makes one insertion possible that takes no memory, where none is so far. `Err`: no memory.
    pub fn reserve_one(&mut self) -> Result<(), AllocError>
        ensures ok { OnOk result (1 ≤ self.new.spare) }
        ensures err { OnErr result (self.new ≡ self.old) }
        ensures entries { self.new.entries ≡ self.old.entries }
        ensures sizes { self.new.sizes ≡ self.old.sizes }
        ensures spare { self.old.spare ≤ self.new.spare }
    {
        if self.spare.is_empty() {
            let alloc = *self.blocks.allocator();
            self.blocks.reserve(1)?;
            self.spare.reserve(self.blocks.len() + 1)?;
            keep(&mut self.spare, Block::new(alloc)?);
        }
        Ok(())
    }

    /// Puts in a key that isn't there, with its value. It takes no memory, and one of the blocks that stand ready at most.
    pub fn insert(&mut self, key: K, value: V)
        requires spare { 1 ≤ self.old.spare }
        requires absent { find (λ e. is_eq (K.cmp key e.key)) self.old.entries ≡ None }
        ensures entries { self.new.entries ≡ with_entry K.cmp (entry_of key value) self.old.entries }
        ensures spare { self.old.spare ≤ self.new.spare + 1 }
    {
        self.insert_on::<Brand>(Blank::new(1), key, value);
    }

    // Its own looks are counted on a ledger that nobody reads.
    fn insert_on<L: Ledger>(&mut self, blank: Blank, key: K, value: V)
        requires name { blank.name ≡ L.name }
        requires parts { blank.parts ≡ L.parts }
        requires some { 1 ≤ blank.parts }
        requires spare { 1 ≤ self.old.spare }
        requires absent { find (λ e. is_eq (K.cmp key e.key)) self.old.entries ≡ None }
        ensures entries { self.new.entries ≡ with_entry K.cmp (entry_of key value) self.old.entries }
        ensures spare { self.old.spare ≤ self.new.spare + 1 }
    {
        let mut steps = Steps::<L>::new(blank);
        let place = seek_in(self.blocks.as_slice(), &key, &mut steps);
        insert_at(
            &mut self.blocks,
            &mut self.spare,
            place.block,
            place.at,
            Entry { key, value },
        );
    }

    /// Takes a key out, and gives its value where the key was there. It takes no memory, and what stood ready still does.
    pub fn remove(&mut self, key: &K) -> Option<V>
        ensures value { result ≡ value_in (find (λ e. is_eq (K.cmp key.now e.key)) self.old.entries) }
        ensures entries { self.new.entries ≡ without_key K.cmp key.now self.old.entries }
        ensures spare { self.old.spare ≤ self.new.spare }
    {
        self.remove_on::<Brand>(Blank::new(1), key)
    }

    // As `insert_on`.
    fn remove_on<L: Ledger>(&mut self, blank: Blank, key: &K) -> Option<V>
        requires name { blank.name ≡ L.name }
        requires parts { blank.parts ≡ L.parts }
        requires some { 1 ≤ blank.parts }
        ensures value { result ≡ value_in (find (λ e. is_eq (K.cmp key.now e.key)) self.old.entries) }
        ensures entries { self.new.entries ≡ without_key K.cmp key.now self.old.entries }
        ensures spare { self.old.spare ≤ self.new.spare }
    {
        let mut steps = Steps::<L>::new(blank);
        let place = find_in(self.blocks.as_slice(), key, &mut steps)?;
        let entry = remove_at(&mut self.blocks, &mut self.spare, place.block, place.at);
        Some(entry.value)
    }

    /// Takes the least key out, with its value. It takes no memory, and what stood ready still does.
    pub fn pop_first(&mut self) -> Option<Entry<K, V>>
        ensures some { IfSome result (λ first. self.old.entries ≡ first ∷ self.new.entries) }
        ensures none { IfNone result (self.old.entries ≡ [] × self.new.entries ≡ []) }
        ensures spare { self.old.spare ≤ self.new.spare }
    {
        if self.blocks.is_empty() {
            return None;
        }
        let entry = remove_at(&mut self.blocks, &mut self.spare, 0, 0);
        Some(entry)
    }

    /// The value of the first key that equals the probe. Each look at a key is a step, and so is the finding that there are none.
    pub fn find<Q: Probe<K>, L: Ledger>(&self, key: &Q, steps: &mut Steps<L>) -> Option<&V>
        ensures found { option_copied result ≡ value_in (find (λ e. is_eq (Q.stands key.now e.key)) self.now.entries) }
        ensures some { steps.old + 1 ≤ steps.new }
        ensures looks { AreLooks 1 (length self.now.entries) steps.old steps.new }
    {
        let blocks = self.blocks.as_slice();
        let place = find_in(blocks, key, steps)?;
        Some(&entry_in(blocks, place).value)
    }

    /// The place of the first key that isn't below the bound. Steps are counted as by `find`.
    pub fn seek<Q: Probe<K>, L: Ledger>(&self, bound: &Q, steps: &mut Steps<L>) -> Option<Place>
        ensures good { IfSome result (IsGood self.now.sizes) }
        ensures split { IsSplit (stands_at Q.stands bound.now) self.now.entries (number_of self.now result) }
        ensures found { slice_get self.now.entries (number_of self.now result) ≡ find (λ e. not (is_gt (Q.stands bound.now e.key))) self.now.entries }
        ensures some { steps.old + 1 ≤ steps.new }
        ensures looks { AreLooks 1 (length self.now.entries) steps.old steps.new }
    {
        let blocks = self.blocks.as_slice();
        settled(blocks, seek_in(blocks, bound, steps))
    }

    /// The key and the value at a place of this index, which hasn't changed since. No key is looked at.
    pub fn at(&self, place: Place) -> (&K, &V)
        requires good { IsGood self.now.sizes place }
        ensures { slice_get self.now.entries (position self.now.sizes place) ≡ Some (entry_of result.0.now result.1.now) }
    {
        let entry = entry_in(self.blocks.as_slice(), place);
        (&entry.key, &entry.value)
    }

    /// The place of the next key. No key is looked at.
    pub fn next(&self, place: Place) -> Option<Place>
        requires good { IsGood self.now.sizes place }
        ensures good { IfSome result (IsGood self.now.sizes) }
        ensures next { number_of self.now result ≡ position self.now.sizes place + 1 }
    {
        let blocks = self.blocks.as_slice();
        let behind = Place {
            block: place.block,
            at: place.at + 1,
        };
        settled(blocks, behind)
    }

    /// The place of the least key. No key is looked at.
    pub fn first(&self) -> Option<Place>
        ensures good { IfSome result (IsGood self.now.sizes) }
        ensures first { IfSome result (λ place. position self.now.sizes place ≡ 0) }
        ensures none { IfNone result (self.now.entries ≡ []) }
    {
        first_in(self.blocks.as_slice())
    }

    /// The place of the greatest key. No key is looked at.
    pub fn last(&self) -> Option<Place>
        ensures good { IfSome result (IsGood self.now.sizes) }
        ensures last { IfSome result (λ place. position self.now.sizes place + 1 ≡ length self.now.entries) }
        ensures none { IfNone result (self.now.entries ≡ []) }
    {
        last_in(self.blocks.as_slice())
    }

    /// Whether there are no keys.
    pub fn is_empty(&self) -> bool
        ensures { result ≡ (length self.now.entries == 0) }
    {
        self.blocks.is_empty()
    }
}

impl<K: Ord + Clone, V: Clone> Index<K, V> {
    /// The same entries, in memory of their own, for keys and values whose clones equal them; no block stands ready. `Err`: no
    /// memory.
    pub fn copy(&self) -> Result<Index<K, V>, AllocError>
        requires keys { (k l : K) → K.is_clone k l → l ≡ k }
        requires values { (v w : V) → V.is_clone v w → w ≡ v }
        ensures { IfOk result (λ made. made.entries ≡ self.now.entries) }
    {
        let alloc = *self.blocks.allocator();
        let blocks = copy_blocks(alloc, &self.blocks)?;
        let mut spare = Vec::new(alloc);
        spare.reserve(blocks.len())?;
        Ok(Index { blocks, spare })
    }
}
