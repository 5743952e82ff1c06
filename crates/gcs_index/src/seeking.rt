//! Seeking through blocks: first by their first entries, then in one block.
ghost use Rattle.std.specs.Prelude.{◌≡◌, ◌<◌, ◌≤◌, ◌+◌, ◌-◌, ◌*◌, ◌^◌, [], length, slice_get, IfNone, IfSome, None, Some};
ghost use Rattle.std.specs.List.{find};
ghost use Rattle.std.specs.Ordering.{is_eq};
ghost use Rattle.gcs_index.specs.Blocks.{entries_of, entries_at, entries_before, sizes_of, AreBlocks, IsPlace};
ghost use Rattle.gcs_index.specs.Entries.{position, position_or, stands_at, IsGood, IsSplit};
ghost use Rattle.gcs_index.specs.Ranked.{Ends, Ranked, head_stands};

use crate::blocks::{Block, Entry, Place};
use crate::probe::{Probe, Standing, rank};
use crate::steps::Steps;
use std::cmp::Ordering;
use std::sync::ledger::Ledger;

// A probe that is held against the keys of entries.
#[derive(Drop)]
struct AtKey<'a, Q> {
    probe: &'a Q,
}

impl<'a, K: Ord, V, Q: Probe<K>> Standing<Entry<K, V>> for AtKey<'a, Q> {
    ghost stands = { λ p e. Q.stands p.probe.now e.key };

    fn order(&self, entry: &Entry<K, V>) -> Ordering {
        self.probe.order(&entry.key)
    }
}

// A probe that is held against the first keys of blocks. A block without entries counts as not
// below.
#[derive(Drop)]
struct AtHead<'a, Q> {
    probe: &'a Q,
}

impl<'a, K: Ord, V, Q: Probe<K>> Standing<Block<K, V>> for AtHead<'a, Q> {
    ghost stands = { λ p b. head_stands (λ e. Q.stands p.probe.now e.key) b.entries.items };

    fn order(&self, block: &Block<K, V>) -> Ordering {
        match block.entries.first() {
            Some(entry) => self.probe.order(&entry.key),
            None => Ordering::Less,
        }
    }
}

// The place of the first entry that is not below the probe, which may be a block's end.
pub(crate) fn seek_in<K: Ord, V, Q: Probe<K>, L: Ledger>(
    blocks: &[Block<K, V>],
    probe: &Q,
    steps: &mut Steps<L>,
) -> Place
    requires blocks { AreBlocks blocks.now }
    requires ranked { Ranked (stands_at Q.stands probe.now) (entries_of blocks.now) }
    requires short { length blocks.now < 2 ^ 63 }
    ensures split { IsSplit (stands_at Q.stands probe.now) (entries_of blocks.now) (entries_before result.block blocks.now + result.at) }
    ensures place { IsPlace blocks.now result.block result.at }
    ensures some { steps.old + 1 ≤ steps.new }
    ensures cost { 2 ^ (steps.new - steps.old + 1) ≤ 64 * length (entries_of blocks.now) + 64 }
{
    if blocks.is_empty() {
        steps.tick();
        return Place { block: 0, at: 0 };
    }
    let found = rank(blocks, &AtHead { probe }, steps);
    if found == 0 {
        return Place { block: 0, at: 0 };
    }
    let block = found - 1;
    let at = rank(blocks[block].entries.as_slice(), &AtKey { probe }, steps);
    Place { block, at }
}

// The place itself where an entry stands at it, or the first of the next block where it is a
// block's end.
pub(crate) fn settled<K, V>(blocks: &[Block<K, V>], place: Place) -> Option<Place>
    requires blocks { AreBlocks blocks.now }
    requires place { IsPlace blocks.now place.block place.at }
    requires short { length blocks.now < 2 ^ 63 }
    ensures good { IfSome result (IsGood (sizes_of blocks.now)) }
    ensures same { position_or (sizes_of blocks.now) (length (entries_of blocks.now)) result ≡ entries_before place.block blocks.now + place.at }
{
    if blocks.is_empty() {
        return None;
    }
    if place.at < blocks[place.block].entries.len() {
        return Some(place);
    }
    let block = place.block + 1;
    if block < blocks.len() {
        Some(Place { block, at: 0 })
    } else {
        None
    }
}

// The entry at a place.
pub(crate) fn entry_in<K, V>(blocks: &[Block<K, V>], place: Place) -> &Entry<K, V>
    requires good { IsGood (sizes_of blocks.now) place }
    ensures { slice_get (entries_of blocks.now) (position (sizes_of blocks.now) place) ≡ Some result.now }
{
    &blocks[place.block].entries[place.at]
}

// The place of the entry that equals the probe. It looks at one key more than a search alone.
pub(crate) fn find_in<K: Ord, V, Q: Probe<K>, L: Ledger>(
    blocks: &[Block<K, V>],
    probe: &Q,
    steps: &mut Steps<L>,
) -> Option<Place>
    requires blocks { AreBlocks blocks.now }
    requires ranked { Ranked (stands_at Q.stands probe.now) (entries_of blocks.now) }
    requires ends { Ends (stands_at Q.stands probe.now) (entries_of blocks.now) }
    requires short { length blocks.now < 2 ^ 63 }
    ensures good { IfSome result (IsGood (sizes_of blocks.now)) }
    ensures split { IfSome result (λ place. IsSplit (stands_at Q.stands probe.now) (entries_of blocks.now) (position (sizes_of blocks.now) place)) }
    ensures found { IfSome result (λ place. slice_get (entries_of blocks.now) (position (sizes_of blocks.now) place) ≡ find (λ e. is_eq (Q.stands probe.now e.key)) (entries_of blocks.now)) }
    ensures none { IfNone result (find (λ e. is_eq (Q.stands probe.now e.key)) (entries_of blocks.now) ≡ None) }
    ensures some { steps.old + 1 ≤ steps.new }
    ensures cost { 2 ^ (steps.new - steps.old) ≤ 64 * length (entries_of blocks.now) + 64 }
{
    let sought = seek_in(blocks, probe, steps);
    let Some(place) = settled(blocks, sought) else {
        return None;
    };
    steps.tick();
    match probe.order(&entry_in(blocks, place).key) {
        Ordering::Equal => Some(place),
        Ordering::Less | Ordering::Greater => None,
    }
}

// The place of the first entry.
pub(crate) fn first_in<K, V>(blocks: &[Block<K, V>]) -> Option<Place>
    requires blocks { AreBlocks blocks.now }
    ensures good { IfSome result (IsGood (sizes_of blocks.now)) }
    ensures first { IfSome result (λ place. position (sizes_of blocks.now) place ≡ 0) }
    ensures none { IfNone result (entries_of blocks.now ≡ []) }
{
    if blocks.is_empty() {
        None
    } else {
        Some(Place { block: 0, at: 0 })
    }
}

// The place of the last entry.
pub(crate) fn last_in<K, V>(blocks: &[Block<K, V>]) -> Option<Place>
    requires blocks { AreBlocks blocks.now }
    ensures good { IfSome result (IsGood (sizes_of blocks.now)) }
    ensures last { IfSome result (λ place. position (sizes_of blocks.now) place + 1 ≡ length (entries_of blocks.now)) }
    ensures none { IfNone result (entries_of blocks.now ≡ []) }
{
    if blocks.is_empty() {
        return None;
    }
    let block = blocks.len() - 1;
    let at = blocks[block].entries.len() - 1;
    Some(Place { block, at })
}
