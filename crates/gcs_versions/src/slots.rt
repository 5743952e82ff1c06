//! Versions in their slots.
ghost use Rattle.std.specs.Prelude.{◌≡◌, ◌<◌, ◌+◌, ◌^◌, IsSome, Some};
ghost use Rattle.std.specs.List.{find};
ghost use Rattle.std.specs.Option.{IfSome, ForSome, option_copied};
ghost use Rattle.std.specs.Ordering.{is_eq};
ghost use Rattle.slab.specs.Slab.{get, HasRoomFor, Updates};
ghost use Rattle.gcs_index.specs.Entries.{value_in};
ghost use Rattle.gcs_meaning.specs.Order.{unit_at, unit_cmp};
ghost use Rattle.gcs_versions.specs.Rows.{changed_version, with_kind};

use crate::keys::{At, VersionKey};
use gcs_index::{Index, Steps};
use gcs_meaning::{Copied, Kind, Meta, Name, Row};
use slab::Slab;
use std::alloc::AllocError;
use std::marker::{Brand, Model};
use std::sync::ledger::{Blank, Ledger};

/// A version in its slot, seen as its row. Slots are copied by `Clone`, which a row has as `Copied`.
#[derive(Drop)]
pub(crate) struct Stored {
    pub(crate) row: Row,
}

impl Model for Stored {
    ghost use Rattle.gcs_meaning.specs.declared.version.Row.{Row};

    ghost Value = { Row };

    ghost view = { λ s. s.row };
}

impl Clone for Stored {
    ghost is_clone = { λ s made. made ≡ s };

    fn clone(&self) -> Result<Stored, AllocError> {
        Ok(Stored {
            row: self.row.copy()?,
        })
    }
}

/// The row in a slot.
pub(crate) fn row_in(slots: &Slab<Stored>, slot: usize) -> Option<&Row>
    ensures { option_copied result ≡ get slots.now slot }
{
    match slots.get(slot) {
        Some(stored) => Some(&stored.row),
        None => None,
    }
}

/// The slot of a version, by a search that nobody counts.
pub(crate) fn slot_in(all: &Index<VersionKey, usize>, name: &Name, generation: u64) -> Option<usize>
    ensures { result ≡ value_in (find (λ e. is_eq (unit_cmp (unit_at name.now generation) e.key)) all.now.entries) }
{
    slot_on::<Brand>(Blank::new(1), all, name, generation)
}

fn slot_on<L: Ledger>(
    blank: Blank,
    all: &Index<VersionKey, usize>,
    name: &Name,
    generation: u64,
) -> Option<usize>
    requires name { blank.name ≡ L.name }
    requires parts { blank.parts ≡ L.parts }
    requires some { 0 < blank.parts }
    ensures { result ≡ value_in (find (λ e. is_eq (unit_cmp (unit_at name.now generation) e.key)) all.now.entries) }
{
    let mut steps = Steps::<L>::new(blank);
    let name = name.as_bytes();
    let slot = all.find(&At { name, generation }, &mut steps)?;
    Some(*slot)
}

/// Gives the version in a slot another kind.
pub(crate) fn set_kind(slots: &mut Slab<Stored>, slot: usize, kind: Kind)
    requires there { IsSome (get slots.old slot) }
    ensures updates { IfSome (get slots.old slot) (λ row. Updates slots.old slots.new slot (Some (with_kind kind row))) }
    ensures room { HasRoomFor slots.old 1 → HasRoomFor slots.new 1 }
{
    if let Some(stored) = slots.get_mut(slot) {
        stored.row.kind = kind;
    }
}

/// Gives the version in a slot other metadata and another start of its retention at `moment`.
pub(crate) fn set_meta(
    slots: &mut Slab<Stored>,
    slot: usize,
    meta: Meta,
    retention_start: u64,
    moment: u64,
)
    requires there { IsSome (get slots.old slot) }
    requires room { ForSome (get slots.old slot) (λ row. row.metageneration + 1 < 2 ^ 64) }
    ensures updates { IfSome (get slots.old slot)
        (λ row. Updates slots.old slots.new slot (Some (changed_version meta retention_start moment row))) }
    ensures room { HasRoomFor slots.old 1 → HasRoomFor slots.new 1 }
{
    if let Some(stored) = slots.get_mut(slot) {
        let row = &mut stored.row;
        row.metageneration += 1;
        row.meta = meta;
        row.updated = moment;
        row.retention_start = retention_start;
    }
}
