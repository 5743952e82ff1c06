//! The keys of the indexes over versions, and what is held against them in a search.
ghost use Rattle.std.specs.Prelude.{◌≡◌, ⊤, refl};
ghost use Rattle.std.specs.Arc.{arc_value};
ghost use Rattle.std.specs.Cmp.{eq_by_cmp_equiv, partial_equiv_from_equiv, partial_order_from_total};
ghost use Rattle.std.specs.Cmp.Lexicographic.{slice_cmp};
ghost use Rattle.std.specs.Ordering.{as_partial_cmp, eq_by_cmp, nat_cmp};
ghost use Rattle.gcs_index.specs.Probing.{own_ends, own_stays};
ghost use Rattle.gcs_meaning.specs.Order.{unit_at, unit_cmp};
ghost use Rattle.gcs_versions.specs.Keys.{due_cmp, due_total, name_ends, name_stays, place_total};

use gcs_index::Probe;
use gcs_meaning::Name;
use std::alloc::AllocError;
use std::cmp::Ordering;
use std::marker::Model;
use std::sync::Arc;

/// The key of a version, seen as the unit of its name and generation. All keys of a version share its name.
#[derive(Drop)]
pub(crate) struct VersionKey {
    name: Arc<Name>,
    generation: u64,
}

impl Model for VersionKey {
    ghost use Rattle.std.specs.Arc.{arc_value};
    ghost use Rattle.gcs_meaning.specs.declared.listing.Unit as unit;
    ghost use Rattle.gcs_meaning.specs.Order.{unit_at};

    ghost Value = { unit.Unit };

    ghost view = { λ k. unit_at (arc_value k.name) k.generation };
}

impl VersionKey {
    pub(crate) fn new(name: Arc<Name>, generation: u64) -> VersionKey
        ensures { result ≡ unit_at (arc_value name) generation }
    {
        VersionKey { name, generation }
    }
}

// How a name and a generation stand to a key.
fn order_of(name: &[u8], generation: u64, key: &VersionKey) -> Ordering
    ensures { result ≡ unit_cmp (unit_at name.now generation) key.now }
{
    name.cmp(key.name.as_bytes())
        .then(generation.cmp(&key.generation))
}

impl PartialEq for VersionKey {
    ghost eq = { eq_by_cmp unit_cmp };

    ghost laws = { partial_equiv_from_equiv (eq_by_cmp_equiv place_total) };

    fn eq(&self, other: &VersionKey) -> bool {
        self.cmp(other).is_eq()
    }
}

impl Eq for VersionKey {
    ghost laws = { eq_by_cmp_equiv place_total };
}

impl PartialOrd for VersionKey {
    ghost partial_cmp = { as_partial_cmp unit_cmp };

    ghost laws = { partial_order_from_total place_total };

    fn partial_cmp(&self, other: &VersionKey) -> Option<Ordering> {
        Some(self.cmp(other))
    }
}

impl Ord for VersionKey {
    ghost cmp = { unit_cmp };

    ghost total = { place_total };

    ghost matches_partial_cmp = { λ x y. refl };

    ghost matches_eq = { λ x y. refl };

    fn cmp(&self, other: &VersionKey) -> Ordering {
        order_of(self.name.as_bytes(), self.generation, other)
    }
}

impl Clone for VersionKey {
    ghost is_clone = { λ k made. made ≡ k };

    fn clone(&self) -> Result<VersionKey, AllocError> {
        Ok(VersionKey {
            name: Arc::try_clone(&self.name)?,
            generation: self.generation,
        })
    }
}

/// The key of a soft-deleted version by its hard time (microseconds since 1970).
#[derive(Drop)]
pub(crate) struct DueKey {
    pub(crate) hard: u64,
    pub(crate) version: VersionKey,
}

impl PartialEq for DueKey {
    ghost eq = { eq_by_cmp due_cmp };

    ghost laws = { partial_equiv_from_equiv (eq_by_cmp_equiv due_total) };

    fn eq(&self, other: &DueKey) -> bool {
        self.cmp(other).is_eq()
    }
}

impl Eq for DueKey {
    ghost laws = { eq_by_cmp_equiv due_total };
}

impl PartialOrd for DueKey {
    ghost partial_cmp = { as_partial_cmp due_cmp };

    ghost laws = { partial_order_from_total due_total };

    fn partial_cmp(&self, other: &DueKey) -> Option<Ordering> {
        Some(self.cmp(other))
    }
}

impl Ord for DueKey {
    ghost cmp = { due_cmp };

    ghost total = { due_total };

    ghost matches_partial_cmp = { λ x y. refl };

    ghost matches_eq = { λ x y. refl };

    fn cmp(&self, other: &DueKey) -> Ordering {
        self.hard
            .cmp(&other.hard)
            .then(self.version.cmp(&other.version))
    }
}

impl Clone for DueKey {
    ghost is_clone = { λ k made. made ≡ k };

    fn clone(&self) -> Result<DueKey, AllocError> {
        Ok(DueKey {
            hard: self.hard,
            version: self.version.clone()?,
        })
    }
}

/// A name and a generation, as a bound between keys.
#[derive(Clone, Copy, Drop)]
pub(crate) struct At<'a> {
    pub(crate) name: &'a [u8],
    pub(crate) generation: u64,
}

impl Probe<VersionKey> for At<'_> {
    ghost stands = { λ at key. unit_cmp (unit_at at.name.now at.generation) key };

    fn order(&self, key: &VersionKey) -> Ordering {
        order_of(self.name, self.generation, key)
    }

    ghost stays = { λ at k l. own_stays place_total (unit_at at.name.now at.generation) k l };

    ghost ends = { λ at k l. own_ends place_total (unit_at at.name.now at.generation) k l };
}

/// A name, which equals the keys of all its versions.
#[derive(Clone, Copy, Drop)]
pub(crate) struct Named<'a> {
    pub(crate) name: &'a [u8],
}

impl Probe<VersionKey> for Named<'_> {
    ghost stands = { λ named key. slice_cmp nat_cmp named.name.now key.text };

    fn order(&self, key: &VersionKey) -> Ordering {
        self.name.cmp(key.name.as_bytes())
    }

    ghost stays = { λ named k l. name_stays named.name.now k l };

    ghost ends = { λ named k l. name_ends named.name.now k l };
}
