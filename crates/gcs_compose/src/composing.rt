//! A compose, source by source.
ghost use Rattle.std.specs.Prelude.{◌≡◌, ◌≤◌, ◌<◌, ◌+◌, ◌^◌, false, length, min, IfErr, IfOk, OnOk};
ghost use Rattle.std.specs.List.{AllByRecursion};
ghost use Rattle.gcs_chunks.specs.Content.{bytes_of};
ghost use Rattle.gcs_index.specs.Looks.{AreLooks};
ghost use Rattle.gcs_meaning.specs.Compose.{components_of, composed, joins, most_components, source_refusal};
ghost use Rattle.gcs_meaning.specs.Content.{bytes_in, with_whole};
ghost use Rattle.gcs_meaning.specs.Tests.{largest_object};
ghost use Rattle.gcs_compose.specs.Faults.{IsLackOf};

use crate::fault::ComposeFault;
use gcs_meaning::{Hashed, List, Part, Reason, Row};
use gcs_versions::{Steps, Versions};
use std::alloc::{AllocError, Global};
use std::sync::ledger::Ledger;

/// The largest component count. Source: Cloud Storage JSON API, "Objects": `componentCount` is a 32-bit integer.
const MOST_COMPONENTS: u64 = 2_147_483_647;

/// What the sources make: their content, which has no MD5, and how many components it has.
#[derive(Drop)]
pub struct Composed {
    pub hashed: Hashed,
    pub components: u32,
}

/// The content of the sources, one after the other, as spans of the pieces that they have. Each source is a version that
/// is live or noncurrent, and has the generation that it must have; the first one for which that isn't so is told. A search
/// a source.
#[tactic(auto, unfolding(gcs_meaning::specs::Compose::composed))]
pub fn compose<L: Ledger>(
    alloc: Global,
    versions: &Versions,
    sources: &List<Part>,
    steps: &mut Steps<L>,
) -> Result<Composed, ComposeFault>
    requires few { length sources.now ≤ 32 }
    requires sizes { AllByRecursion (λ row. length (bytes_in row.hashed) ≤ largest_object) versions.now.rows }
    ensures made { IfOk result (λ made. composed versions.now.rows sources.now ≡ joins made.hashed.content made.components) }
    ensures digests { IfOk result (λ made. made.hashed.with_md5 ≡ false) }
    ensures refused { IfErr result (λ fault. IsLackOf fault (composed versions.now.rows sources.now)) }
    ensures looks { AreLooks (length sources.now) (length versions.now.rows) steps.old steps.new }
{
    let mut joined = Joined {
        hashed: Hashed::none(alloc),
        count: 0,
    };
    for (i, source) in sources.as_slice().iter().enumerate() {
        let Some(row) = versions.chosen(&source.name, source.generation, steps) else {
            return Err(ComposeFault::Refused(Reason::NoSource { i: i as u64 }));
        };
        if let Some(reason) = other_generation(i as u64, source.generation_is, row.generation) {
            return Err(ComposeFault::Refused(reason));
        }
        joined.add(row)?;
    }
    Ok(joined.made())
}

// A source has the generation that it must have.
fn other_generation(i: u64, wanted: Option<u64>, found: u64) -> Option<Reason>
    ensures { result ≡ source_refusal i wanted found }
{
    let wanted = wanted?;
    if wanted == found {
        None
    } else {
        Some(Reason::SourceCondition { i, wanted, found })
    }
}

// What is joined of the sources so far, and how many components that has.
#[derive(Drop)]
struct Joined {
    hashed: Hashed,
    count: u64,
}

impl Joined {
    // Adds a source. `Err`: no memory, and nothing is added.
    fn add(&mut self, row: &Row) -> Result<(), AllocError>
        requires size { length (bytes_of self.old.hashed.content) + length (bytes_in row.now.hashed) < 2 ^ 63 }
        requires count { self.old.count < 2 ^ 63 }
        ensures content { OnOk result (self.new.hashed.content ≡ with_whole self.old.hashed.content row.now.hashed.content) }
        ensures md5 { OnOk result (self.new.hashed.with_md5 ≡ false) }
        ensures count { OnOk result (self.new.count ≡ self.old.count + components_of row.now) }
        ensures below { OnOk result (self.new.count < self.old.count + 2 ^ 32) }
    {
        self.hashed.join(&row.hashed)?;
        self.count += u64::from(row.components.unwrap_or(1));
        Ok(())
    }

    // What all sources make.
    fn made(self) -> Composed
        ensures hashed { result.hashed ≡ self.hashed }
        ensures components { result.components ≡ min self.count most_components }
    {
        Composed {
            hashed: self.hashed,
            components: self.count.min(MOST_COMPONENTS) as u32,
        }
    }
}
