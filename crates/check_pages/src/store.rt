//! The planned versions as a bucket keeps them, put and retired one after the other.
ghost use Rattle.std.specs.Prelude.{◌≡◌, IfOk, true};
ghost use Rattle.gcs_meaning.specs.Choosing.{is_live};

use crate::plan::Planned;
use gcs_chunks::{Chunks, Content};
use gcs_meaning::{Hashed, Kind, Meta, Name, Pairs, Retired, Row, Settings, Text};
use gcs_versions::{Steps, Versions, is_readable};
use std::alloc::{AllocError, Global};
use std::sync::ledger::Ledger;

/// A bucket: its versions and its settings.
pub struct Bucket {
    pub versions: Versions,
    pub settings: Settings,
}

impl Drop for Bucket {
    fn drop(self) {
        let Bucket { versions, settings } = self;
        drop(versions);
        drop(settings);
    }
}

impl Bucket {
    /// A bucket of these versions. One that could not be put is left out, and then missing in a listing. `Err`: no memory.
    pub fn of<L: Ledger>(
        alloc: Global,
        chunks: &Chunks,
        planned: &[Planned],
        steps: &mut Steps<L>,
    ) -> Result<Bucket, AllocError> {
        let mut versions = Versions::new(alloc);
        for plan in planned {
            put(&mut versions, live_row(alloc, chunks, plan)?, steps)?;
            retire(alloc, &mut versions, plan, steps)?;
        }
        Ok(Bucket {
            versions,
            settings: settings(alloc)?,
        })
    }
}

fn put<L: Ledger>(versions: &mut Versions, row: Row, steps: &mut Steps<L>) -> Result<(), AllocError>
    requires live { is_live row.kind ≡ true }
{
    versions.prepare(&row.name)?;
    let is_there = versions.get(&row.name, row.generation, steps).is_some();
    let has_live = versions.live(&row.name, steps).is_some();
    if is_there || has_live || row.generation == 0 {
        drop(row);
        return Ok(());
    }
    versions.put(row);
    Ok(())
}

// Puts the version into the state that is planned.
fn retire<L: Ledger>(
    alloc: Global,
    versions: &mut Versions,
    plan: &Planned,
    steps: &mut Steps<L>,
) -> Result<(), AllocError> {
    let name = name(alloc, plan)?;
    match plan.kind {
        Kind::Live => Ok(()),
        Kind::Noncurrent { at } => {
            retire_to(
                versions,
                &name,
                plan.generation,
                Retired::Noncurrent,
                at,
                steps,
            )
        }
        Kind::Soft { at, hard } => {
            retire_to(
                versions,
                &name,
                plan.generation,
                Retired::Soft { hard },
                at,
                steps,
            )
        }
    }
}

fn retire_to<L: Ledger>(
    versions: &mut Versions,
    name: &Name,
    generation: u64,
    to: Retired,
    moment: u64,
    steps: &mut Steps<L>,
) -> Result<(), AllocError> {
    versions.prepare(name)?;
    versions.known();
    let Some(row) = versions.get(name, generation, steps) else {
        return Ok(());
    };
    if is_readable(row.kind) {
        versions.retire(name, generation, to, moment);
    }
    Ok(())
}

fn live_row(alloc: Global, chunks: &Chunks, plan: &Planned) -> Result<Row, AllocError>
    ensures { IfOk result (λ row. is_live row.kind ≡ true) }
{
    Ok(Row {
        name: name(alloc, plan)?,
        generation: plan.generation,
        metageneration: 1,
        hashed: Hashed::of(Content::empty(alloc), chunks),
        components: None,
        meta: metadata(alloc)?,
        created: 0,
        updated: 0,
        retention_start: 0,
        kind: Kind::Live,
    })
}

fn name(alloc: Global, plan: &Planned) -> Result<Name, AllocError> {
    Ok(Name::new(Text::from_str(alloc, plan.name.as_str())?))
}

fn metadata(alloc: Global) -> Result<Meta, AllocError> {
    Ok(Meta {
        content_type: Text::from_str(alloc, "text/plain")?,
        cache_control: None,
        content_disposition: None,
        content_encoding: None,
        content_language: None,
        storage_class: Some(Text::from_str(alloc, "STANDARD")?),
        custom_time: None,
        temporary_hold: false,
        event_hold: Some(false),
        custom: Pairs::new(alloc),
    })
}

fn settings(alloc: Global) -> Result<Settings, AllocError> {
    Ok(Settings {
        location: Text::from_str(alloc, "US")?,
        storage_class: Text::from_str(alloc, "STANDARD")?,
        labels: Pairs::new(alloc),
        lifecycle: None,
        versioned: true,
        default_event_hold: false,
        retention: None,
        soft_seconds: 604_800,
        soft_since: 0,
    })
}
