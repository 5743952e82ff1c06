//! The restore of a soft-deleted version.
ghost use Rattle.std.specs.Prelude.{◌≡◌, IfOk, OnErr};
ghost use Rattle.gcs_index.specs.Looks.{AreLooks};
ghost use Rattle.gcs_meaning.specs.Aging.{aged};
ghost use Rattle.gcs_meaning.specs.Moment.{effective_moment};
ghost use Rattle.gcs_meaning.specs.Restore.{restore_step, restored_meta};
ghost use Rattle.gcs_meaning.specs.declared.settings.Pre.{Pre};
ghost use Rattle.gcs_bucket.specs.Restore.{decided_source};
ghost use Rattle.gcs_bucket.specs.Slot.{row_count, value_of, IsReady};

use crate::get::find_soft;
use crate::slot::Slot;
use gcs_meaning::{Answer, Copied, Expect, Hashed, Meta, Name, Pre, Reason, effective};
use gcs_versions::Steps;
use std::alloc::AllocError;
use std::sync::ledger::Ledger;

/// What of a soft-deleted version the new one is made of.
#[derive(Drop)]
pub struct Source {
    pub meta: Meta,
    pub hashed: Hashed,
    pub components: Option<u32>,
}

/// No digests are expected of bytes that are in the store already.
pub const NO_EXPECT: Expect = Expect {
    crc: None,
    md5: None,
};

impl Slot {
    /// The restore of the soft-deleted version of a generation, which is put as a new one. At most two searches.
    pub fn restore<L: Ledger>(
        &mut self,
        reading: u64,
        name: &Name,
        generation: u64,
        pre: &Pre,
        steps: &mut Steps<L>,
    ) -> Result<Answer, AllocError>
        requires ready { IsReady (value_of self.old) }
        ensures done { IfOk result (λ answer.
            let t = effective_moment self.old.last_moment reading in
            restore_step (aged (value_of self.old) t) t name.now generation pre.now ≡ (answer, value_of self.new)) }
        ensures err { OnErr result (value_of self.new ≡ value_of self.old) }
        ensures looks { AreLooks 2 (row_count (value_of self.old)) steps.old steps.new }
    {
        let moment = effective(self.last_moment, reading);
        match self.copy_soft(moment, name, generation, steps)? {
            Ok(source) => self.put_at(
                moment,
                name,
                pre,
                &source.meta,
                &source.hashed,
                source.components,
                &NO_EXPECT,
                steps,
            ),
            Err(reason) => {
                self.age(moment);
                Ok(Answer::Refused(reason))
            }
        }
    }

    // Of what a restore at `moment` makes a version: of the soft-deleted one of that generation, or why there is none.
    // `Err`: no memory. At most one search.
    fn copy_soft<L: Ledger>(
        &self,
        moment: u64,
        name: &Name,
        generation: u64,
        steps: &mut Steps<L>,
    ) -> Result<Result<Source, Reason>, AllocError>
        ensures decided { IfOk result (λ decision. (pre : Pre) →
            restore_step (aged (value_of self.now) moment) moment name.now generation pre
            ≡ decided_source decision moment name.now pre (aged (value_of self.now) moment)) }
        ensures looks { AreLooks 1 (row_count (value_of self.now)) steps.old steps.new }
    {
        let Some(state) = &self.alive else {
            return Ok(Err(Reason::NoBucket));
        };
        let Some(row) = find_soft(&state.rows, moment, name, generation, steps) else {
            return Ok(Err(Reason::NoObject));
        };
        Ok(Ok(Source {
            meta: restore_meta(&row.meta)?,
            hashed: row.hashed.copy()?,
            components: row.components,
        }))
    }
}

// The metadata, without holds of their own.
fn restore_meta(meta: &Meta) -> Result<Meta, AllocError>
    ensures { IfOk result (λ made. made ≡ restored_meta meta.now) }
{
    let mut made = meta.copy()?;
    made.temporary_hold = false;
    made.event_hold = None;
    Ok(made)
}
