//! The compose of a version of the bytes of others.
ghost use Rattle.std.specs.Prelude.{◌≡◌, ◌≤◌, ◌+◌, IfOk, OnErr, length, List};
ghost use Rattle.gcs_index.specs.Looks.{AreLooks};
ghost use Rattle.gcs_meaning.specs.Aging.{aged};
ghost use Rattle.gcs_meaning.specs.Compose.{compose_step};
ghost use Rattle.gcs_meaning.specs.Moment.{effective_moment};
ghost use Rattle.gcs_meaning.specs.declared.settings.Meta.{Meta};
ghost use Rattle.gcs_meaning.specs.declared.settings.Pre.{Pre};
ghost use Rattle.std.specs.Prelude.{ℕ};
ghost use Rattle.gcs_bucket.specs.Compose.{decided_compose};
ghost use Rattle.gcs_bucket.specs.Slot.{row_count, value_of, IsReady};

use crate::restore::NO_EXPECT;
use crate::slot::Slot;
use gcs_compose::{ComposeFault, Composed, compose};
use gcs_meaning::{Answer, List, Meta, Name, Part, Pre, Reason, effective};
use gcs_versions::Steps;
use std::alloc::AllocError;
use std::sync::ledger::Ledger;

impl Slot {
    /// The compose of a version. Its sources are joined before ageing, which takes none that a compose can choose. At
    /// most one search a source and one more.
    pub fn compose<L: Ledger>(
        &mut self,
        reading: u64,
        name: &Name,
        pre: &Pre,
        meta: &Meta,
        parts: &List<Part>,
        steps: &mut Steps<L>,
    ) -> Result<Answer, AllocError>
        requires ready { IsReady (value_of self.old) }
        requires few { length parts.now ≤ 32 }
        ensures done { IfOk result (λ answer.
            let t = effective_moment self.old.last_moment reading in
            compose_step (aged (value_of self.old) t) t name.now pre.now meta.now parts.now ≡ (answer, value_of self.new)) }
        ensures err { OnErr result (value_of self.new ≡ value_of self.old) }
        ensures looks { AreLooks (length parts.now + 1) (row_count (value_of self.old)) steps.old steps.new }
    {
        let moment = effective(self.last_moment, reading);
        match self.join_sources(moment, parts, steps)? {
            Ok(composed) => self.put_at(
                moment,
                name,
                pre,
                meta,
                &composed.hashed,
                Some(composed.components),
                &NO_EXPECT,
                steps,
            ),
            Err(reason) => {
                self.age(moment);
                Ok(Answer::Refused(reason))
            }
        }
    }

    // What the sources come to at `moment`: their joined content, or what they lack. `Err`: no memory. At most one
    // search a source.
    fn join_sources<L: Ledger>(
        &self,
        moment: u64,
        parts: &List<Part>,
        steps: &mut Steps<L>,
    ) -> Result<Result<Composed, Reason>, AllocError>
        requires ready { IsReady (value_of self.now) }
        requires few { length parts.now ≤ 32 }
        ensures decided { IfOk result (λ decision. (name : List ℕ) (pre : Pre) (meta : Meta) →
            compose_step (aged (value_of self.now) moment) moment name pre meta parts.now
            ≡ decided_compose decision moment name pre meta (aged (value_of self.now) moment)) }
        ensures looks { AreLooks (length parts.now) (row_count (value_of self.now)) steps.old steps.new }
    {
        let Some(state) = &self.alive else {
            return Ok(Err(Reason::NoBucket));
        };
        match compose(self.alloc, &state.rows, parts, steps) {
            Ok(composed) => Ok(Ok(composed)),
            Err(ComposeFault::Refused(reason)) => Ok(Err(reason)),
            Err(ComposeFault::NoMemory) => Err(AllocError),
        }
    }
}
