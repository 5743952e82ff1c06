//! The change of a version's metadata.
ghost use Rattle.std.specs.Prelude.{◌≡◌, ◌≤◌, ◌^◌, IfOk, OnErr, Ok};
ghost use Rattle.gcs_index.specs.Looks.{AreLooks};
ghost use Rattle.gcs_meaning.specs.Aging.{aged};
ghost use Rattle.gcs_meaning.specs.Moment.{effective_moment};
ghost use Rattle.gcs_meaning.specs.ObjectChange.{change_refusal, change_step, changed_row, is_released};
ghost use Rattle.gcs_bucket.specs.Alive.{state_of};
ghost use Rattle.gcs_bucket.specs.ObjectChange.{decided_change, with_changed, AreInPlace, IsInPlace, MakesChange};
ghost use Rattle.gcs_bucket.specs.Slot.{row_count, value_of, IsReady};

use crate::alive::State;
use crate::refusals::{earlier_time, failed_precondition, too_much_custom};
use crate::slot::Slot;
use gcs_meaning::{Answer, Copied, Meta, MetaChange, Name, Pre, Reason, Row, Settings, effective};
use gcs_versions::Steps;
use std::alloc::AllocError;
use std::sync::ledger::Ledger;

/// What the change of a version needs of memory, taken before anything is changed: its metadata,
/// the version as it is shown with them, and the settings.
#[derive(Drop)]
pub struct Changed {
    pub meta: Meta,
    pub shown: Row,
    pub settings: Settings,
}

impl Slot {
    /// The change of a version's metadata. It is decided before ageing, which takes no version that
    /// a change can choose.
    pub fn change<L: Ledger>(
        &mut self,
        reading: u64,
        name: &Name,
        generation: Option<u64>,
        pre: &Pre,
        change: &MetaChange,
        whole: bool,
        steps: &mut Steps<L>,
    ) -> Result<Answer, AllocError>
        requires ready { IsReady (value_of self.old) }
        ensures done { IfOk result (λ answer.
            let t = effective_moment self.old.last_moment reading in
            change_step (aged (value_of self.old) t) t name.now generation pre.now change.now whole ≡ (answer, value_of self.new)) }
        ensures err { OnErr result (value_of self.new ≡ value_of self.old) }
        ensures looks { AreLooks 1 (row_count (value_of self.old)) steps.old steps.new }
    {
        let moment = effective(self.last_moment, reading);
        let decision = self.decide_change(moment, name, generation, pre, change, whole, steps)?;
        self.age(moment);
        match decision {
            Ok(made) => Ok(self.replace(moment, name, made)),
            Err(reason) => Ok(Answer::Refused(reason)),
        }
    }

    // What the change comes to at `moment`: it is refused, or this is what it makes. `Err`: no memory. At most one search.
    fn decide_change<L: Ledger>(
        &self,
        moment: u64,
        name: &Name,
        generation: Option<u64>,
        pre: &Pre,
        change: &MetaChange,
        whole: bool,
        steps: &mut Steps<L>,
    ) -> Result<Result<Changed, Reason>, AllocError>
        requires ready { IsReady (value_of self.now) }
        ensures decided { IfOk result (λ decision.
            change_step (aged (value_of self.now) moment) moment name.now generation pre.now change.now whole
            ≡ decided_change decision name.now (aged (value_of self.now) moment)) }
        ensures place { IfOk result (λ decision. IfOk decision (λ made. AreInPlace made name.now moment (aged (value_of self.now) moment))) }
        ensures looks { AreLooks 1 (row_count (value_of self.now)) steps.old steps.new }
    {
        let Some(state) = &self.alive else {
            return Ok(Err(Reason::NoBucket));
        };
        state.rows.known();
        let Some(row) = state.rows.chosen(name, generation, steps) else {
            return Ok(Err(Reason::NoObject));
        };
        let meta = change.applied(&row.meta, whole)?;
        if let Some(reason) = change_refusal(pre, row, &meta) {
            return Ok(Err(reason));
        }
        Ok(Ok(prepare_change(&state.settings, moment, row, meta)?))
    }

    // Gives the version that was decided on its new metadata, and answers with it.
    fn replace(&mut self, moment: u64, name: &Name, made: Changed) -> Answer
        requires { AreInPlace made name.now moment (value_of self.old) }
        ensures { (result, value_of self.new) ≡ decided_change (Ok made) name.now (value_of self.old) }
    {
        let Changed {
            meta,
            shown,
            settings,
        } = made;
        if let Some(state) = &mut self.alive {
            state.replace(moment, name, meta, &shown);
        }
        Answer::Object(shown, settings)
    }
}

impl State {
    /// Gives the version that is shown so these metadata, its own.
    pub fn replace(&mut self, moment: u64, name: &Name, meta: Meta, shown: &Row)
        requires { IsInPlace meta shown.now name.now moment self.old.rows.rows }
        ensures { state_of self.new ≡ with_changed (state_of self.old) name.now shown.now }
    {
        self.rows.change(name, shown.generation, meta, shown.retention_start, moment);
    }
}

// The first test of a change that fails, on the version and the metadata that it would have.
#[tactic(auto, unfolding(gcs_meaning::specs::ObjectChange::change_refusal))]
fn change_refusal(pre: &Pre, row: &Row, meta: &Meta) -> Option<Reason>
    ensures { result ≡ change_refusal pre.now row.now meta.now }
{
    failed_precondition(pre, row.generation, row.metageneration)
        .or_else(|| earlier_time(row.meta.custom_time, meta.custom_time))
        .or_else(|| too_much_custom(&meta.custom))
}

// The version with other metadata, and the settings. `Err`: no memory.
fn prepare_change(
    settings: &Settings,
    moment: u64,
    row: &Row,
    meta: Meta,
) -> Result<Changed, AllocError>
    requires { row.now.metageneration ≤ 2 ^ 62 }
    ensures { IfOk result (λ made. MakesChange made settings.now (changed_row moment meta row.now)) }
{
    let mut shown = row.copy()?;
    shown.metageneration = row.metageneration + 1;
    shown.updated = moment;
    if releases(&row.meta, &meta) {
        shown.retention_start = moment;
    }
    shown.meta = meta.copy()?;
    let settings = settings.copy()?;
    Ok(Changed {
        meta,
        shown,
        settings,
    })
}

// The metadata releases the event-based hold that a version has.
fn releases(had: &Meta, meta: &Meta) -> bool
    ensures { result ≡ is_released had.now meta.now }
{
    had.event_hold.unwrap_or(false) && !meta.event_hold.unwrap_or(false)
}
