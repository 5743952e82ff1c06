//! The deletion of a version, and what becomes of one that is replaced.
ghost use Rattle.std.specs.Prelude.{◌≡◌, ◌<◌, ◌^◌, IfOk, OnErr, Some, Ok};
ghost use Rattle.std.specs.Option.{option_map};
ghost use Rattle.gcs_index.specs.Looks.{AreLooks};
ghost use Rattle.gcs_meaning.specs.Aging.{aged};
ghost use Rattle.gcs_meaning.specs.Choosing.{chosen_row};
ghost use Rattle.gcs_meaning.specs.Moment.{effective_moment};
ghost use Rattle.gcs_meaning.specs.ObjectDeletion.{delete_refusal, delete_state, delete_step};
ghost use Rattle.gcs_meaning.specs.Policy.{AreInLimits};
ghost use Rattle.gcs_versions.specs.Kept.{IsReadyToPut, IsReadyToRetire};
ghost use Rattle.gcs_bucket.specs.Alive.{CanRetire, IsEarly, state_of};
ghost use Rattle.gcs_bucket.specs.ObjectDeletion.{decided_deletion, IsChosenAt};
ghost use Rattle.gcs_bucket.specs.Slot.{row_count, value_of, IsReady};

use crate::alive::State;
use crate::refusals::{failed_precondition, kept_version};
use crate::slot::Slot;
use gcs_meaning::{Answer, Name, Pre, Reason, Row, Settings, effective};
use gcs_policy::retire;
use gcs_versions::Steps;
use std::alloc::AllocError;
use std::sync::ledger::Ledger;

impl Slot {
    /// The deletion of a version. It is decided before ageing, which takes no version that a deletion can choose. At
    /// most one search.
    pub fn delete<L: Ledger>(
        &mut self,
        reading: u64,
        name: &Name,
        generation: Option<u64>,
        pre: &Pre,
        steps: &mut Steps<L>,
    ) -> Result<Answer, AllocError>
        requires ready { IsReady (value_of self.old) }
        ensures done { IfOk result (λ answer.
            let t = effective_moment self.old.last_moment reading in
            delete_step (aged (value_of self.old) t) t name.now generation pre.now ≡ (answer, value_of self.new)) }
        ensures err { OnErr result (value_of self.new ≡ value_of self.old) }
        ensures looks { AreLooks 1 (row_count (value_of self.old)) steps.old steps.new }
    {
        let moment = effective(self.last_moment, reading);
        let decision = self.decide_delete(moment, name, generation, pre, steps);
        self.prepare(name)?;
        self.age(moment);
        match decision {
            Ok(found) => Ok(self.take_away(moment, name, generation, found)),
            Err(reason) => Ok(Answer::Refused(reason)),
        }
    }

    // What the deletion comes to at `moment`: it is refused, or this is the generation of the version that goes. At
    // most one search.
    fn decide_delete<L: Ledger>(
        &self,
        moment: u64,
        name: &Name,
        generation: Option<u64>,
        pre: &Pre,
        steps: &mut Steps<L>,
    ) -> Result<u64, Reason>
        requires ready { IsReady (value_of self.now) }
        requires moment { moment < 2 ^ 62 }
        ensures decided { delete_step (aged (value_of self.now) moment) moment name.now generation pre.now
            ≡ decided_deletion result moment name.now generation (aged (value_of self.now) moment) }
        ensures chosen { IfOk result (λ found. IsChosenAt name.now generation found (aged (value_of self.now) moment)) }
        ensures looks { AreLooks 1 (row_count (value_of self.now)) steps.old steps.new }
    {
        let named = generation.is_some();
        let Some(state) = &self.alive else {
            return Err(Reason::NoBucket);
        };
        let Some(row) = state.rows.chosen(name, generation, steps) else {
            return Err(Reason::NoObject);
        };
        match deletion_refusal(&state.settings, moment, named, pre, row) {
            Some(reason) => Err(reason),
            None => Ok(row.generation),
        }
    }

    // Retires the version of the generation `found`, which is there as the one that was asked for. It was prepared.
    fn take_away(&mut self, moment: u64, name: &Name, asked: Option<u64>, found: u64) -> Answer
        requires ready { IsReady (value_of self.old) }
        requires moment { moment < 2 ^ 62 }
        requires retire { CanRetire name.now self.old.alive }
        requires chosen { IsChosenAt name.now asked found (value_of self.old) }
        ensures { (result, value_of self.new) ≡ decided_deletion (Ok found) moment name.now asked (value_of self.old) }
    {
        if let Some(state) = &mut self.alive {
            state.remove(moment, name, asked, found);
        }
        Answer::Empty
    }
}

impl State {
    /// Retires the version of the generation `found`, which is there as the one that was asked for.
    #[tactic(auto, unfolding(gcs_meaning::specs::ObjectDeletion::delete_state))]
    pub fn remove(&mut self, moment: u64, name: &Name, asked: Option<u64>, found: u64)
        requires limits { AreInLimits self.old.settings }
        requires moment { moment < 2 ^ 62 }
        requires retire { IsReadyToRetire name.now self.old.rows }
        requires found { option_map (λ row. row.generation) (chosen_row name.now asked self.old.rows.rows) ≡ Some found }
        ensures state { state_of self.new ≡ delete_state (state_of self.old) moment name.now asked }
        ensures put { IsReadyToPut name.now self.old.rows → IsReadyToPut name.now self.new.rows }
    {
        self.rows.known();
        let to = retire(&self.settings, moment, asked.is_some());
        self.rows.retire(name, found, to, moment);
    }
}

// The first test of a deletion that fails, on the version.
#[tactic(auto, unfolding(gcs_meaning::specs::ObjectDeletion::delete_refusal))]
fn deletion_refusal(
    settings: &Settings,
    moment: u64,
    named: bool,
    pre: &Pre,
    row: &Row,
) -> Option<Reason>
    requires limits { AreInLimits settings.now }
    requires early { IsEarly row.now }
    requires moment { moment < 2 ^ 62 }
    ensures { result ≡ delete_refusal settings.now moment named pre.now row.now }
{
    let kept = kept_version(settings, moment, named, row);
    failed_precondition(pre, row.generation, row.metageneration).or(kept)
}
