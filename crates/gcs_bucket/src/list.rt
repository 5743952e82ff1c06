//! The list of a bucket's versions. It shows those that stay, so that it is made before ageing.
ghost use Rattle.std.specs.Prelude.{◌≡◌, IfOk, OnErr};
ghost use Rattle.gcs_index.specs.Looks.{AreLooks};
ghost use Rattle.gcs_meaning.specs.Aging.{aged};
ghost use Rattle.gcs_meaning.specs.Listing.{list_step};
ghost use Rattle.gcs_meaning.specs.Moment.{effective_moment};
ghost use Rattle.gcs_bucket.specs.Searches.{page_searches};
ghost use Rattle.gcs_bucket.specs.Slot.{row_count, value_of};

use crate::slot::Slot;
use gcs_listing::page;
use gcs_meaning::{Answer, PageQuery, Reason, effective};
use gcs_versions::Steps;
use std::alloc::AllocError;
use std::sync::ledger::Ledger;

impl Slot {
    /// One page of the bucket's versions.
    pub fn list<L: Ledger>(
        &mut self,
        reading: u64,
        query: &PageQuery,
        steps: &mut Steps<L>,
    ) -> Result<Answer, AllocError>
        ensures done { IfOk result (λ answer.
            let t = effective_moment self.old.last_moment reading in
            list_step (aged (value_of self.old) t) query.now ≡ (answer, value_of self.new)) }
        ensures err { OnErr result (value_of self.new ≡ value_of self.old) }
        ensures looks { IfOk result (λ answer.
            let t = effective_moment self.old.last_moment reading in
            AreLooks (page_searches query.now.view t (value_of self.old).alive answer) (row_count (value_of self.old)) steps.old steps.new) }
    {
        let moment = effective(self.last_moment, reading);
        let answer = self.show_page(moment, query, steps)?;
        self.age(moment);
        Ok(answer)
    }

    // What the list answers on the slot as it is at `moment`.
    #[tactic(auto, unfolding(gcs_meaning::specs::Listing::list_step, gcs_meaning::specs::Aging::aged_state))]
    fn show_page<L: Ledger>(
        &self,
        moment: u64,
        query: &PageQuery,
        steps: &mut Steps<L>,
    ) -> Result<Answer, AllocError>
        ensures done { IfOk result (λ answer.
            list_step (aged (value_of self.now) moment) query.now ≡ (answer, aged (value_of self.now) moment)) }
        ensures looks { IfOk result (λ answer.
            AreLooks (page_searches query.now.view moment (value_of self.now).alive answer) (row_count (value_of self.now)) steps.old steps.new) }
    {
        match &self.alive {
            Some(state) => Ok(Answer::Page(page(
                self.alloc,
                &state.rows,
                &state.settings,
                query,
                moment,
                steps,
            )?)),
            None => Ok(Answer::Refused(Reason::NoBucket)),
        }
    }
}
