//! The read of a version. It chooses among the versions that stay, so that it is made before ageing.
ghost use Rattle.std.specs.Prelude.{◌≡◌, ◌&&◌, not, length, IfOk, OnErr, Some};
ghost use Rattle.std.specs.Option.{option_copied};
ghost use Rattle.std.specs.List.{find};
ghost use Rattle.gcs_index.specs.Looks.{AreLooks};
ghost use Rattle.gcs_meaning.specs.Aging.{aged, aged_rows, kind_stays};
ghost use Rattle.gcs_meaning.specs.Choosing.{asked_row, is_readable, is_soft_chosen};
ghost use Rattle.gcs_meaning.specs.Get.{get_step};
ghost use Rattle.gcs_meaning.specs.Moment.{effective_moment};
ghost use Rattle.gcs_bucket.specs.Slot.{row_count, value_of};

use crate::refusals::failed_precondition;
use crate::slot::Slot;
use gcs_meaning::{Answer, Copied, Kind, Name, Pre, Reason, Row, effective};
use gcs_versions::{Steps, Versions, is_readable, stays};
use std::alloc::AllocError;
use std::sync::ledger::Ledger;

impl Slot {
    /// The read of a version. At most one search.
    pub fn get<L: Ledger>(
        &mut self,
        reading: u64,
        name: &Name,
        generation: Option<u64>,
        soft: bool,
        pre: &Pre,
        steps: &mut Steps<L>,
    ) -> Result<Answer, AllocError>
        ensures done { IfOk result (λ answer.
            let t = effective_moment self.old.last_moment reading in
            get_step (aged (value_of self.old) t) name.now generation soft pre.now ≡ (answer, value_of self.new)) }
        ensures err { OnErr result (value_of self.new ≡ value_of self.old) }
        ensures looks { AreLooks 1 (row_count (value_of self.old)) steps.old steps.new }
    {
        let moment = effective(self.last_moment, reading);
        let answer = self.read(moment, name, generation, soft, pre, steps)?;
        self.age(moment);
        Ok(answer)
    }

    // What the read answers on the slot as it is at `moment`.
    #[tactic(auto, unfolding(gcs_meaning::specs::Get::get_step, gcs_meaning::specs::Aging::aged_state))]
    fn read<L: Ledger>(
        &self,
        moment: u64,
        name: &Name,
        generation: Option<u64>,
        soft: bool,
        pre: &Pre,
        steps: &mut Steps<L>,
    ) -> Result<Answer, AllocError>
        ensures looks { AreLooks 1 (row_count (value_of self.now)) steps.old steps.new }
        ensures done { IfOk result (λ answer.
            get_step (aged (value_of self.now) moment) name.now generation soft pre.now ≡ (answer, aged (value_of self.now) moment)) }
    {
        let Some(state) = &self.alive else {
            return Ok(Answer::Refused(Reason::NoBucket));
        };
        let Some(row) = find_asked(&state.rows, moment, soft, name, generation, steps) else {
            return Ok(Answer::Refused(Reason::NoObject));
        };
        if let Some(reason) = failed_precondition(pre, row.generation, row.metageneration) {
            return Ok(Answer::Refused(reason));
        }
        Ok(Answer::Object(row.copy()?, state.settings.copy()?))
    }
}

// The version that a read asks for, among those that aren't gone at `moment`: with `soft` the
// soft-deleted one of the generation, else the one that other requests name. At most one search.
fn find_asked<'a, L: Ledger>(
    rows: &'a Versions,
    moment: u64,
    soft: bool,
    name: &Name,
    generation: Option<u64>,
    steps: &mut Steps<L>,
) -> Option<&'a Row>
    ensures found { option_copied result ≡ asked_row soft name.now generation (aged_rows moment rows.now.rows) }
    ensures looks { AreLooks 1 (length rows.now.rows) steps.old steps.new }
{
    if soft {
        match generation {
            Some(generation) => find_soft(rows, moment, name, generation, steps),
            None => None,
        }
    } else {
        rows.chosen(name, generation, steps)
    }
}

/// The soft-deleted version of that generation, unless it is gone at `moment`. One search.
pub fn find_soft<'a, L: Ledger>(
    rows: &'a Versions,
    moment: u64,
    name: &Name,
    generation: u64,
    steps: &mut Steps<L>,
) -> Option<&'a Row>
    ensures found { option_copied result ≡ find (is_soft_chosen name.now (Some generation)) (aged_rows moment rows.now.rows) }
    ensures looks { AreLooks 1 (length rows.now.rows) steps.old steps.new }
{
    rows.known();
    let row = rows.get(name, generation, steps)?;
    if is_soft_at(row.kind, moment) {
        Some(row)
    } else {
        None
    }
}

// A version of this kind is soft-deleted, and isn't gone at `moment`.
fn is_soft_at(kind: Kind, moment: u64) -> bool
    ensures { result ≡ (kind_stays moment kind && not (is_readable kind)) }
{
    stays(kind, moment) && !is_readable(kind)
}
