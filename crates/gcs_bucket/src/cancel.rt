//! The cancelling of a resumable upload.
ghost use Rattle.std.specs.Prelude.{◌≡◌, IfOk, OnErr};
ghost use Rattle.gcs_meaning.specs.Aging.{aged};
ghost use Rattle.gcs_meaning.specs.Cancel.{cancel_step};
ghost use Rattle.gcs_meaning.specs.Moment.{effective_moment};
ghost use Rattle.gcs_bucket.specs.Slot.{value_of};

use crate::ended::told;
use crate::slot::Slot;
use gcs_meaning::{Answer, Reason, effective};
use std::alloc::AllocError;

impl Slot {
    /// The cancelling of the upload of a number. Ageing changes nothing of an upload that still runs, so that it is
    /// cancelled before it.
    pub fn cancel(&mut self, reading: u64, number: u64) -> Result<Answer, AllocError>
        ensures done { IfOk result (λ answer.
            let t = effective_moment self.old.last_moment reading in
            cancel_step (aged (value_of self.old) t) number ≡ (answer, value_of self.new)) }
        ensures err { OnErr result (value_of self.new ≡ value_of self.old) }
    {
        let moment = effective(self.last_moment, reading);
        let answer = self.cancel_at(moment, number)?;
        self.age(moment);
        Ok(answer)
    }

    // The cancelling, on the slot as it is at `moment`.
    fn cancel_at(&mut self, moment: u64, number: u64) -> Result<Answer, AllocError>
        ensures done { IfOk result (λ answer.
            cancel_step (aged (value_of self.old) moment) number ≡ (answer, aged (value_of self.new) moment)) }
        ensures err { OnErr result (value_of self.new ≡ value_of self.old) }
    {
        if let Some(answer) = self.upload_end(moment, number)? {
            return Ok(answer);
        }
        match &mut self.alive {
            Some(state) => told(state.uploads.cancel(number)),
            None => Ok(Answer::Refused(Reason::NoBucket)),
        }
    }
}
