//! A piece of a resumable upload.
ghost use Rattle.std.specs.Prelude.{◌≡◌, IfOk, OnErr};
ghost use Rattle.gcs_meaning.specs.Aging.{aged};
ghost use Rattle.gcs_meaning.specs.Append.{append_step};
ghost use Rattle.gcs_meaning.specs.Moment.{effective_moment};
ghost use Rattle.gcs_bucket.specs.Slot.{value_of};

use crate::ended::told;
use crate::slot::Slot;
use gcs_chunks::Content;
use gcs_meaning::{Answer, Reason, effective};
use std::alloc::AllocError;

impl Slot {
    /// A piece of the upload of a number. Ageing changes nothing of an upload that still runs, so that the piece is kept
    /// before it.
    pub fn append(
        &mut self,
        reading: u64,
        number: u64,
        offset: Option<u64>,
        total: Option<u64>,
        content: &Content,
    ) -> Result<Answer, AllocError>
        ensures done { IfOk result (λ answer.
            let t = effective_moment self.old.last_moment reading in
            append_step (aged (value_of self.old) t) number offset total content.now ≡ (answer, value_of self.new)) }
        ensures err { OnErr result (value_of self.new ≡ value_of self.old) }
    {
        let moment = effective(self.last_moment, reading);
        let answer = self.append_at(moment, number, offset, total, content)?;
        self.age(moment);
        Ok(answer)
    }

    // The piece, on the slot as it is at `moment`.
    fn append_at(
        &mut self,
        moment: u64,
        number: u64,
        offset: Option<u64>,
        total: Option<u64>,
        content: &Content,
    ) -> Result<Answer, AllocError>
        ensures done { IfOk result (λ answer.
            append_step (aged (value_of self.old) moment) number offset total content.now ≡ (answer, aged (value_of self.new) moment)) }
        ensures err { OnErr result (value_of self.new ≡ value_of self.old) }
    {
        if let Some(answer) = self.upload_end(moment, number)? {
            return Ok(answer);
        }
        match &mut self.alive {
            Some(state) => told(state.uploads.append(number, offset, total, content)),
            None => Ok(Answer::Refused(Reason::NoBucket)),
        }
    }
}
