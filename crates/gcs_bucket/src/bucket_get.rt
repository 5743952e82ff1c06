//! The read of a bucket.
ghost use Rattle.std.specs.Prelude.{◌≡◌, IfOk, OnErr};
ghost use Rattle.gcs_meaning.specs.Aging.{aged};
ghost use Rattle.gcs_meaning.specs.BucketGet.{bucket_get_step};
ghost use Rattle.gcs_meaning.specs.Moment.{effective_moment};
ghost use Rattle.gcs_bucket.specs.Slot.{value_of};

use crate::refusals::failed_on_bucket;
use crate::slot::Slot;
use gcs_meaning::{Answer, BucketName, Pre, Reason, effective};
use std::alloc::AllocError;

impl Slot {
    /// The read of the bucket. Ageing changes nothing of what is shown, so that it is made before it.
    pub fn get_bucket(
        &mut self,
        reading: u64,
        bucket: &BucketName,
        pre: &Pre,
    ) -> Result<Answer, AllocError>
        ensures done { IfOk result (λ answer.
            let t = effective_moment self.old.last_moment reading in
            bucket_get_step (aged (value_of self.old) t) bucket.now pre.now ≡ (answer, value_of self.new)) }
        ensures err { OnErr result (value_of self.new ≡ value_of self.old) }
    {
        let moment = effective(self.last_moment, reading);
        let answer = self.read_bucket(moment, bucket, pre)?;
        self.age(moment);
        Ok(answer)
    }

    // What the read answers on the slot as it is at `moment`.
    #[tactic(auto, unfolding(gcs_meaning::specs::BucketGet::bucket_get_step, gcs_meaning::specs::Aging::aged_state))]
    fn read_bucket(&self, moment: u64, bucket: &BucketName, pre: &Pre) -> Result<Answer, AllocError>
        ensures { IfOk result (λ answer.
            bucket_get_step (aged (value_of self.now) moment) bucket.now pre.now ≡ (answer, aged (value_of self.now) moment)) }
    {
        let Some(state) = &self.alive else {
            return Ok(Answer::Refused(Reason::NoBucket));
        };
        if let Some(reason) = failed_on_bucket(pre, state.metageneration) {
            return Ok(Answer::Refused(reason));
        }
        Ok(Answer::Bucket(state.show(bucket)?))
    }
}
