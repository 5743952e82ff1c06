//! The deletion of a bucket.
ghost use Rattle.std.specs.Prelude.{◌≡◌, ◌<◌, ◌^◌, IfOk, OnErr, vec_len, vec_capacity};
ghost use Rattle.gcs_meaning.specs.Aging.{aged};
ghost use Rattle.gcs_meaning.specs.BucketDeletion.{bucket_delete_refusal, bucket_delete_step, empty_refusal};
ghost use Rattle.gcs_meaning.specs.Moment.{effective_moment};
ghost use Rattle.gcs_bucket.specs.Alive.{AreLimited, state_of};
ghost use Rattle.gcs_bucket.specs.Slot.{IsReady, value_of};

use crate::alive::State;
use crate::graves::{Grave, add_grave};
use crate::refusals::failed_on_bucket;
use crate::slot::Slot;
use gcs_meaning::{Answer, Pre, Reason, effective};
use gcs_versions::Versions;
use std::alloc::AllocError;

impl Slot {
    /// The deletion of the bucket. Room for it among the deleted ones is taken before ageing.
    pub fn delete_bucket(&mut self, reading: u64, pre: &Pre) -> Result<Answer, AllocError>
        requires ready { IsReady (value_of self.old) }
        ensures done { IfOk result (λ answer.
            let t = effective_moment self.old.last_moment reading in
            bucket_delete_step (aged (value_of self.old) t) t pre.now ≡ (answer, value_of self.new)) }
        ensures err { OnErr result (value_of self.new ≡ value_of self.old) }
    {
        let moment = effective(self.last_moment, reading);
        self.graves.reserve(1)?;
        self.age(moment);
        Ok(self.bury(moment, pre))
    }

    // The deletion of the bucket, on a slot that is aged. There is room for a deleted bucket.
    #[tactic(auto, unfolding(gcs_meaning::specs::BucketDeletion::bucket_delete_step))]
    fn bury(&mut self, moment: u64, pre: &Pre) -> Answer
        requires room { vec_len self.old.graves < vec_capacity self.old.graves }
        requires limits { AreLimited (value_of self.old).alive }
        requires moment { moment < 2 ^ 62 }
        ensures { bucket_delete_step (value_of self.old) moment pre.now ≡ (result, value_of self.new) }
    {
        let Some(state) = self.alive.take() else {
            return Answer::Refused(Reason::NoBucket);
        };
        if let Some(reason) = state.delete_refusal(pre) {
            self.alive = Some(state);
            return Answer::Refused(reason);
        }
        add_grave(&mut self.graves, Grave::of(state, moment), moment);
        Answer::Empty
    }
}

impl State {
    /// The first test of the bucket's deletion that fails.
    #[tactic(auto, unfolding(gcs_meaning::specs::BucketDeletion::bucket_delete_refusal))]
    pub fn delete_refusal(&self, pre: &Pre) -> Option<Reason>
        ensures { result ≡ bucket_delete_refusal pre.now (state_of self.now) }
    {
        failed_on_bucket(pre, self.metageneration).or_else(|| not_empty(&self.rows))
    }
}

// A bucket with a live or noncurrent version stays.
fn not_empty(rows: &Versions) -> Option<Reason>
    ensures { result ≡ empty_refusal rows.now.rows }
{
    if rows.has_readable() {
        Some(Reason::NotEmpty)
    } else {
        None
    }
}
