//! The restore of a deleted bucket.
ghost use Rattle.std.specs.Prelude.{◌≡◌, ◌≤◌, ◌^◌, IfOk, OnErr, Ok};
ghost use Rattle.gcs_meaning.specs.Aging.{aged};
ghost use Rattle.gcs_meaning.specs.BucketRestore.{bucket_restore_step, restored_state};
ghost use Rattle.gcs_meaning.specs.Moment.{effective_moment};
ghost use Rattle.gcs_bucket.specs.Alive.{state_of};
ghost use Rattle.gcs_bucket.specs.BucketRestore.{decided_restore};
ghost use Rattle.gcs_bucket.specs.Slot.{IsReady, value_of};

use crate::alive::State;
use crate::graves::{find_grave, take_grave};
use crate::slot::Slot;
use gcs_meaning::{Answer, BucketName, BucketRow, Reason, effective};
use std::alloc::AllocError;

impl Slot {
    /// The restore of the deleted bucket of a generation. It is decided before ageing, among the deleted buckets that stay.
    pub fn restore_bucket(
        &mut self,
        reading: u64,
        bucket: &BucketName,
        generation: u64,
    ) -> Result<Answer, AllocError>
        requires ready { IsReady (value_of self.old) }
        ensures done { IfOk result (λ answer.
            let t = effective_moment self.old.last_moment reading in
            bucket_restore_step (aged (value_of self.old) t) t bucket.now generation ≡ (answer, value_of self.new)) }
        ensures err { OnErr result (value_of self.new ≡ value_of self.old) }
    {
        let moment = effective(self.last_moment, reading);
        let decision = self.decide_restore(moment, bucket, generation)?;
        self.age(moment);
        match decision {
            Ok(shown) => Ok(self.unbury(moment, generation, shown)),
            Err(reason) => Ok(Answer::Refused(reason)),
        }
    }

    // What the restore comes to at `moment`: it is refused, or this is shown of the bucket. `Err`: no memory.
    fn decide_restore(
        &self,
        moment: u64,
        bucket: &BucketName,
        generation: u64,
    ) -> Result<Result<BucketRow, Reason>, AllocError>
        requires ready { IsReady (value_of self.now) }
        ensures { IfOk result (λ decision.
            bucket_restore_step (aged (value_of self.now) moment) moment bucket.now generation
            ≡ decided_restore decision moment generation (aged (value_of self.now) moment)) }
    {
        let Some(grave) = find_grave(&self.graves, moment, generation) else {
            return Ok(Err(Reason::NoGrave));
        };
        if self.alive.is_some() {
            return Ok(Err(Reason::Exists));
        }
        Ok(Ok(grave.show_restored(bucket, moment)?))
    }

    // Takes the deleted bucket of that generation out of its grave, and answers with it.
    fn unbury(&mut self, moment: u64, generation: u64, shown: BucketRow) -> Answer
        requires ready { IsReady (value_of self.old) }
        ensures { (result, value_of self.new) ≡ decided_restore (Ok shown) moment generation (value_of self.old) }
    {
        let Some(mut state) = take_grave(&mut self.graves, generation) else {
            return Answer::Bucket(shown);
        };
        state.revive(moment);
        self.alive = Some(state);
        Answer::Bucket(shown)
    }
}

impl State {
    /// The bucket is alive again since `moment`.
    pub fn revive(&mut self, moment: u64)
        requires { self.old.metageneration ≤ 2 ^ 62 }
        ensures { state_of self.new ≡ restored_state moment (state_of self.old) }
    {
        self.metageneration += 1;
        self.updated = moment;
    }
}
