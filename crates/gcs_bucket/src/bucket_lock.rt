//! The lock of a bucket's retention policy.
ghost use Rattle.std.specs.Prelude.{◌≡◌, IfOk, OnErr};
ghost use Rattle.std.specs.Option.{option_map};
ghost use Rattle.gcs_meaning.specs.Aging.{aged};
ghost use Rattle.gcs_meaning.specs.BucketLock.{bucket_lock_refusal, bucket_lock_step, locked_policy, locked_settings, no_policy_refusal};
ghost use Rattle.gcs_meaning.specs.Moment.{effective_moment};
ghost use Rattle.gcs_bucket.specs.Alive.{state_of};
ghost use Rattle.gcs_bucket.specs.BucketChange.{decided_settings};
ghost use Rattle.gcs_bucket.specs.Slot.{IsReady, value_of};

use crate::alive::State;
use crate::bucket_change::NewSettings;
use crate::refusals::failed_on_bucket;
use crate::slot::Slot;
use gcs_meaning::{Answer, BucketName, Copied, Pre, Reason, Retention, Settings, effective};
use std::alloc::AllocError;

impl Slot {
    /// The lock of the bucket's retention policy. It is decided before ageing, which changes nothing that it tests.
    pub fn lock_bucket(
        &mut self,
        reading: u64,
        bucket: &BucketName,
        pre: &Pre,
    ) -> Result<Answer, AllocError>
        requires ready { IsReady (value_of self.old) }
        ensures done { IfOk result (λ answer.
            let t = effective_moment self.old.last_moment reading in
            bucket_lock_step (aged (value_of self.old) t) t bucket.now pre.now ≡ (answer, value_of self.new)) }
        ensures err { OnErr result (value_of self.new ≡ value_of self.old) }
    {
        let moment = effective(self.last_moment, reading);
        let decision = self.decide_lock(moment, bucket, pre)?;
        self.age(moment);
        match decision {
            Ok(made) => Ok(self.set(moment, made)),
            Err(reason) => Ok(Answer::Refused(reason)),
        }
    }

    // What the lock comes to at `moment`: it is refused, or this is what it makes. `Err`: no memory.
    fn decide_lock(
        &self,
        moment: u64,
        bucket: &BucketName,
        pre: &Pre,
    ) -> Result<Result<NewSettings, Reason>, AllocError>
        requires ready { IsReady (value_of self.now) }
        ensures { IfOk result (λ decision.
            bucket_lock_step (aged (value_of self.now) moment) moment bucket.now pre.now
            ≡ decided_settings decision moment (aged (value_of self.now) moment)) }
    {
        let Some(state) = &self.alive else {
            return Ok(Err(Reason::NoBucket));
        };
        if let Some(reason) = state.lock_refusal(pre) {
            return Ok(Err(reason));
        }
        let settings = copy_locked(&state.settings)?;
        Ok(Ok(state.prepare_settings(moment, bucket, settings)?))
    }
}

impl State {
    /// The first test of a lock that fails.
    #[tactic(auto, unfolding(gcs_meaning::specs::BucketLock::bucket_lock_refusal))]
    pub fn lock_refusal(&self, pre: &Pre) -> Option<Reason>
        ensures { result ≡ bucket_lock_refusal pre.now (state_of self.now) }
    {
        failed_on_bucket(pre, self.metageneration).or_else(|| no_policy(self.settings.retention))
    }
}

// A bucket without a policy has nothing to lock.
fn no_policy(policy: Option<Retention>) -> Option<Reason>
    ensures { result ≡ no_policy_refusal policy }
{
    match policy {
        Some(_) => None,
        None => Some(Reason::NoPolicy),
    }
}

// The settings, with their policy locked.
fn copy_locked(settings: &Settings) -> Result<Settings, AllocError>
    ensures { IfOk result (λ made. made ≡ locked_settings settings.now) }
{
    let mut made = settings.copy()?;
    made.retention = lock(settings.retention);
    Ok(made)
}

fn lock(policy: Option<Retention>) -> Option<Retention>
    ensures { result ≡ option_map locked_policy policy }
{
    match policy {
        Some(policy) => Some(Retention {
            locked: true,
            ..policy
        }),
        None => None,
    }
}
