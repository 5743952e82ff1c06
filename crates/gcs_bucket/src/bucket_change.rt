//! The change of a bucket's settings.
ghost use Rattle.std.specs.Prelude.{◌≡◌, ◌≤◌, ◌^◌, IfOk, OnErr, Ok};
ghost use Rattle.gcs_meaning.specs.Aging.{aged};
ghost use Rattle.gcs_meaning.specs.BucketChange.{bucket_change_refusal, bucket_change_state, bucket_change_step};
ghost use Rattle.gcs_meaning.specs.Moment.{effective_moment};
ghost use Rattle.gcs_bucket.specs.Alive.{state_of};
ghost use Rattle.gcs_bucket.specs.BucketChange.{decided_settings, MakesBucket};
ghost use Rattle.gcs_bucket.specs.Slot.{IsReady, value_of};

use crate::alive::State;
use crate::refusals::{failed_on_bucket, locked_policy};
use crate::slot::Slot;
use gcs_meaning::{
    Answer, BucketName, BucketRow, Copied, Pre, Reason, Settings, SettingsChange, effective,
};
use std::alloc::AllocError;

/// What a change of settings needs of memory, taken before anything is changed: the settings, and
/// the bucket as it is shown with them.
#[derive(Drop)]
pub struct NewSettings {
    pub settings: Settings,
    pub shown: BucketRow,
}

impl Slot {
    /// The change of the bucket's settings. It is decided before ageing, which changes nothing that it tests.
    pub fn change_bucket(
        &mut self,
        reading: u64,
        bucket: &BucketName,
        pre: &Pre,
        change: &SettingsChange,
        whole: bool,
    ) -> Result<Answer, AllocError>
        requires ready { IsReady (value_of self.old) }
        ensures done { IfOk result (λ answer.
            let t = effective_moment self.old.last_moment reading in
            bucket_change_step (aged (value_of self.old) t) t bucket.now pre.now change.now whole ≡ (answer, value_of self.new)) }
        ensures err { OnErr result (value_of self.new ≡ value_of self.old) }
    {
        let moment = effective(self.last_moment, reading);
        let decision = self.decide_settings(moment, bucket, pre, change, whole)?;
        self.age(moment);
        match decision {
            Ok(made) => Ok(self.set(moment, made)),
            Err(reason) => Ok(Answer::Refused(reason)),
        }
    }

    // What the change comes to at `moment`: it is refused, or this is what it makes. `Err`: no memory.
    fn decide_settings(
        &self,
        moment: u64,
        bucket: &BucketName,
        pre: &Pre,
        change: &SettingsChange,
        whole: bool,
    ) -> Result<Result<NewSettings, Reason>, AllocError>
        requires ready { IsReady (value_of self.now) }
        ensures { IfOk result (λ decision.
            bucket_change_step (aged (value_of self.now) moment) moment bucket.now pre.now change.now whole
            ≡ decided_settings decision moment (aged (value_of self.now) moment)) }
    {
        let Some(state) = &self.alive else {
            return Ok(Err(Reason::NoBucket));
        };
        if let Some(reason) = state.change_refusal(pre, change, whole) {
            return Ok(Err(reason));
        }
        let settings = change.applied(&state.settings, whole, moment)?;
        Ok(Ok(state.prepare_settings(moment, bucket, settings)?))
    }

    /// Gives the bucket that is alive the settings that were decided on at `moment`, and answers with it.
    pub fn set(&mut self, moment: u64, made: NewSettings) -> Answer
        requires ready { IsReady (value_of self.old) }
        ensures { (result, value_of self.new) ≡ decided_settings (Ok made) moment (value_of self.old) }
    {
        let NewSettings { settings, shown } = made;
        if let Some(state) = &mut self.alive {
            state.set(moment, settings);
        }
        Answer::Bucket(shown)
    }
}

impl State {
    /// Takes the memory of these settings at `moment`. `Err`: no memory.
    pub fn prepare_settings(
        &self,
        moment: u64,
        bucket: &BucketName,
        settings: Settings,
    ) -> Result<NewSettings, AllocError>
        requires { self.now.metageneration ≤ 2 ^ 62 }
        ensures { IfOk result (λ made. MakesBucket made bucket.now (bucket_change_state (state_of self.now) moment settings)) }
    {
        let shown = BucketRow {
            name: bucket.copy()?,
            generation: self.generation,
            metageneration: self.metageneration + 1,
            created: self.created,
            updated: moment,
            settings: settings.copy()?,
        };
        Ok(NewSettings { settings, shown })
    }

    /// The first test of a change that fails.
    #[tactic(auto, unfolding(gcs_meaning::specs::BucketChange::bucket_change_refusal))]
    pub fn change_refusal(&self, pre: &Pre, change: &SettingsChange, whole: bool) -> Option<Reason>
        ensures { result ≡ bucket_change_refusal pre.now whole change.now (state_of self.now) }
    {
        let asked = change.period_after(&self.settings, whole);
        failed_on_bucket(pre, self.metageneration).or_else(|| locked_policy(
            self.settings.retention,
            asked,
        ))
    }

    /// Gives the bucket other settings at `moment`.
    pub fn set(&mut self, moment: u64, settings: Settings)
        requires { self.old.metageneration ≤ 2 ^ 62 }
        ensures { state_of self.new ≡ bucket_change_state (state_of self.old) moment settings }
    {
        self.settings = settings;
        self.metageneration += 1;
        self.updated = moment;
    }
}
