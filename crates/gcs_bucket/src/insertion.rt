//! The insert of a bucket.
ghost use Rattle.std.specs.Prelude.{◌≡◌, IfOk, OnErr};
ghost use Rattle.std.specs.Option.{option_map};
ghost use Rattle.gcs_meaning.specs.Aging.{aged};
ghost use Rattle.gcs_meaning.specs.Insertion.{in_force, insert_step, new_state, settings_since};
ghost use Rattle.gcs_meaning.specs.Moment.{effective_moment};
ghost use Rattle.gcs_bucket.specs.Alive.{state_of};
ghost use Rattle.gcs_bucket.specs.Slot.{IsReady, value_of};

use crate::alive::State;
use crate::slot::Slot;
use gcs_meaning::{Answer, BucketName, Copied, Reason, Retention, Settings, effective};
use gcs_uploads::Uploads;
use gcs_versions::Versions;
use std::alloc::{AllocError, Global};

impl Slot {
    /// The insert of a bucket. Memory is taken before ageing: a call that fails for it changes nothing.
    #[tactic(auto, unfolding(gcs_meaning::specs::Insertion::insert_step))]
    pub fn insert(
        &mut self,
        reading: u64,
        bucket: &BucketName,
        settings: &Settings,
    ) -> Result<Answer, AllocError>
        requires ready { IsReady (value_of self.old) }
        ensures done { IfOk result (λ answer.
            let t = effective_moment self.old.last_moment reading in
            insert_step (aged (value_of self.old) t) t bucket.now settings.now ≡ (answer, value_of self.new)) }
        ensures err { OnErr result (value_of self.new ≡ value_of self.old) }
    {
        let moment = effective(self.last_moment, reading);
        if self.alive.is_some() {
            self.age(moment);
            return Ok(Answer::Refused(Reason::Exists));
        }
        let generation = moment.max(self.last_bucket + 1);
        let state = State::new(self.alloc, settings, moment, generation)?;
        let row = state.show(bucket)?;
        self.age(moment);
        self.last_bucket = generation;
        self.alive = Some(state);
        Ok(Answer::Bucket(row))
    }
}

impl State {
    /// A bucket as it is inserted. `Err`: no memory.
    pub fn new(
        alloc: Global,
        settings: &Settings,
        moment: u64,
        generation: u64,
    ) -> Result<State, AllocError>
        ensures { IfOk result (λ made. state_of made ≡ new_state settings.now moment generation) }
    {
        Ok(State {
            settings: copy_since(settings, moment)?,
            generation,
            metageneration: 1,
            created: moment,
            updated: moment,
            rows: Versions::new(alloc),
            uploads: Uploads::new(alloc),
        })
    }
}

// The settings of a bucket that is inserted at `moment`: what they say is in force since then.
fn copy_since(settings: &Settings, moment: u64) -> Result<Settings, AllocError>
    ensures { IfOk result (λ made. made ≡ settings_since moment settings.now) }
{
    let mut made = settings.copy()?;
    made.retention = force(settings.retention, moment);
    made.soft_since = moment;
    Ok(made)
}

fn force(policy: Option<Retention>, moment: u64) -> Option<Retention>
    ensures { result ≡ option_map (in_force moment) policy }
{
    match policy {
        Some(policy) => Some(Retention {
            since: moment,
            ..policy
        }),
        None => None,
    }
}
