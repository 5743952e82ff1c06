//! The commands on the bucket itself.
use crate::changes::{changed, changed_option, changed_pairs};
use crate::kept::{Bucket, Grave, Slot, Stop, Wanted};
use crate::puts::check_metageneration;
use gcs_meaning::{
    Copied, DEFAULT_CLASS, DEFAULT_SOFT_SECONDS, Kind, Pre, Reason, Retention, Set, Settings,
    SettingsChange, Text,
};
use std::alloc::AllocError;

impl Slot {
    /// A new bucket, where the name isn't alive.
    pub fn insert(&mut self, moment: u64, settings: &Settings) -> Result<Wanted, Stop> {
        if self.alive.is_some() {
            return Err(Stop::Refused(Reason::Exists));
        }
        let mut settings = settings.copy()?;
        settings.soft_since = moment;
        if let Some(policy) = &mut settings.retention {
            policy.since = moment;
        }
        let generation = moment.max(self.last_bucket.saturating_add(1));
        self.last_bucket = generation;
        self.alive = Some(Bucket {
            settings,
            generation,
            metageneration: 1,
            created: moment,
            updated: moment,
            versions: Vec::new(self.alloc),
            uploads: Vec::new(self.alloc),
        });
        Ok(Wanted::Bucket)
    }

    /// Deletes the bucket, which is kept for a while where its versions or its duration ask for it.
    pub fn delete_bucket(&mut self, moment: u64, pre: &Pre) -> Result<Wanted, Stop> {
        let alloc = self.alloc;
        let bucket = self.alive()?;
        check_metageneration(pre, bucket.metageneration)?;
        let mut hard = bucket.soft_end(moment);
        for version in &bucket.versions {
            match version.kind {
                Kind::Soft { hard: end, .. } => hard = hard.max(end),
                Kind::Live | Kind::Noncurrent { .. } => {
                    return Err(Stop::Refused(Reason::NotEmpty));
                }
            }
        }
        bucket.uploads = Vec::new(alloc);
        if let Some(bucket) = self.alive.take()
            && hard > moment
        {
            self.graves.push(Grave { bucket, hard })?;
        }
        Ok(Wanted::Empty)
    }

    /// The deleted bucket of that generation is alive again.
    pub fn restore_bucket(&mut self, moment: u64, generation: u64) -> Result<Wanted, Stop> {
        let place = self
            .graves
            .iter()
            .position(|grave| grave.bucket.generation == generation)
            .ok_or(Stop::Refused(Reason::NoGrave))?;
        if self.alive.is_some() {
            return Err(Stop::Refused(Reason::Exists));
        }
        let Grave { mut bucket, .. } = self.graves.remove(place);
        bucket.touch(moment);
        self.alive = Some(bucket);
        Ok(Wanted::Bucket)
    }
}

impl Bucket {
    // One change more.
    fn touch(&mut self, moment: u64) {
        self.metageneration = self.metageneration.saturating_add(1);
        self.updated = moment;
    }

    /// Locks the policy, also where it is locked.
    pub fn lock(&mut self, moment: u64, pre: &Pre) -> Result<Wanted, Stop> {
        check_metageneration(pre, self.metageneration)?;
        match &mut self.settings.retention {
            Some(policy) => policy.locked = true,
            None => return Err(Stop::Refused(Reason::NoPolicy)),
        }
        self.touch(moment);
        Ok(Wanted::Bucket)
    }

    /// Changes the settings.
    pub fn change_bucket(
        &mut self,
        moment: u64,
        pre: &Pre,
        change: &SettingsChange,
        whole: bool,
    ) -> Result<Wanted, Stop> {
        check_metageneration(pre, self.metageneration)?;
        let settings = changed_settings(moment, &self.settings, change, whole)?;
        if let Some(policy) = self.settings.retention
            && policy.locked
        {
            let asked = match settings.retention {
                Some(policy) => policy.period,
                None => 0,
            };
            if asked < policy.period {
                return Err(Stop::Refused(Reason::Locked {
                    kept: policy.period,
                    asked,
                }));
            }
        }
        self.settings = settings;
        self.touch(moment);
        Ok(Wanted::Bucket)
    }
}

fn changed_settings(
    moment: u64,
    had: &Settings,
    change: &SettingsChange,
    whole: bool,
) -> Result<Settings, AllocError> {
    let default_class = had.storage_class.another(DEFAULT_CLASS)?;
    let soft_seconds = changed(
        &had.soft_seconds,
        &change.soft_seconds,
        whole,
        DEFAULT_SOFT_SECONDS,
    )?;
    let is_same = soft_seconds == had.soft_seconds;
    Ok(Settings {
        location: had.location.copy()?,
        storage_class: changed(
            &had.storage_class,
            &change.storage_class,
            whole,
            default_class,
        )?,
        labels: changed_pairs(&had.labels, &change.labels, whole)?,
        lifecycle: changed_option(&had.lifecycle, &change.lifecycle, whole)?,
        versioned: changed(&had.versioned, &change.versioned, whole, false)?,
        default_event_hold: changed(
            &had.default_event_hold,
            &change.default_event_hold,
            whole,
            false,
        )?,
        retention: changed_policy(moment, had.retention, &change.retention_period, whole),
        soft_seconds,
        soft_since: if is_same { had.soft_since } else { moment },
    })
}

// A policy is in force anew where its period changes.
fn changed_policy(
    moment: u64,
    had: Option<Retention>,
    change: &Set<u64>,
    whole: bool,
) -> Option<Retention> {
    let period = match change {
        Set::To(period) => *period,
        Set::Keep if !whole => return had,
        Set::Keep | Set::Clear => return None,
    };
    match had {
        Some(policy) if policy.period == period => Some(policy),
        Some(policy) => Some(Retention {
            period,
            since: moment,
            locked: policy.locked,
        }),
        None => Some(Retention {
            period,
            since: moment,
            locked: false,
        }),
    }
}
