//! What covers a version, and what becomes of one that is taken away.
use crate::kept::{Bucket, Stop, Version, Wanted};
use crate::puts::check_pre;
use gcs_meaning::{Kind, MICROSECONDS_PER_SECOND, Name, Pre, Reason};

impl Bucket {
    /// Tests that nothing covers a live or noncurrent version.
    pub fn check_cover(&self, version: &Version, moment: u64) -> Result<(), Stop> {
        if version.body.meta.temporary_hold {
            return Err(Stop::Refused(Reason::Held { event: false }));
        }
        if version.body.meta.event_hold == Some(true) {
            return Err(Stop::Refused(Reason::Held { event: true }));
        }
        let until = self.retained_until(version);
        if moment < until {
            return Err(Stop::Refused(Reason::Retained { until, now: moment }));
        }
        Ok(())
    }

    /// The end of a version's retention, which is its start where the bucket has no policy.
    pub fn retained_until(&self, version: &Version) -> u64 {
        let period = match self.settings.retention {
            Some(policy) => policy.period.saturating_mul(MICROSECONDS_PER_SECOND),
            None => 0,
        };
        version.retention_start.saturating_add(period)
    }

    /// The end of the soft-delete duration that begins at this moment.
    pub fn soft_end(&self, moment: u64) -> u64 {
        moment.saturating_add(
            self.settings
                .soft_seconds
                .saturating_mul(MICROSECONDS_PER_SECOND),
        )
    }

    /// Where the version stands that a command chooses: the live one of a name, or the live or noncurrent one of a generation.
    pub fn chosen(&self, name: &Name, generation: Option<u64>) -> Result<usize, Stop> {
        self.versions
            .iter()
            .position(|version| {
                version.is_of(name)
                    && match generation {
                        Some(generation) => !version.is_soft() && version.generation == generation,
                        None => version.kind == Kind::Live,
                    }
            })
            .ok_or(Stop::Refused(Reason::NoObject))
    }

    /// Takes away the version at a place, or makes it noncurrent.
    pub fn retire(&mut self, place: usize, moment: u64, is_kept: bool) {
        let hard = self.soft_end(moment);
        let Some(version) = self.versions.get_mut(place) else {
            return;
        };
        if is_kept {
            version.kind = Kind::Noncurrent { at: moment };
        } else if self.settings.soft_seconds > 0 {
            version.kind = Kind::Soft { at: moment, hard };
        } else {
            self.versions.remove(place);
        }
    }

    /// Deletes a version, which in a versioned bucket becomes noncurrent where its generation isn't named.
    pub fn delete(
        &mut self,
        moment: u64,
        name: &Name,
        generation: Option<u64>,
        pre: &Pre,
    ) -> Result<Wanted, Stop> {
        let place = self.chosen(name, generation)?;
        let version = self.at(place)?;
        check_pre(pre, version.generation, version.metageneration)?;
        let is_kept = self.settings.versioned && generation.is_none();
        if !is_kept {
            self.check_cover(version, moment)?;
        }
        self.retire(place, moment, is_kept);
        Ok(Wanted::Empty)
    }

    /// The version at a place.
    pub fn at(&self, place: usize) -> Result<&Version, Stop> {
        self.versions
            .get(place)
            .ok_or(Stop::Refused(Reason::NoObject))
    }
}
