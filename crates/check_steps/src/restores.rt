//! Versions that are made of others: restores of soft-deleted ones, and composes.
use crate::kept::{Body, Slot, Stop, Wanted};
use gcs_meaning::{Copied, Expect, Meta, Name, Part, Pre, Reason};

/// A composed version counts at most so many components.
const MOST_COMPONENTS: u64 = 2_147_483_647;

/// No digest is told.
pub const ANY_DIGEST: Expect = Expect {
    crc: None,
    md5: None,
};

impl Slot {
    /// A new version of what a soft-deleted one has, but for its holds.
    pub fn restore(
        &mut self,
        moment: u64,
        name: &Name,
        generation: u64,
        pre: &Pre,
    ) -> Result<Wanted, Stop> {
        let mut body = self.alive()?.soft(name, generation)?.body.copy()?;
        body.meta.temporary_hold = false;
        body.meta.event_hold = None;
        self.put(moment, body, pre, &ANY_DIGEST)
    }

    /// A new version of the bytes of its sources, one behind the other.
    pub fn compose(
        &mut self,
        moment: u64,
        (name, meta): (&Name, &Meta),
        pre: &Pre,
        parts: &[Part],
    ) -> Result<Wanted, Stop> {
        let mut bytes = Vec::new(self.alloc);
        let mut components: u64 = 0;
        let bucket = self.alive()?;
        for (i, part) in parts.iter().enumerate() {
            let i = i as u64;
            let Ok(place) = bucket.chosen(&part.name, part.generation) else {
                return Err(Stop::Refused(Reason::NoSource { i }));
            };
            let source = bucket.at(place)?;
            let found = source.generation;
            if let Some(wanted) = part.generation_is
                && wanted != found
            {
                return Err(Stop::Refused(Reason::SourceCondition { i, wanted, found }));
            }
            bytes.extend_from_slice(&source.body.bytes)?;
            components = components.saturating_add(u64::from(source.body.components.unwrap_or(1)));
        }
        let body = Body {
            name: name.copy()?,
            bytes,
            has_md5: false,
            components: Some(components.min(MOST_COMPONENTS) as u32),
            meta: meta.copy()?,
        };
        self.put(moment, body, pre, &ANY_DIGEST)
    }
}
