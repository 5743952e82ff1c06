//! Changes of an object's metadata, and reads of it.
use crate::kept::{Bucket, Stop, Version, Wanted};
use crate::puts::check_pre;
use gcs_meaning::{
    Copied, DEFAULT_CONTENT_TYPE, LARGEST_CUSTOM, List, Meta, MetaChange, Name, Pairs, Pre, Reason,
    Set, Text,
};
use std::alloc::AllocError;

/// A field after a change. `default` is what one is that isn't there.
pub fn changed<T: Copied>(
    had: &T,
    change: &Set<T>,
    whole: bool,
    default: T,
) -> Result<T, AllocError> {
    match change {
        Set::To(value) => value.copy(),
        Set::Keep if !whole => had.copy(),
        Set::Keep | Set::Clear => Ok(default),
    }
}

/// A field that may be absent, after a change.
pub fn changed_option<T: Copied>(
    had: &Option<T>,
    change: &Set<T>,
    whole: bool,
) -> Result<Option<T>, AllocError> {
    match change {
        Set::To(value) => Ok(Some(value.copy()?)),
        Set::Keep if !whole => had.copy(),
        Set::Keep | Set::Clear => Ok(None),
    }
}

/// Pairs after a change, taken in the order of its list. A whole change begins with none.
pub fn changed_pairs(
    had: &Pairs,
    change: &Set<List<(Text, Option<Text>)>>,
    whole: bool,
) -> Result<Pairs, AllocError> {
    let is_cleared = match change {
        Set::Clear => true,
        Set::Keep | Set::To(_) => whole,
    };
    let mut pairs = if is_cleared {
        had.emptied()
    } else {
        had.copy()?
    };
    if let Set::To(asked) = change {
        for (key, value) in asked.as_slice() {
            pairs.set(key, value)?;
        }
    }
    Ok(pairs)
}

fn changed_meta(had: &Meta, change: &MetaChange, whole: bool) -> Result<Meta, AllocError> {
    let default_type = had.content_type.another(DEFAULT_CONTENT_TYPE)?;
    let hold = had.event_hold.unwrap_or(false);
    Ok(Meta {
        content_type: changed(&had.content_type, &change.content_type, whole, default_type)?,
        cache_control: changed_option(&had.cache_control, &change.cache_control, whole)?,
        content_disposition: changed_option(
            &had.content_disposition,
            &change.content_disposition,
            whole,
        )?,
        content_encoding: changed_option(&had.content_encoding, &change.content_encoding, whole)?,
        content_language: changed_option(&had.content_language, &change.content_language, whole)?,
        storage_class: had.storage_class.copy()?,
        custom_time: changed_option(&had.custom_time, &change.custom_time, whole)?,
        temporary_hold: changed(&had.temporary_hold, &change.temporary_hold, whole, false)?,
        event_hold: Some(changed(&hold, &change.event_hold, whole, false)?),
        custom: changed_pairs(&had.custom, &change.custom, whole)?,
    })
}

// A custom time is neither removed nor set back, and custom metadata has its limit.
fn check_meta(had: &Meta, meta: &Meta) -> Result<(), Stop> {
    if let Some(had) = had.custom_time {
        let asked = meta.custom_time.unwrap_or(0);
        if asked < had || meta.custom_time.is_none() {
            return Err(Stop::Refused(Reason::TimeBack { had, asked }));
        }
    }
    let mut length: u64 = 0;
    for (key, value) in meta.custom.as_slice() {
        length = length.saturating_add(key.as_bytes().len() as u64);
        length = length.saturating_add(value.as_bytes().len() as u64);
    }
    if length > LARGEST_CUSTOM {
        return Err(Stop::Refused(Reason::MetadataTooLong { length }));
    }
    Ok(())
}

impl Bucket {
    /// Changes the metadata of the version that is chosen.
    pub fn change(
        &mut self,
        moment: u64,
        (name, generation): (&Name, Option<u64>),
        pre: &Pre,
        change: &MetaChange,
        whole: bool,
    ) -> Result<Wanted, Stop> {
        let place = self.chosen(name, generation)?;
        let version = self
            .versions
            .get_mut(place)
            .ok_or(Stop::Refused(Reason::NoObject))?;
        check_pre(pre, version.generation, version.metageneration)?;
        let meta = changed_meta(&version.body.meta, change, whole)?;
        check_meta(&version.body.meta, &meta)?;
        // The release of an event-based hold begins the retention anew.
        if version.body.meta.event_hold == Some(true) && meta.event_hold == Some(false) {
            version.retention_start = moment;
        }
        version.body.meta = meta;
        version.metageneration = version.metageneration.saturating_add(1);
        version.updated = moment;
        Ok(Wanted::Object(version.copy()?))
    }

    /// Reads a version: with `soft` the soft-deleted one of the generation.
    pub fn get(
        &self,
        name: &Name,
        generation: Option<u64>,
        soft: bool,
        pre: &Pre,
    ) -> Result<Wanted, Stop> {
        let version = match generation {
            Some(generation) if soft => self.soft(name, generation)?,
            None if soft => return Err(Stop::Refused(Reason::NoObject)),
            _ => self.at(self.chosen(name, generation)?)?,
        };
        check_pre(pre, version.generation, version.metageneration)?;
        Ok(Wanted::Object(version.copy()?))
    }

    /// The soft-deleted version of a generation.
    pub fn soft(&self, name: &Name, generation: u64) -> Result<&Version, Stop> {
        self.versions
            .iter()
            .find(|version| version.is_soft()
                && version.is_of(name)
                && version.generation == generation)
            .ok_or(Stop::Refused(Reason::NoObject))
    }
}
