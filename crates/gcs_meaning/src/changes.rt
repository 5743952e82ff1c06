//! What a change does to the metadata of an object or to the settings of a bucket.
use crate::copying::Copied;
use crate::list::List;
use crate::text::Text;
use std::alloc::AllocError;

/// What a change does to one field.
#[derive(Drop)]
pub enum Set<T> {
    /// The field isn't named: a PATCH leaves it, a PUT sets its default.
    Keep,
    /// The field gets its default, or goes.
    Clear,
    To(T),
}

impl<T: Copied> Copied for Set<T> {
    fn copy(&self) -> Result<Set<T>, AllocError> {
        match self {
            Set::Keep => Ok(Set::Keep),
            Set::Clear => Ok(Set::Clear),
            Set::To(value) => Ok(Set::To(value.copy()?)),
        }
    }
}

/// A change of an object's metadata. `custom_time` is in microseconds since 1970.
///
/// Of `custom`, a pair without a value removes its key, and of pairs with one key the last counts.
pub struct MetaChange {
    pub content_type: Set<Text>,
    pub cache_control: Set<Text>,
    pub content_disposition: Set<Text>,
    pub content_encoding: Set<Text>,
    pub content_language: Set<Text>,
    pub custom_time: Set<u64>,
    pub temporary_hold: Set<bool>,
    pub event_hold: Set<bool>,
    pub custom: Set<List<(Text, Option<Text>)>>,
}

impl Drop for MetaChange {
    fn drop(self) {
        let MetaChange {
            content_type,
            cache_control,
            content_disposition,
            content_encoding,
            content_language,
            custom_time,
            temporary_hold,
            event_hold,
            custom,
        } = self;
        drop(content_type);
        drop(cache_control);
        drop(content_disposition);
        drop(content_encoding);
        drop(content_language);
        drop(custom_time);
        drop(temporary_hold);
        drop(event_hold);
        drop(custom);
    }
}

impl Copied for MetaChange {
    fn copy(&self) -> Result<MetaChange, AllocError> {
        Ok(MetaChange {
            content_type: self.content_type.copy()?,
            cache_control: self.cache_control.copy()?,
            content_disposition: self.content_disposition.copy()?,
            content_encoding: self.content_encoding.copy()?,
            content_language: self.content_language.copy()?,
            custom_time: self.custom_time.copy()?,
            temporary_hold: self.temporary_hold.copy()?,
            event_hold: self.event_hold.copy()?,
            custom: self.custom.copy()?,
        })
    }
}

/// A change of a bucket's settings. Periods and durations are in seconds. `labels` is read as `custom` of `MetaChange`.
pub struct SettingsChange {
    pub labels: Set<List<(Text, Option<Text>)>>,
    pub lifecycle: Set<Text>,
    pub versioned: Set<bool>,
    pub default_event_hold: Set<bool>,
    pub retention_period: Set<u64>,
    pub soft_seconds: Set<u64>,
    pub storage_class: Set<Text>,
}

impl Drop for SettingsChange {
    fn drop(self) {
        let SettingsChange {
            labels,
            lifecycle,
            versioned,
            default_event_hold,
            retention_period,
            soft_seconds,
            storage_class,
        } = self;
        drop(labels);
        drop(lifecycle);
        drop(versioned);
        drop(default_event_hold);
        drop(retention_period);
        drop(soft_seconds);
        drop(storage_class);
    }
}

impl Copied for SettingsChange {
    fn copy(&self) -> Result<SettingsChange, AllocError> {
        Ok(SettingsChange {
            labels: self.labels.copy()?,
            lifecycle: self.lifecycle.copy()?,
            versioned: self.versioned.copy()?,
            default_event_hold: self.default_event_hold.copy()?,
            retention_period: self.retention_period.copy()?,
            soft_seconds: self.soft_seconds.copy()?,
            storage_class: self.storage_class.copy()?,
        })
    }
}
