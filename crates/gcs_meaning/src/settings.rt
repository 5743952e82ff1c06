//! Preconditions, the metadata of an object and the settings of a bucket, as plain data.
use crate::copying::Copied;
use crate::pairs::Pairs;
use crate::text::Text;
use std::alloc::AllocError;

/// The preconditions of a request, each absent where it isn't given.
///
/// Source: Cloud Storage, "Request preconditions".
#[derive(Clone, Copy, Debug, PartialEq, Eq)]
pub struct Pre {
    /// `ifGenerationMatch`
    pub generation_is: Option<u64>,
    /// `ifGenerationNotMatch`
    pub generation_not: Option<u64>,
    /// `ifMetagenerationMatch`
    pub metageneration_is: Option<u64>,
    /// `ifMetagenerationNotMatch`
    pub metageneration_not: Option<u64>,
}

/// The metadata of a version that its owner names. `custom_time` is in microseconds since 1970.
///
/// Of a version that stands, `storage_class` and `event_hold` are there: those given, else the bucket's.
pub struct Meta {
    pub content_type: Text,
    pub cache_control: Option<Text>,
    pub content_disposition: Option<Text>,
    pub content_encoding: Option<Text>,
    pub content_language: Option<Text>,
    pub storage_class: Option<Text>,
    pub custom_time: Option<u64>,
    pub temporary_hold: bool,
    pub event_hold: Option<bool>,
    pub custom: Pairs,
}

impl Drop for Meta {
    fn drop(self) {
        let Meta {
            content_type,
            cache_control,
            content_disposition,
            content_encoding,
            content_language,
            storage_class,
            custom_time: _,
            temporary_hold: _,
            event_hold: _,
            custom,
        } = self;
        drop(content_type);
        drop(cache_control);
        drop(content_disposition);
        drop(content_encoding);
        drop(content_language);
        drop(storage_class);
        drop(custom);
    }
}

impl Copied for Meta {
    fn copy(&self) -> Result<Meta, AllocError> {
        Ok(Meta {
            content_type: self.content_type.copy()?,
            cache_control: self.cache_control.copy()?,
            content_disposition: self.content_disposition.copy()?,
            content_encoding: self.content_encoding.copy()?,
            content_language: self.content_language.copy()?,
            storage_class: self.storage_class.copy()?,
            custom_time: self.custom_time,
            temporary_hold: self.temporary_hold,
            event_hold: self.event_hold,
            custom: self.custom.copy()?,
        })
    }
}

/// A bucket's retention policy: its period in seconds, since when it is in force (microseconds since 1970), and
/// whether it is locked.
#[derive(Clone, Copy, Debug, PartialEq, Eq)]
pub struct Retention {
    pub period: u64,
    pub since: u64,
    pub locked: bool,
}

/// The settings of a bucket. `soft_seconds` is the soft-delete duration, 0 where there is none, and `soft_since`
/// (microseconds since 1970) is since when it is in force.
pub struct Settings {
    pub location: Text,
    pub storage_class: Text,
    pub labels: Pairs,
    pub lifecycle: Option<Text>,
    pub versioned: bool,
    pub default_event_hold: bool,
    pub retention: Option<Retention>,
    pub soft_seconds: u64,
    pub soft_since: u64,
}

impl Drop for Settings {
    fn drop(self) {
        let Settings {
            location,
            storage_class,
            labels,
            lifecycle,
            versioned: _,
            default_event_hold: _,
            retention: _,
            soft_seconds: _,
            soft_since: _,
        } = self;
        drop(location);
        drop(storage_class);
        drop(labels);
        drop(lifecycle);
    }
}

impl Copied for Settings {
    fn copy(&self) -> Result<Settings, AllocError> {
        Ok(Settings {
            location: self.location.copy()?,
            storage_class: self.storage_class.copy()?,
            labels: self.labels.copy()?,
            lifecycle: self.lifecycle.copy()?,
            versioned: self.versioned,
            default_event_hold: self.default_event_hold,
            retention: self.retention,
            soft_seconds: self.soft_seconds,
            soft_since: self.soft_since,
        })
    }
}
