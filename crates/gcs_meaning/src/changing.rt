//! What a change makes of the settings of a bucket and of the metadata of an object.
ghost use Rattle.std.specs.Prelude.{◌≡◌, [], if◌then◌else◌, IfOk, OnOk};
ghost use Rattle.gcs_meaning.specs.BucketChange.{changed_period, changed_settings, policy_of, since_change};
ghost use Rattle.gcs_meaning.specs.Changes.{changed, changed_option, changed_pairs};
ghost use Rattle.gcs_meaning.specs.ObjectChange.{changed_meta};
ghost use Rattle.gcs_meaning.specs.Pairs.{set_pairs};

use crate::changes::{MetaChange, Set, SettingsChange};
use crate::copying::Copied;
use crate::limits::{DEFAULT_CLASS, DEFAULT_CONTENT_TYPE, DEFAULT_SOFT_SECONDS};
use crate::list::List;
use crate::pairs::Pairs;
use crate::settings::{Meta, Retention, Settings};
use crate::text::Text;
use std::alloc::AllocError;

impl SettingsChange {
    /// The settings once this change is made at `moment` (microseconds since 1970). A change that is `whole` sets each
    /// field that it doesn't name to its default. `Err`: no memory.
    ///
    /// Source: Cloud Storage JSON API, "Buckets: patch" and "Buckets: update".
    #[tactic(auto, unfolding(crate::specs::BucketChange::changed_settings))]
    pub fn applied(
        &self,
        settings: &Settings,
        whole: bool,
        moment: u64,
    ) -> Result<Settings, AllocError>
        ensures { IfOk result (λ made. made ≡ changed_settings moment whole self.now settings.now) }
    {
        let period = self.period_after(settings, whole);
        let soft_seconds = plain(
            whole,
            DEFAULT_SOFT_SECONDS,
            settings.soft_seconds,
            &self.soft_seconds,
        );
        Ok(Settings {
            location: settings.location.copy()?,
            storage_class: text_after(
                whole,
                DEFAULT_CLASS,
                &settings.storage_class,
                &self.storage_class,
            )?,
            labels: pairs_after(whole, &settings.labels, &self.labels)?,
            lifecycle: option_after(whole, &settings.lifecycle, &self.lifecycle)?,
            versioned: plain(whole, false, settings.versioned, &self.versioned),
            default_event_hold: plain(
                whole,
                false,
                settings.default_event_hold,
                &self.default_event_hold,
            ),
            retention: policy_after(moment, settings.retention, period),
            soft_seconds,
            soft_since: since(
                moment,
                settings.soft_seconds,
                settings.soft_since,
                soft_seconds,
            ),
        })
    }

    /// The retention period in seconds that the change leaves, if any.
    pub fn period_after(&self, settings: &Settings, whole: bool) -> Option<u64>
        ensures { result ≡ changed_period whole self.now settings.now }
    {
        let had = settings.retention.map(|policy| policy.period);
        plain_option(whole, had, &self.retention_period)
    }
}

impl MetaChange {
    /// The metadata once this change is made. A change that is `whole` sets each field that it doesn't name to its
    /// default. `Err`: no memory.
    ///
    /// Source: Cloud Storage JSON API, "Objects: patch" and "Objects: update".
    #[tactic(auto, unfolding(crate::specs::ObjectChange::changed_meta))]
    pub fn applied(&self, meta: &Meta, whole: bool) -> Result<Meta, AllocError>
        ensures { IfOk result (λ made. made ≡ changed_meta whole self.now meta.now) }
    {
        Ok(Meta {
            content_type: text_after(
                whole,
                DEFAULT_CONTENT_TYPE,
                &meta.content_type,
                &self.content_type,
            )?,
            cache_control: option_after(whole, &meta.cache_control, &self.cache_control)?,
            content_disposition: option_after(
                whole,
                &meta.content_disposition,
                &self.content_disposition,
            )?,
            content_encoding: option_after(whole, &meta.content_encoding, &self.content_encoding)?,
            content_language: option_after(whole, &meta.content_language, &self.content_language)?,
            storage_class: meta.storage_class.copy()?,
            custom_time: plain_option(whole, meta.custom_time, &self.custom_time),
            temporary_hold: plain(whole, false, meta.temporary_hold, &self.temporary_hold),
            event_hold: Some(plain(
                whole,
                false,
                meta.event_hold.unwrap_or(false),
                &self.event_hold,
            )),
            custom: pairs_after(whole, &meta.custom, &self.custom)?,
        })
    }
}

// A field with this default.
fn plain<T: Copy>(whole: bool, default: T, had: T, change: &Set<T>) -> T
    ensures { result ≡ changed whole default had change.now }
{
    match change {
        Set::Keep if !whole => had,
        Set::Keep | Set::Clear => default,
        Set::To(value) => *value,
    }
}

// A field that is absent by default.
fn plain_option<T: Copy>(whole: bool, had: Option<T>, change: &Set<T>) -> Option<T>
    ensures { result ≡ changed_option whole had change.now }
{
    match change {
        Set::Keep if !whole => had,
        Set::Keep | Set::Clear => None,
        Set::To(value) => Some(*value),
    }
}

fn text_after(
    whole: bool,
    default: &str,
    had: &Text,
    change: &Set<Text>,
) -> Result<Text, AllocError>
    ensures { IfOk result (λ made. made ≡ changed whole default.now had.now change.now) }
{
    match change {
        Set::Keep if !whole => had.copy(),
        Set::Keep | Set::Clear => had.another(default),
        Set::To(value) => value.copy(),
    }
}

fn option_after(
    whole: bool,
    had: &Option<Text>,
    change: &Set<Text>,
) -> Result<Option<Text>, AllocError>
    ensures { IfOk result (λ made. made ≡ changed_option whole had.now change.now) }
{
    match change {
        Set::Keep if !whole => had.copy(),
        Set::Keep | Set::Clear => Ok(None),
        Set::To(value) => Ok(Some(value.copy()?)),
    }
}

fn pairs_after(
    whole: bool,
    had: &Pairs,
    change: &Set<List<(Text, Option<Text>)>>,
) -> Result<Pairs, AllocError>
    ensures { IfOk result (λ made. made ≡ changed_pairs whole had.now change.now) }
{
    match change {
        Set::Keep => first_pairs(whole, had),
        Set::Clear => Ok(had.emptied()),
        Set::To(asked) => {
            let mut made = first_pairs(whole, had)?;
            set_each(&mut made, asked)?;
            Ok(made)
        }
    }
}

// The pairs that a change begins with.
fn first_pairs(whole: bool, had: &Pairs) -> Result<Pairs, AllocError>
    ensures { IfOk result (λ made. made ≡ (if whole then [] else had.now)) }
{
    if whole { Ok(had.emptied()) } else { had.copy() }
}

// `Err`: no memory, and some may be set.
fn set_each(pairs: &mut Pairs, asked: &List<(Text, Option<Text>)>) -> Result<(), AllocError>
    ensures { OnOk result (pairs.new ≡ set_pairs pairs.old asked.now) }
{
    for (key, value) in asked.as_slice() {
        pairs.set(key, value)?;
    }
    Ok(())
}

// A policy that was there keeps its lock, and since when it is in force where its period stays.
fn policy_after(moment: u64, had: Option<Retention>, period: Option<u64>) -> Option<Retention>
    ensures { result ≡ policy_of moment had period }
{
    let period = period?;
    match had {
        Some(policy) => Some(Retention {
            period,
            since: since(moment, policy.period, policy.since, period),
            locked: policy.locked,
        }),
        None => Some(Retention {
            period,
            since: moment,
            locked: false,
        }),
    }
}

// Since when a number is in force that was another until `moment`, or the same.
fn since(moment: u64, had: u64, had_since: u64, number: u64) -> u64
    ensures { result ≡ since_change moment had had_since number }
{
    if number == had { had_since } else { moment }
}
