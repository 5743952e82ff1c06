//! The settings of a bucket that is made.
ghost use Rattle.std.specs.Prelude.{◌≡◌, IfOk, None, unwrap_or};
ghost use Rattle.gcs_rewrite.specs.Inserts.{default_location, inserted_settings, settings_at, usual_settings};

use gcs_json::BucketBody;
use gcs_meaning::{Copied, DEFAULT_CLASS, DEFAULT_SOFT_SECONDS, Pairs, Settings, Text};
use std::alloc::{AllocError, Global};

const DEFAULT_LOCATION: &str = "US";

/// The settings of a bucket of which nothing is given. `Err`: no memory.
///
/// Source: Cloud Storage JSON API, "Buckets".
pub fn usual_settings(alloc: Global) -> Result<Settings, AllocError>
    ensures { IfOk result (λ settings. settings ≡ usual_settings) }
{
    settings_at(alloc, &None)
}

/// The settings that a body gives to a new bucket. `Err`: no memory.
///
/// Source: Cloud Storage JSON API, "Buckets: insert".
pub fn inserted_settings(alloc: Global, body: &BucketBody) -> Result<Settings, AllocError>
    ensures { IfOk result (λ settings. settings ≡ inserted_settings body.now) }
{
    let plain = settings_at(alloc, &body.location)?;
    body.change.applied(&plain, true, 0)
}

// The settings of a bucket of which the location is given at most.
fn settings_at(alloc: Global, location: &Option<Text>) -> Result<Settings, AllocError>
    ensures { IfOk result (λ settings. settings ≡ settings_at location.now) }
{
    Ok(Settings {
        location: location_of(alloc, location)?,
        storage_class: Text::from_str(alloc, DEFAULT_CLASS)?,
        labels: Pairs::new(alloc),
        lifecycle: None,
        versioned: false,
        default_event_hold: false,
        retention: None,
        soft_seconds: DEFAULT_SOFT_SECONDS,
        soft_since: 0,
    })
}

fn location_of(alloc: Global, location: &Option<Text>) -> Result<Text, AllocError>
    ensures { IfOk result (λ text. text ≡ unwrap_or location.now default_location) }
{
    match location {
        Some(location) => location.copy(),
        None => Text::from_str(alloc, DEFAULT_LOCATION),
    }
}
