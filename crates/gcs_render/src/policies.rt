//! The objects inside a bucket's resource: its policies, its versioning and its lifecycle.
ghost use Rattle.std.specs.Prelude.{◌≡◌, false, IfOk, OnOk, option_map, option_and_then};
ghost use Rattle.std.specs.Option.{ForSome};
ghost use Rattle.serde_json.specs.View.{view};
ghost use Rattle.serde_json.specs.Written.{has_float};
ghost use Rattle.gcs_render.specs.Resources.{soft_policy_fields, retention_fields, versioning_fields, whole_value};
ghost use Rattle.gcs_render.specs.Shown.{show_fields};

use crate::sink::FieldSink;
use gcs_meaning::{Retention, Settings, Text};
use gcs_whole::has_float;
use serde_json::Value;
use std::alloc::{AllocError, Global};

pub(crate) fn put_soft_policy<S: FieldSink>(
    fields: &mut S,
    settings: &Settings,
) -> Result<(), AllocError>
    ensures { OnOk result (S.shown fields.new ≡ show_fields (soft_policy_fields settings.now) (S.shown fields.old)) }
{
    fields.time("effectiveTime", settings.soft_since)?;
    fields.long("retentionDurationSeconds", settings.soft_seconds)?;
    Ok(())
}

pub(crate) fn put_retention<S: FieldSink>(
    fields: &mut S,
    policy: &Retention,
) -> Result<(), AllocError>
    ensures { OnOk result (S.shown fields.new ≡ show_fields (retention_fields policy.now) (S.shown fields.old)) }
{
    fields.time("effectiveTime", policy.since)?;
    fields.truth("isLocked", policy.locked)?;
    fields.long("retentionPeriod", policy.period)?;
    Ok(())
}

pub(crate) fn put_versioning<S: FieldSink>(fields: &mut S) -> Result<(), AllocError>
    ensures { OnOk result (S.shown fields.new ≡ show_fields versioning_fields (S.shown fields.old)) }
{
    fields.truth("enabled", true)?;
    Ok(())
}

/// What a text of JSON says. One that has no reading, or has a number that is not whole, is not shown.
pub(crate) fn lifecycle_value(
    alloc: Global,
    text: &Option<Text>,
) -> Result<Option<Value>, AllocError>
    ensures value { IfOk result (λ value. option_map view value ≡ option_and_then whole_value text.now) }
    ensures whole { IfOk result (λ value. ForSome value (λ shown. has_float (view shown) ≡ false)) }
{
    let Some(text) = text else {
        return Ok(None);
    };
    match Value::from_str(alloc, text.as_str()) {
        Ok(value) if has_float(&value) => Ok(None),
        Ok(value) => Ok(Some(value)),
        Err(error) => {
            if error.is_memory() {
                Err(AllocError)
            } else {
                Ok(None)
            }
        }
    }
}
