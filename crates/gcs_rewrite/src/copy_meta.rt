//! The metadata that a copy or a rewrite gives its destination.
ghost use Rattle.std.specs.Prelude.{◌≡◌, ◌&&◌, IfOk};
ghost use Rattle.gcs_rewrite.specs.CopyMeta.{carried_meta, copied_meta, is_kept, keeps_lines, keeps_others};

use crate::made::made_meta;
use gcs_json::ObjectBody;
use gcs_meaning::{Copied, Meta, MetaChange, Set};
use std::alloc::{AllocError, Global};

/// The metadata of the destination: those of the source, without its holds and with the class of the body, where the body
/// names no field that can be changed, else the body's. `Err`: no memory.
///
/// Source: Cloud Storage JSON API, "Objects: rewrite", the request body.
pub fn copied_meta(alloc: Global, body: &ObjectBody, meta: &Meta) -> Result<Meta, AllocError>
    ensures { IfOk result (λ copied. copied ≡ copied_meta body.now meta.now) }
{
    if names_none(&body.change) {
        carried_meta(body, meta)
    } else {
        made_meta(alloc, body, &None, &None)
    }
}

fn carried_meta(body: &ObjectBody, meta: &Meta) -> Result<Meta, AllocError>
    ensures { IfOk result (λ copied. copied ≡ carried_meta body.now meta.now) }
{
    Ok(Meta {
        content_type: meta.content_type.copy()?,
        cache_control: meta.cache_control.copy()?,
        content_disposition: meta.content_disposition.copy()?,
        content_encoding: meta.content_encoding.copy()?,
        content_language: meta.content_language.copy()?,
        storage_class: body.storage_class.copy()?,
        custom_time: meta.custom_time,
        temporary_hold: false,
        event_hold: None,
        custom: meta.custom.copy()?,
    })
}

// Whether no field is named that can be changed.
fn names_none(change: &MetaChange) -> bool
    ensures { result ≡ (keeps_lines change.now && keeps_others change.now) }
{
    keeps_lines(change) && keeps_others(change)
}

fn keeps_lines(change: &MetaChange) -> bool
    ensures { result ≡ keeps_lines change.now }
{
    is_kept(&change.content_type)
        && is_kept(&change.cache_control)
        && is_kept(&change.content_disposition)
        && is_kept(&change.content_encoding)
        && is_kept(&change.content_language)
}

fn keeps_others(change: &MetaChange) -> bool
    ensures { result ≡ keeps_others change.now }
{
    is_kept(&change.custom_time)
        && is_kept(&change.temporary_hold)
        && is_kept(&change.event_hold)
        && is_kept(&change.custom)
}

fn is_kept<T>(set: &Set<T>) -> bool
    ensures { result ≡ is_kept set.now }
{
    matches!(set, Set::Keep)
}
