//! The sources of a compose.
ghost use Rattle.std.specs.Prelude.{◌≡◌, IfOk, Some, option_map};
ghost use Rattle.serde_json.specs.View.{view, items_view};
ghost use Rattle.gcs_json.specs.Sources.{condition_in, name_in, number_under, part_of, parts_in, parts_of};

use crate::fields::is_empty;
use crate::kind::Kind;
use crate::numbers::number_of;
use crate::texts::NameOfObject;
use gcs_meaning::{List, Name, Part};
use serde_json::Value;
use std::alloc::{AllocError, Global};

/// A list of sources.
#[derive(Drop)]
pub struct Sources;

impl Kind<List<Part>> for Sources {
    ghost reads = { λ _. parts_in };

    fn read(&self, alloc: Global, value: &Value) -> Result<Option<List<Part>>, AllocError> {
        match value.as_array() {
            Some(items) => parts_of(alloc, items),
            None => Ok(None),
        }
    }
}

fn parts_of(alloc: Global, items: &Vec<Value>) -> Result<Option<List<Part>>, AllocError>
    ensures { IfOk result (λ parts. parts ≡ parts_of (items_view items.now.items)) }
{
    let mut parts = List::new(alloc);
    for item in items {
        let Some(part) = part_of(alloc, item)? else {
            return Ok(None);
        };
        parts.push(part)?;
    }
    Ok(Some(parts))
}

// A source, if each of its fields is of its kind.
#[tactic(auto, unfolding(crate::specs::Sources::part_of))]
fn part_of(alloc: Global, value: &Value) -> Result<Option<Part>, AllocError>
    ensures { IfOk result (λ part. part ≡ part_of (view value.now)) }
{
    let Some(generation) = number_under("generation", value) else {
        return Ok(None);
    };
    let Some(generation_is) = condition_in(value) else {
        return Ok(None);
    };
    match name_in(alloc, value)? {
        Some(name) => Ok(Some(Part {
            name,
            generation,
            generation_is,
        })),
        None => Ok(None),
    }
}

fn name_in(alloc: Global, value: &Value) -> Result<Option<Name>, AllocError>
    ensures { IfOk result (λ name. name ≡ name_in (view value.now)) }
{
    match value.get("name") {
        Some(name) => NameOfObject.read(alloc, name),
        None => Ok(None),
    }
}

// The source's own precondition.
fn condition_in(value: &Value) -> Option<Option<u64>>
    ensures { result ≡ condition_in (view value.now) }
{
    let Some(conditions) = value.get("objectPreconditions") else {
        return Some(None);
    };
    if is_empty(conditions) {
        return Some(None);
    }
    if conditions.is_object() {
        number_under("ifGenerationMatch", conditions)
    } else {
        None
    }
}

// The number under a name, of which there need be none.
fn number_under(name: &str, value: &Value) -> Option<Option<u64>>
    ensures { result ≡ number_under name.now (view value.now) }
{
    let Some(value) = value.get(name) else {
        return Some(None);
    };
    if is_empty(value) {
        return Some(None);
    }
    match number_of(value) {
        Some(number) => Some(Some(number)),
        None => None,
    }
}
