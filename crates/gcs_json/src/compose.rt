//! The body of a compose.
ghost use Rattle.std.specs.Prelude.{◌≡◌, ◌≢◌, ◌≤◌, IfOk, IfErr, Ok, Err, length};
ghost use Rattle.serde_json.specs.View.{view};
ghost use Rattle.gcs_json.specs.declared.fault.BodyFault.TheVariants.{NoMemory};
ghost use Rattle.gcs_json.specs.Compose.{are_few, compose_in, compose_of, destination_in, empty_destination, sources_in};

use crate::fault::BodyFault;
use crate::fields::{Fields, given, is_empty, read_body};
use crate::object::{COMPOSE, ObjectBody, object, way_of};
use crate::sources::Sources;
use gcs_meaning::{Copied, Key, List, Part, key_text};
use serde_json::{Map, Value};
use std::alloc::{AllocError, Global};

const MOST_SOURCES: usize = 32;

/// What the body of a compose says: the new version, and whose bytes it has.
#[derive(Drop)]
pub struct ComposeBody {
    pub destination: ObjectBody,
    pub parts: List<Part>,
}

impl Copied for ComposeBody {
    fn copy(&self) -> Result<ComposeBody, AllocError> {
        Ok(ComposeBody {
            destination: self.destination.copy()?,
            parts: self.parts.copy()?,
        })
    }
}

/// Reads the body of a compose: what the new version has, and its 1 to 32 sources.
///
/// Source: Cloud Storage JSON API, "Objects: compose".
#[tactic(auto, unfolding(crate::specs::Compose::compose_of))]
pub fn read_compose_body(alloc: Global, body: &[u8]) -> Result<ComposeBody, BodyFault>
    ensures body { IfOk result (λ read. compose_of body.now ≡ Ok read) }
    ensures fault { IfErr result (λ fault. fault ≢ NoMemory → compose_of body.now ≡ Err fault) }
    ensures few { IfOk result (λ read. length read.parts ≤ 32) }
{
    let body = read_body(alloc, body)?;
    compose(&Fields {
        alloc,
        removes: false,
        body: &body,
    })
}

// The fields in byte order of their names.
#[tactic(auto, unfolding(crate::specs::Compose::compose_in))]
fn compose(fields: &Fields<'_>) -> Result<ComposeBody, BodyFault>
    ensures body { IfOk result (λ read. compose_in (view fields.now.body.now) ≡ Ok read) }
    ensures fault { IfErr result (λ fault. fault ≢ NoMemory → compose_in (view fields.now.body.now) ≡ Err fault) }
    ensures few { IfOk result (λ read. length read.parts ≤ 32) }
{
    let destination = destination(fields)?;
    let parts = sources(fields)?;
    Ok(ComposeBody { destination, parts })
}

// What the new version has, of which nothing need be given.
fn destination(fields: &Fields<'_>) -> Result<ObjectBody, BodyFault>
    ensures body { IfOk result (λ read. destination_in (view fields.now.body.now) ≡ Ok read) }
    ensures fault { IfErr result (λ fault. fault ≢ NoMemory → destination_in (view fields.now.body.now) ≡ Err fault) }
{
    let Some(value) = fields.body.get(key_text(Key::Destination)) else {
        return empty_destination(fields.alloc);
    };
    if is_empty(value) {
        return empty_destination(fields.alloc);
    }
    if !value.is_object() {
        return Err(BodyFault::BadField {
            name: Key::Destination,
        });
    }
    object(
        way_of(COMPOSE),
        &Fields {
            alloc: fields.alloc,
            removes: false,
            body: value,
        },
    )
}

fn empty_destination(alloc: Global) -> Result<ObjectBody, BodyFault>
    ensures body { IfOk result (λ read. empty_destination ≡ Ok read) }
    ensures fault { IfErr result (λ fault. fault ≢ NoMemory → empty_destination ≡ Err fault) }
{
    let value = Value::Object(Map::new(alloc));
    object(
        way_of(COMPOSE),
        &Fields {
            alloc,
            removes: false,
            body: &value,
        },
    )
}

fn sources(fields: &Fields<'_>) -> Result<List<Part>, BodyFault>
    ensures parts { IfOk result (λ parts. sources_in (view fields.now.body.now) ≡ Ok parts) }
    ensures fault { IfErr result (λ fault. fault ≢ NoMemory → sources_in (view fields.now.body.now) ≡ Err fault) }
    ensures few { IfOk result (λ parts. length parts ≤ 32) }
{
    let bad = BodyFault::BadField {
        name: Key::SourceObjects,
    };
    let Some(parts) = given(fields, Key::SourceObjects, &Sources)? else {
        return Err(bad);
    };
    if are_few(parts.len()) {
        Ok(parts)
    } else {
        drop(parts);
        Err(bad)
    }
}

fn are_few(count: usize) -> bool
    ensures { result ≡ are_few count }
{
    1 <= count && count <= MOST_SOURCES
}
