//! The object that a body is, and what it says of one field.
ghost use Rattle.std.specs.Prelude.{◌≡◌, ◌≢◌, IfOk, IfErr, Ok, Err, Some, None};
ghost use Rattle.serde_json.specs.View.{view};
ghost use Rattle.gcs_json.specs.declared.fault.BodyFault.TheVariants.{BadField, NoMemory};
ghost use Rattle.gcs_json.specs.Fields.{body_of, is_empty, field_of, given_of, given_if};

use crate::fault::BodyFault;
use crate::kind::Kind;
use gcs_meaning::{Key, Set, key_text};
use serde_json::{Map, Value};
use std::alloc::Global;

/// The object that a body is. In a PATCH, null and an empty text remove a field, as `removes` says.
#[derive(Clone, Copy)]
pub struct Fields<'a> {
    pub alloc: Global,
    pub removes: bool,
    pub body: &'a Value,
}

/// Reads the object that a body is. An empty body is an empty object.
pub fn read_body(alloc: Global, text: &[u8]) -> Result<Value, BodyFault>
    ensures body { IfOk result (λ body. body_of text.now ≡ Ok (view body)) }
    ensures fault { IfErr result (λ fault. fault ≢ NoMemory → body_of text.now ≡ Err fault) }
{
    if text.is_empty() {
        return Ok(Value::Object(Map::new(alloc)));
    }
    match Value::from_slice(alloc, text) {
        Ok(body) => {
            if body.is_object() {
                Ok(body)
            } else {
                drop(body);
                Err(BodyFault::NotJson)
            }
        }
        Err(error) => {
            if error.is_memory() {
                Err(BodyFault::NoMemory)
            } else {
                Err(BodyFault::NotJson)
            }
        }
    }
}

/// What the body does to a field of this kind.
pub fn field<T: Drop, K: Kind<T>>(
    fields: &Fields<'_>,
    key: Key,
    kind: &K,
) -> Result<Set<T>, BodyFault>
    ensures set { IfOk result (λ set. field_of fields.now.removes key (K.Kind.reads kind.now) (view fields.now.body.now) ≡ Ok set) }
    ensures fault { IfErr result (λ fault. fault ≢ NoMemory → field_of fields.now.removes key (K.Kind.reads kind.now) (view fields.now.body.now) ≡ Err fault) }
{
    let Some(value) = fields.body.get(key_text(key)) else {
        return Ok(Set::Keep);
    };
    if is_empty(value) {
        return Ok(if fields.removes {
            Set::Clear
        } else {
            Set::Keep
        });
    }
    Ok(Set::To(read_as(fields, key, kind, value)?))
}

/// What the body gives in a field of this kind. Null and an empty text count as absent.
pub fn given<T: Drop, K: Kind<T>>(
    fields: &Fields<'_>,
    key: Key,
    kind: &K,
) -> Result<Option<T>, BodyFault>
    ensures given { IfOk result (λ given. given_of key (K.Kind.reads kind.now) (view fields.now.body.now) ≡ Ok given) }
    ensures fault { IfErr result (λ fault. fault ≢ NoMemory → given_of key (K.Kind.reads kind.now) (view fields.now.body.now) ≡ Err fault) }
{
    let Some(value) = fields.body.get(key_text(key)) else {
        return Ok(None);
    };
    if is_empty(value) {
        return Ok(None);
    }
    Ok(Some(read_as(fields, key, kind, value)?))
}

/// The same, where the request reads the field.
pub fn given_if<T: Drop, K: Kind<T>>(
    asked: bool,
    fields: &Fields<'_>,
    key: Key,
    kind: &K,
) -> Result<Option<T>, BodyFault>
    ensures given { IfOk result (λ given. given_if asked key (K.Kind.reads kind.now) (view fields.now.body.now) ≡ Ok given) }
    ensures fault { IfErr result (λ fault. fault ≢ NoMemory → given_if asked key (K.Kind.reads kind.now) (view fields.now.body.now) ≡ Err fault) }
{
    if asked {
        given(fields, key, kind)
    } else {
        Ok(None)
    }
}

// The value of a field of this kind.
fn read_as<T: Drop, K: Kind<T>>(
    fields: &Fields<'_>,
    key: Key,
    kind: &K,
    value: &Value,
) -> Result<T, BodyFault>
    ensures read { IfOk result (λ read. K.Kind.reads kind.now (view value.now) ≡ Some read) }
    ensures fault { IfErr result (λ fault. fault ≢ NoMemory → (fault ≡ BadField key) × (K.Kind.reads kind.now (view value.now) ≡ None)) }
{
    match kind.read(fields.alloc, value)? {
        Some(read) => Ok(read),
        None => Err(BodyFault::BadField { name: key }),
    }
}

/// Whether a value is null or an empty text.
pub fn is_empty(value: &Value) -> bool
    ensures { result ≡ is_empty (view value.now) }
{
    match value {
        Value::Null => true,
        Value::String(text) => text.is_empty(),
        _ => false,
    }
}
