//! What a kind of values is, and the plainest kinds.
ghost use Rattle.std.specs.Prelude.{◌≡◌, IfOk, Option};
ghost use Rattle.serde_json.specs.Data.{Data};
ghost use Rattle.serde_json.specs.View.{view};
ghost use Rattle.gcs_json.specs.Kinds.{flag, inside};

use serde_json::Value;
use std::alloc::{AllocError, Global};

/// A kind of values, each of which is read as a `T`.
pub trait Kind<T> {
    /// What a value is read as; none where it is of another kind.
    ghost reads: { Self → Data → Option T };

    fn read(&self, alloc: Global, value: &Value) -> Result<Option<T>, AllocError>
        ensures { IfOk result (λ read. read ≡ reads self.now (view value.now)) };
}

/// True or false.
#[derive(Drop)]
pub struct Flag;

impl Kind<bool> for Flag {
    ghost reads = { λ _. flag };

    fn read(&self, alloc: Global, value: &Value) -> Result<Option<bool>, AllocError> {
        Ok(value.as_bool())
    }
}

/// An object that has a value of this kind under one name.
#[derive(Drop)]
pub struct Inside<K> {
    pub name: &'static str,
    pub kind: K,
}

impl<T, K: Kind<T>> Kind<T> for Inside<K> {
    ghost reads = { λ it. inside it.name.now (K.Kind.reads it.kind) };

    fn read(&self, alloc: Global, value: &Value) -> Result<Option<T>, AllocError> {
        match value.get(self.name) {
            Some(inner) => self.kind.read(alloc, inner),
            None => Ok(None),
        }
    }
}
