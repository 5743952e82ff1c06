//! The lifecycle of a bucket, which is kept as a text.
ghost use Rattle.gcs_json.specs.Kinds.{compact_within};

use crate::kind::Kind;
use gcs_meaning::Text;
use gcs_whole::has_float;
use serde_json::Value;
use std::alloc::{AllocError, Global};

/// An object whose numbers are whole, with a compact text of at most `most` bytes. It is read as that text.
#[derive(Drop)]
pub struct Compact {
    pub most: usize,
}

impl Kind<Text> for Compact {
    ghost reads = { λ it. compact_within it.most };

    fn read(&self, alloc: Global, value: &Value) -> Result<Option<Text>, AllocError> {
        if !value.is_object() || has_float(value) {
            return Ok(None);
        }
        let text = value.to_string(alloc)?;
        if text.len() <= self.most {
            Ok(Some(Text::from_string(text)))
        } else {
            Ok(None)
        }
    }
}
