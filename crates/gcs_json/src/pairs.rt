//! Objects of texts.
ghost use Rattle.std.specs.Prelude.{◌≡◌, ◌++◌, ◌∷◌, [], IfOk, OnOk};
ghost use Rattle.serde_json.specs.View.{view, members_view};
ghost use Rattle.gcs_json.specs.Pairs.{value_of, value_length, pairs_of, is_within, pairs_within};

use crate::kind::Kind;
use gcs_meaning::{List, Text};
use serde_json::{Map, Value};
use std::alloc::{AllocError, Global};

/// An object of texts, whose keys and values have at most `most` bytes together. Where `removes` says so, a null value
/// removes its key.
#[derive(Drop)]
pub struct Pairs {
    pub removes: bool,
    pub most: Option<usize>,
}

impl Kind<List<(Text, Option<Text>)>> for Pairs {
    ghost reads = { λ it. pairs_within it.removes it.most };

    fn read(
        &self,
        alloc: Global,
        value: &Value,
    ) -> Result<Option<List<(Text, Option<Text>)>>, AllocError> {
        let Some(members) = value.as_object() else {
            return Ok(None);
        };
        let Some(pairs) = pairs_of(alloc, self.removes, members)? else {
            return Ok(None);
        };
        if is_within(self.most, pairs.as_slice()) {
            Ok(Some(pairs))
        } else {
            drop(pairs);
            Ok(None)
        }
    }
}

fn pairs_of(
    alloc: Global,
    removes: bool,
    members: &Map<String, Value>,
) -> Result<Option<List<(Text, Option<Text>)>>, AllocError>
    ensures { IfOk result (λ pairs. pairs ≡ pairs_of removes (members_view members.now.entries)) }
{
    let mut pairs = List::new(alloc);
    for (key, member) in members.iter() {
        let Some(value) = value_of(alloc, removes, member)? else {
            return Ok(None);
        };
        push_pair(&mut pairs, Text::from_str(alloc, key.as_str())?, value)?;
    }
    Ok(Some(pairs))
}

fn value_of(alloc: Global, removes: bool, value: &Value) -> Result<Option<Option<Text>>, AllocError>
    ensures { IfOk result (λ read. read ≡ value_of removes (view value.now)) }
{
    match value {
        Value::String(text) => Ok(Some(Some(Text::from_str(alloc, text.as_str())?))),
        Value::Null => Ok(if removes { Some(None) } else { None }),
        _ => Ok(None),
    }
}

fn push_pair(
    pairs: &mut List<(Text, Option<Text>)>,
    key: Text,
    value: Option<Text>,
) -> Result<(), AllocError>
    ensures { OnOk result (pairs.new ≡ pairs.old ++ (key, value) ∷ []) }
{
    pairs.push((key, value))
}

fn is_within(most: Option<usize>, pairs: &[(Text, Option<Text>)]) -> bool
    ensures { result ≡ is_within most pairs.now }
{
    let Some(most) = most else {
        return true;
    };
    let mut left = most;
    for (key, value) in pairs {
        let Some(after_key) = left.checked_sub(key.as_bytes().len()) else {
            return false;
        };
        let Some(after_value) = after_key.checked_sub(value_length(value)) else {
            return false;
        };
        left = after_value;
    }
    true
}

fn value_length(value: &Option<Text>) -> usize
    ensures { result ≡ value_length value.now }
{
    match value {
        Some(text) => text.as_bytes().len(),
        None => 0,
    }
}
