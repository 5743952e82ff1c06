//! An object that is filled field by field.
ghost use Rattle.std.specs.Prelude.{◌≡◌, Some, OnOk, map, option_map};
ghost use Rattle.serde_json.specs.Data.{no_members, object};
ghost use Rattle.serde_json.specs.View.{view};
ghost use Rattle.gcs_render.specs.Fields.{held, array_if as array_field_if, with_pairs};
ghost use Rattle.gcs_render.specs.Shown.{in_value, show_where};

use crate::sink::FieldSink;
use gcs_meaning::{Pairs, Text};
use serde_json::{Map, Value};
use std::alloc::{AllocError, Global};

/// The fields of an object so far.
#[derive(Drop)]
pub(crate) struct Fields {
    alloc: Global,
    map: Map<String, Value>,
}

impl Fields {
    pub(crate) fn new(alloc: Global) -> Fields
        ensures { held result ≡ no_members }
    {
        Fields {
            alloc,
            map: Map::new(alloc),
        }
    }

    pub(crate) fn alloc(&self) -> Global {
        self.alloc
    }

    pub(crate) fn into_value(self) -> Value
        ensures { view result ≡ object (held self) }
    {
        let Fields { alloc: _, map } = self;
        Value::Object(map)
    }

    #[tactic(auto, unfolding(crate::specs::Shown::show_where))]
    pub(crate) fn put(&mut self, key: &str, value: Value) -> Result<(), AllocError>
        ensures { OnOk result (in_value (held self.new) ≡ show_where key.now (Some (view value)) (in_value (held self.old))) }
    {
        serde_json::put(&mut self.map, self.alloc, key, value)
    }

    #[tactic(auto, unfolding(crate::specs::Shown::show_where))]
    pub(crate) fn put_if(&mut self, key: &str, value: Option<Value>) -> Result<(), AllocError>
        ensures { OnOk result (in_value (held self.new) ≡ show_where key.now (option_map view value) (in_value (held self.old))) }
    {
        match value {
            Some(value) => self.put(key, value),
            None => Ok(()),
        }
    }

    /// A list, unless it is empty.
    #[tactic(auto, unfolding(crate::specs::Shown::show_where))]
    pub(crate) fn array_if(&mut self, key: &str, values: Vec<Value>) -> Result<(), AllocError>
        ensures { OnOk result
            (in_value (held self.new) ≡ show_where key.now (array_field_if (map view values.items)) (in_value (held self.old))) }
    {
        if values.is_empty() {
            drop(values);
            return Ok(());
        }
        self.put(key, Value::Array(values))
    }

    fn put_pairs(&mut self, pairs: &[(Text, Text)]) -> Result<(), AllocError>
        ensures { OnOk result (held self.new ≡ with_pairs pairs.now (held self.old)) }
    {
        for (key, value) in pairs {
            let value = Value::try_from_str(self.alloc, value.as_str())?;
            serde_json::put(&mut self.map, self.alloc, key.as_str(), value)?;
        }
        Ok(())
    }
}

#[tactic(auto, unfolding(crate::specs::Shown::show_where))]
impl FieldSink for Fields {
    ghost use Rattle.gcs_render.specs.Fields.{held};
    ghost use Rattle.gcs_render.specs.Shown.{in_value};

    ghost shown = { λ fields. in_value (held fields) };

    fn text(&mut self, key: &str, value: &str) -> Result<(), AllocError> {
        let value = Value::try_from_str(self.alloc, value)?;
        self.put(key, value)
    }

    fn number(&mut self, key: &str, value: u32) -> Result<(), AllocError> {
        self.put(key, Value::from(value))
    }

    fn truth(&mut self, key: &str, value: bool) -> Result<(), AllocError> {
        self.put(key, Value::Bool(value))
    }

    fn pairs_if(&mut self, key: &str, pairs: &Pairs) -> Result<(), AllocError> {
        if pairs.is_empty() {
            return Ok(());
        }
        let mut texts = Fields::new(self.alloc);
        texts.put_pairs(pairs.as_slice())?;
        self.put(key, texts.into_value())
    }
}
