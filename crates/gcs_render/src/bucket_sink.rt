//! What takes the fields of a bucket: beside plain ones, the objects that are inside.
ghost use Rattle.std.specs.Prelude.{◌≡◌, OnOk, option_and_then};
ghost use Rattle.gcs_render.specs.Fields.{inner};
ghost use Rattle.gcs_render.specs.Resources.{soft_policy_fields, retention_if, versioning_if, whole_value};
ghost use Rattle.gcs_render.specs.Shown.{show_where};

use crate::fields::Fields;
use crate::policies::{lifecycle_value, put_retention, put_soft_policy, put_versioning};
use crate::sink::FieldSink;
use crate::writing::FieldWriter;
use gcs_meaning::{Retention, Settings, Text};
use std::alloc::AllocError;

/// A value or a text that the fields of a bucket are added to.
pub(crate) trait BucketSink: FieldSink {
    /// What a text of JSON says, where it has a reading and its numbers are whole.
    fn lifecycle_if(&mut self, key: &str, text: &Option<Text>) -> Result<(), AllocError>
        ensures { OnOk result (Self.shown self.new ≡ show_where key.now (option_and_then whole_value text.now) (Self.shown self.old)) };

    fn retention_if(&mut self, key: &str, policy: Option<Retention>) -> Result<(), AllocError>
        ensures { OnOk result (Self.shown self.new ≡ show_where key.now (retention_if policy) (Self.shown self.old)) };

    fn soft_policy(&mut self, key: &str, settings: &Settings) -> Result<(), AllocError>
        ensures { OnOk result (Self.shown self.new ≡ show_where key.now (inner (soft_policy_fields settings.now)) (Self.shown self.old)) };

    fn versioning_if(&mut self, key: &str, versioned: bool) -> Result<(), AllocError>
        ensures { OnOk result (Self.shown self.new ≡ show_where key.now (versioning_if versioned) (Self.shown self.old)) };
}

#[tactic(auto, unfolding(crate::specs::Shown::show_where))]
impl BucketSink for Fields {
    fn lifecycle_if(&mut self, key: &str, text: &Option<Text>) -> Result<(), AllocError> {
        let value = lifecycle_value(self.alloc(), text)?;
        self.put_if(key, value)
    }

    fn retention_if(&mut self, key: &str, policy: Option<Retention>) -> Result<(), AllocError> {
        if let Some(policy) = policy {
            let mut fields = Fields::new(self.alloc());
            put_retention(&mut fields, &policy)?;
            self.put(key, fields.into_value())?;
        }
        Ok(())
    }

    fn soft_policy(&mut self, key: &str, settings: &Settings) -> Result<(), AllocError> {
        let mut fields = Fields::new(self.alloc());
        put_soft_policy(&mut fields, settings)?;
        self.put(key, fields.into_value())
    }

    fn versioning_if(&mut self, key: &str, versioned: bool) -> Result<(), AllocError> {
        if versioned {
            let mut fields = Fields::new(self.alloc());
            put_versioning(&mut fields)?;
            self.put(key, fields.into_value())?;
        }
        Ok(())
    }
}

#[tactic(auto, unfolding(crate::specs::Shown::show_where))]
impl BucketSink for FieldWriter {
    fn lifecycle_if(&mut self, key: &str, text: &Option<Text>) -> Result<(), AllocError> {
        match lifecycle_value(self.alloc(), text)? {
            Some(value) => self.value(key, &value),
            None => Ok(()),
        }
    }

    fn retention_if(&mut self, key: &str, policy: Option<Retention>) -> Result<(), AllocError> {
        if let Some(policy) = policy {
            self.begin_inner(key)?;
            put_retention(self, &policy)?;
            self.end_object()?;
        }
        Ok(())
    }

    fn soft_policy(&mut self, key: &str, settings: &Settings) -> Result<(), AllocError> {
        self.begin_inner(key)?;
        put_soft_policy(self, settings)?;
        self.end_object()?;
        Ok(())
    }

    fn versioning_if(&mut self, key: &str, versioned: bool) -> Result<(), AllocError> {
        if versioned {
            self.begin_inner(key)?;
            put_versioning(self)?;
            self.end_object()?;
        }
        Ok(())
    }
}
