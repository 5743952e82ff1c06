//! What takes the fields of a resource, one by one.
ghost use Rattle.std.specs.Prelude.{◌≡◌, Some, OnOk};
ghost use Rattle.serde_json.specs.Data.{number as number_data, unsigned};
ghost use Rattle.gcs_render.specs.Fields.{text as text_field, text_if as text_field_if, long as long_field, count_if as count_field_if, truth as truth_field, where_true as truth_where, time as time_field, time_if as time_field_if, pairs_if as pairs_field_if};
ghost use Rattle.gcs_render.specs.Shown.{Shown, show_where};

use gcs_meaning::{Pairs, Text};
use gcs_time::time_text;
use std::alloc::AllocError;

/// A value or a text that fields are added to. A call adds the field of its key, or nothing where the field does not
/// stand.
pub(crate) trait FieldSink {
    ghost shown: { Self → Shown };

    fn text(&mut self, key: &str, value: &str) -> Result<(), AllocError>
        ensures { OnOk result (shown self.new ≡ show_where key.now (text_field value.now) (shown self.old)) };

    fn number(&mut self, key: &str, value: u32) -> Result<(), AllocError>
        ensures { OnOk result (shown self.new ≡ show_where key.now (Some (number_data (unsigned value))) (shown self.old)) };

    fn truth(&mut self, key: &str, value: bool) -> Result<(), AllocError>
        ensures { OnOk result (shown self.new ≡ show_where key.now (truth_field value) (shown self.old)) };

    /// An object of texts, unless there are no pairs.
    fn pairs_if(&mut self, key: &str, pairs: &Pairs) -> Result<(), AllocError>
        ensures { OnOk result (shown self.new ≡ show_where key.now (pairs_field_if pairs.now) (shown self.old)) };

    #[tactic(auto, unfolding(crate::specs::Shown::show_where))]
    fn text_if(&mut self, key: &str, value: &Option<Text>) -> Result<(), AllocError>
        ensures { OnOk result (shown self.new ≡ show_where key.now (text_field_if value.now) (shown self.old)) }
    {
        if let Some(value) = value {
            self.text(key, value.as_str())?;
        }
        Ok(())
    }

    /// A number of 64 bits, as a string.
    fn long(&mut self, key: &str, value: u64) -> Result<(), AllocError>
        ensures { OnOk result (shown self.new ≡ show_where key.now (long_field value) (shown self.old)) }
    {
        let mut digits = itoa::Buffer::new();
        self.text(key, digits.format(value))
    }

    #[tactic(auto, unfolding(crate::specs::Shown::show_where))]
    fn count_if(&mut self, key: &str, value: Option<u32>) -> Result<(), AllocError>
        ensures { OnOk result (shown self.new ≡ show_where key.now (count_field_if value) (shown self.old)) }
    {
        if let Some(value) = value {
            self.number(key, value)?;
        }
        Ok(())
    }

    /// A truth value, unless it is false.
    #[tactic(auto, unfolding(crate::specs::Shown::show_where))]
    fn where_true(&mut self, key: &str, value: bool) -> Result<(), AllocError>
        ensures { OnOk result (shown self.new ≡ show_where key.now (truth_where value) (shown self.old)) }
    {
        if value {
            self.truth(key, true)?;
        }
        Ok(())
    }

    /// A moment in microseconds since 1970, as RFC 3339 writes it.
    fn time(&mut self, key: &str, moment: u64) -> Result<(), AllocError>
        ensures { OnOk result (shown self.new ≡ show_where key.now (time_field moment) (shown self.old)) }
    {
        // The text has ASCII bytes alone.
        let bytes = time_text(moment);
        match std::str::from_utf8(&bytes) {
            Ok(text) => self.text(key, text),
            Err(_) => unreachable!(),
        }
    }

    #[tactic(auto, unfolding(crate::specs::Shown::show_where))]
    fn time_if(&mut self, key: &str, moment: Option<u64>) -> Result<(), AllocError>
        ensures { OnOk result (shown self.new ≡ show_where key.now (time_field_if moment) (shown self.old)) }
    {
        if let Some(moment) = moment {
            self.time(key, moment)?;
        }
        Ok(())
    }
}
