//! Which version a request names.
ghost use Rattle.std.specs.Prelude.{◌≡◌, ◌≤◌, ◌+◌, Some, length};
ghost use Rattle.std.specs.Option.{option_copied};
ghost use Rattle.gcs_index.specs.Looks.{AreLooks};
ghost use Rattle.gcs_meaning.specs.Choosing.{chosen_row};

use crate::kinds::is_readable;
use crate::versions::Versions;
use gcs_index::Steps;
use gcs_meaning::{Name, Row};
use std::sync::ledger::Ledger;

impl Versions {
    /// The version that a request names: that of the generation unless it is soft-deleted, or without
    /// a generation the live one. One search.
    pub fn chosen<L: Ledger>(
        &self,
        name: &Name,
        generation: Option<u64>,
        steps: &mut Steps<L>,
    ) -> Option<&Row>
        ensures found { option_copied result ≡ chosen_row name.now generation self.now.rows }
        ensures some { steps.old + 1 ≤ steps.new }
        ensures looks { AreLooks 1 (length self.now.rows) steps.old steps.new }
    {
        match generation {
            Some(generation) => self.readable(name, generation, steps),
            None => self.live(name, steps),
        }
    }

    // The version of that generation, live or noncurrent.
    fn readable<L: Ledger>(
        &self,
        name: &Name,
        generation: u64,
        steps: &mut Steps<L>,
    ) -> Option<&Row>
        ensures found { option_copied result ≡ chosen_row name.now (Some generation) self.now.rows }
        ensures some { steps.old + 1 ≤ steps.new }
        ensures looks { AreLooks 1 (length self.now.rows) steps.old steps.new }
    {
        self.known();
        let row = self.get(name, generation, steps)?;
        if is_readable(row.kind) {
            Some(row)
        } else {
            None
        }
    }
}
