//! The first version of a listing from a place on.
ghost use Rattle.std.specs.Prelude.{◌≡◌, length, IfOk};
ghost use Rattle.std.specs.List.{find};
ghost use Rattle.std.specs.Option.{option_copied};
ghost use Rattle.gcs_meaning.specs.Order.{is_at_least, AreVersions};
ghost use Rattle.gcs_listing.specs.Looking.{passed_at};
ghost use Rattle.gcs_listing.specs.Seeking.{listed_rows, passed_count, AreOfSearches};

use crate::bounds::{Bound, after_version};
use gcs_meaning::{Row, View};
use gcs_versions::{Steps, Versions, stays};
use std::alloc::{AllocError, Global};
use std::sync::ledger::Ledger;

/// The first version from the bound on that the view shows at the moment (microseconds since 1970). Those that are gone
/// by then are passed over, a search for each. `Err`: no memory.
pub(crate) fn first_listed<'a, L: Ledger>(
    alloc: Global,
    versions: &'a Versions,
    view: View,
    moment: u64,
    bound: Bound,
    steps: &mut Steps<L>,
) -> Result<Option<&'a Row>, AllocError>
    requires known { AreVersions versions.now.rows }
    ensures found { IfOk result
        (λ row. option_copied row ≡ find (is_at_least bound) (listed_rows view moment versions.now.rows)) }
    ensures looks { IfOk result (λ row. AreOfSearches 1
        (record {
          rows = length versions.now.rows;
          before = steps.old;
          after = steps.new;
          gone_at_start = passed_count view moment versions.now.rows bound;
          gone_at_end = passed_at view moment versions.now.rows (option_copied row);
        })) }
{
    let mut from = bound;
    loop {
        let Some(row) = versions.seek(view, from.text(), from.number(), steps) else {
            return Ok(None);
        };
        if stays(row.kind, moment) {
            return Ok(Some(row));
        }
        from = after_version(alloc, row.name.as_bytes(), row.generation)?;
    }
}
