//! The pairs of a query, which is text once decoded.
ghost use Rattle.std.specs.Prelude.{◌≡◌, [], ◌∷◌, IfOk, IfErr};
ghost use Rattle.gcs_query.specs.Query.{pairs_of};
ghost use Rattle.gcs_route.specs.Refusals.{Passes, IsFirstFault, Test};

use crate::fault::RouteFault;
use crate::values::invalid;
use gcs_meaning::Key;
use gcs_query::{Query, QueryFault, read_query};
use std::alloc::Global;

/// The pairs of a query, which is refused where some key or value is no text.
pub(crate) fn read_pairs(alloc: Global, text: &[u8]) -> Result<Query, RouteFault>
    ensures pairs { IfOk result (λ pairs. pairs ≡ pairs_of text.now) }
    ensures right { IfOk result (λ _. Passes text.now Test.query) }
    ensures wrong { IfErr result (IsFirstFault text.now (Test.query ∷ [])) }
{
    match read_query(alloc, text) {
        Ok(pairs) => Ok(pairs),
        Err(QueryFault::NotText { .. }) => Err(invalid(Key::Query)),
        Err(QueryFault::NoMemory) => Err(RouteFault::NoMemory),
    }
}
