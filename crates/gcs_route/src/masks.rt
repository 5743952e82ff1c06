//! The mask of the reply, which a query has in `fields`.
ghost use Rattle.std.specs.Prelude.{◌≡◌, IfOk, IfErr};
ghost use Rattle.gcs_route.specs.Masks.{IsMaskPart, IsMaskFault};

use crate::call::MaskPart;
use crate::fault::RouteFault;
use crate::table::Masking;
use gcs_fields::{MaskFault, read_mask};
use gcs_meaning::Reason;
use gcs_query::Query;
use std::alloc::{AllocError, Global};

/// The mask of a request, read as its row says.
pub(crate) fn read_fields(
    alloc: Global,
    query: &Query,
    masking: Masking,
) -> Result<MaskPart, RouteFault>
    ensures value { IfOk result (IsMaskPart query.now masking) }
    ensures wrong { IfErr result (IsMaskFault query.now masking) }
{
    match masking {
        Masking::Unread => Ok(MaskPart::Absent),
        Masking::Tested => tested_mask(alloc, query),
        Masking::Kept => Ok(kept_mask(alloc, query)?),
    }
}

// A text that is no mask is refused.
fn tested_mask(alloc: Global, query: &Query) -> Result<MaskPart, RouteFault>
    ensures value { IfOk result (IsMaskPart query.now Masking.Tested) }
    ensures wrong { IfErr result (IsMaskFault query.now Masking.Tested) }
{
    match kept_mask(alloc, query)? {
        MaskPart::Absent => Ok(MaskPart::Absent),
        MaskPart::Is(mask) => Ok(MaskPart::Is(mask)),
        MaskPart::Fault(place) => Err(RouteFault::Refused(Reason::BadMask {
            place: u64::from(place),
        })),
    }
}

// A text that is no mask is kept as its place. `Err`: no memory.
fn kept_mask(alloc: Global, query: &Query) -> Result<MaskPart, AllocError>
    ensures { IfOk result (IsMaskPart query.now Masking.Kept) }
{
    let Some(text) = query.text("fields") else {
        return Ok(MaskPart::Absent);
    };
    match read_mask(alloc, text.as_bytes()) {
        Ok(mask) => Ok(MaskPart::Is(mask)),
        Err(MaskFault::Bad { place }) => Ok(MaskPart::Fault(place)),
        Err(MaskFault::NoMemory) => Err(AllocError),
    }
}
