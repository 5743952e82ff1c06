//! Why a body is not read.
ghost use Rattle.std.specs.Prelude.{◌≡◌};
ghost use Rattle.gcs_json.specs.declared.fault.BodyFault.TheVariants.{NoMemory};

use gcs_meaning::Key;
use std::alloc::{AllocError, AllocFailed};

/// Why a body is not read.
#[derive(Clone, Copy, Debug, PartialEq, Eq)]
pub enum BodyFault {
    /// The text has no reading, or is no object.
    NotJson,
    /// The first field of a wrong kind, in byte order of the names.
    BadField { name: Key },
    /// A field that the request needs and the body lacks.
    Missing { name: Key },
    NoMemory,
}

impl From<AllocError> for BodyFault {
    ghost from_gives = { λ _ fault. fault ≡ NoMemory };

    fn from(_: AllocError) -> BodyFault {
        BodyFault::NoMemory
    }
}

impl<T: Drop> From<AllocFailed<T>> for BodyFault {
    ghost from_gives = { λ _ fault. fault ≡ NoMemory };

    fn from(_: AllocFailed<T>) -> BodyFault {
        BodyFault::NoMemory
    }
}
