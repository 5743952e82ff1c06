//! Why nothing is composed.
ghost use Rattle.std.specs.Prelude.{◌≡◌};
ghost use Rattle.gcs_compose.specs.declared.fault.ComposeFault.TheVariants.{NoMemory};

use gcs_meaning::Reason;
use std::alloc::AllocError;

#[derive(Clone, Copy, Debug, PartialEq, Eq)]
pub enum ComposeFault {
    /// A source isn't there, or isn't the version that it must be.
    Refused(Reason),
    NoMemory,
}

impl From<AllocError> for ComposeFault {
    ghost from_gives = { λ _ fault. fault ≡ NoMemory };

    fn from(_error: AllocError) -> ComposeFault {
        ComposeFault::NoMemory
    }
}
