//! Why a request has no call.
use gcs_meaning::Reason;
use std::alloc::AllocError;

/// Why a request has no call.
#[derive(Clone, Copy, Debug, PartialEq, Eq)]
pub enum RouteFault {
    /// The request is answered with this reason.
    Refused(Reason),
    NoMemory,
}

impl From<AllocError> for RouteFault {
    ghost use Rattle.std.specs.Prelude.{◌≡◌};
    ghost use Rattle.gcs_route.specs.declared.fault.RouteFault.{RouteFault};
    ghost use Rattle.gcs_route.specs.declared.fault.RouteFault.TheVariants.{NoMemory};

    ghost from_gives = { λ _ fault. fault ≡ NoMemory };

    fn from(_error: AllocError) -> RouteFault {
        RouteFault::NoMemory
    }
}
