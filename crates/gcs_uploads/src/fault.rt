//! Why a call on an upload gives no progress.
ghost use Rattle.std.specs.Prelude.{◌≡◌};
ghost use Rattle.gcs_uploads.specs.declared.fault.UploadFault.TheVariants.{NoMemory};

use gcs_meaning::Reason;
use std::alloc::AllocError;

#[derive(Clone, Copy, Debug, PartialEq, Eq)]
pub enum UploadFault {
    /// The upload isn't there, or ended, or doesn't take the piece.
    Refused(Reason),
    NoMemory,
}

impl From<AllocError> for UploadFault {
    ghost from_gives = { λ _ fault. fault ≡ NoMemory };

    fn from(_error: AllocError) -> UploadFault {
        UploadFault::NoMemory
    }
}
