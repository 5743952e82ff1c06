//! What becomes of a version that is taken away.
ghost use Rattle.std.specs.Prelude.{◌≡◌, ◌<◌, ◌^◌};
ghost use Rattle.gcs_meaning.specs.Policy.{AreInLimits, retired_to};

use gcs_meaning::{MICROSECONDS_PER_SECOND, Retired, Settings};

/// What becomes of a version that is replaced or deleted at `moment` (microseconds since 1970): in
/// a versioned bucket it becomes noncurrent, unless it is deleted with its generation named, as
/// `named` says; else it is soft-deleted, where the bucket has a soft-delete duration.
///
/// Source: Cloud Storage, "Object Versioning" and "Soft delete".
#[tactic(auto, unfolding(gcs_meaning::specs::Policy::retired_to))]
pub fn retire(settings: &Settings, moment: u64, named: bool) -> Retired
    requires limits { AreInLimits settings.now }
    requires moment { moment < 2 ^ 62 }
    ensures { result ≡ retired_to settings.now moment named }
{
    if settings.versioned && !named {
        Retired::Noncurrent
    } else if settings.soft_seconds == 0 {
        Retired::Out
    } else {
        Retired::Soft {
            hard: moment + settings.soft_seconds * MICROSECONDS_PER_SECOND,
        }
    }
}
