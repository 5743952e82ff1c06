//! What the state of a version says of it.
ghost use Rattle.std.specs.Prelude.{◌≡◌};
ghost use Rattle.gcs_meaning.specs.Aging.{kind_stays};
ghost use Rattle.gcs_meaning.specs.Choosing.{is_readable};

use gcs_meaning::Kind;

/// A version of this kind isn't gone at `moment` (microseconds since 1970).
pub fn stays(kind: Kind, moment: u64) -> bool
    ensures { result ≡ kind_stays moment kind }
{
    match kind {
        Kind::Live | Kind::Noncurrent { .. } => true,
        Kind::Soft { hard, .. } => moment < hard,
    }
}

/// A version of this kind is live or noncurrent.
pub fn is_readable(kind: Kind) -> bool
    ensures { result ≡ is_readable kind }
{
    !matches!(kind, Kind::Soft { .. })
}
