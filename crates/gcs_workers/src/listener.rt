//! Where connections come from.
ghost use Rattle.std.specs.Prelude.{◌≡◌, ℕ, List, Option};
ghost use Rattle.gcs_io.specs.Causes.{HasCause};
ghost use Rattle.gcs_workers.specs.Listener.{HandsOut, HasEnd};
ghost use Rattle.gcs_workers.specs.Told.{told, Told};

use crate::link::Link;
use gcs_io::{Clock, Failed, Sink, Source};

/// Gives one connection after another.
///
/// connections a, b    next: a; next: b; next: none, the first end; next: none, the second end
/// and a failing call  next: a; next: failed, the first fault; next: b
pub trait Listen: Drop {
    type Reader: Source + Send;

    type Writer: Sink + Send;

    type Time: Clock + Send;

    /// What the connections that are still to come tell of themselves, in order, where that is told.
    ghost pending: { Self → Option (List Told) };

    /// How often a call of `next` has failed.
    ghost fault_count: { Self → ℕ };

    /// How often a call of `next` has found no further connection.
    ghost end_count: { Self → ℕ };

    /// The next connection. None: none is pending, and that is counted. `Failed`: the failure is counted.
    fn next(&mut self) -> Result<Option<Link<Self::Reader, Self::Writer, Self::Time>>, Failed>
        ensures pending { HandsOut (λ p. told (Self.Reader.rest p.source) (Self.Reader.taken p.source) (Self.Writer.written p.sink) (Self.Time.given p.clock)) (pending self.old) (pending self.new) result }
        ensures cause { HasCause (fault_count self.old) (fault_count self.new) result }
        ensures ends { HasEnd (end_count self.old) (end_count self.new) result };

    /// The count of faults.
    fn faults(&self) -> u64
        ensures { result ≡ fault_count self.now };

    /// The count of ends.
    fn ends(&self) -> u64
        ensures { result ≡ end_count self.now };
}
