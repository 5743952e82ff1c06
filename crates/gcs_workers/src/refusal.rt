//! What the program refuses with a line on the error output.
ghost use Rattle.std.specs.Prelude.{◌≡◌, codes};
ghost use Rattle.gcs_io.specs.Causes.{Rose};
ghost use Rattle.gcs_workers.specs.Refusal.{IsRefusal};

use crate::status::Status;
use gcs_io::Sink;
use gcs_session::write_all;

/// The line that says that the words are refused.
const BAD_WORDS: &[u8] = b"gcs_server: bad words\n";

/// Refuses words that ask for nothing, by one line on the error output.
pub fn refuse_words<E: Sink>(errors: &mut E) -> Status
    ensures written { IsRefusal (codes "gcs_server: bad words\n") (E.written errors.old) (E.written errors.new) result }
    ensures fault { result ≡ Status.WriteFault → Rose (E.faults errors.old) (E.faults errors.new) }
{
    match write_all(errors, BAD_WORDS) {
        Ok(()) => Status::Refused,
        Err(_) => Status::WriteFault,
    }
}
