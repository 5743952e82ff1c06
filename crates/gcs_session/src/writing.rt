//! Writing a text whole.
ghost use Rattle.std.specs.Prelude.{◌≡◌, ◌<◌, ℕ, List, length, OnOk};
ghost use Rattle.gcs_io.specs.Causes.{HasCause};
ghost use Rattle.gcs_io.specs.Told.{Gains};
ghost use Rattle.gcs_session.specs.Contents.{SessionLiesIn};
ghost use Rattle.gcs_session.specs.Session.{waiting_in, IsDrained};
ghost use Rattle.gcs_session.specs.Writing.{IsWritten};

use crate::session::Session;
use gcs_chunks::Chunks;
use gcs_io::{Failed, Sink};

/// Writes the text, by as many writes as it takes. `Err`: a write failed, and a proper prefix of the text was written.
pub fn write_all<K: Sink>(sink: &mut K, text: &[u8]) -> Result<(), Failed>
    ensures written { (w : List ℕ) × Gains (K.written sink.old) (K.written sink.new) w × IsWritten text.now w result }
    ensures cause { HasCause (K.faults sink.old) (K.faults sink.new) result }
{
    let mut rest = text;
    while !rest.is_empty() {
        match sink.write(rest) {
            Ok(count) => rest = &rest[count..],
            Err(failed) => return Err(failed),
        }
    }
    Ok(())
}

/// Writes all that waits in a session, block by block. `Err`: a write failed, and a proper prefix of it was written.
pub fn write_waiting<K: Sink>(
    session: &mut Session,
    chunks: &Chunks,
    sink: &mut K,
    block: &mut [u8],
) -> Result<(), Failed>
    requires block { 0 < length block.old }
    requires lies { SessionLiesIn chunks.now session.old }
    ensures drained { OnOk result (IsDrained session.old session.new) }
    ensures written { (w : List ℕ) × Gains (K.written sink.old) (K.written sink.new) w × IsWritten (waiting_in session.old) w result }
    ensures lies { SessionLiesIn chunks.now session.new }
    ensures cause { HasCause (K.faults sink.old) (K.faults sink.new) result }
{
    'waiting: while session.waits() {
        let count = session.drain(chunks, block);
        write_all(sink, &block[..count])?;
    }
    Ok(())
}
