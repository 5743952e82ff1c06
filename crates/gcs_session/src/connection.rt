//! A connection, from its first byte to its end.
ghost use Rattle.std.specs.Prelude.{◌≡◌, ◌⊎◌, ◌≤◌, ◌<◌, ◌+◌, ℕ, List, [], length, false, true, IfOk, Option, Some, None};
ghost use Rattle.gcs_chunks.specs.Content.{ChunksValue};
ghost use Rattle.gcs_io.specs.Causes.{Rose};
ghost use Rattle.gcs_http_in.specs.declared.limits.Limits.{Limits};
ghost use Rattle.gcs_http_in.specs.Usual.{IsAllowed};
ghost use Rattle.gcs_session.specs.Along.{AlongTo, IsAlong};
ghost use Rattle.gcs_session.specs.Connection.{IsServed, Outside};
ghost use Rattle.gcs_session.specs.Contents.{SessionLiesIn};
ghost use Rattle.gcs_session.specs.Session.{limits_in, IsSession};

use crate::ends::SessionEnd;
use crate::session::{Session, Want};
use crate::writing::write_waiting;
use gcs_chunks::Chunks;
use gcs_http_in::Limits;
use gcs_io::{Clock, Sink, Source};
use gcs_meaning::Desk;
use std::alloc::{AllocError, Global};

/// How many bytes are read or written at a time.
const BLOCK: usize = 65_536;

// What a connection works with: its session, and a block of bytes for each direction.
#[derive(Drop)]
struct Wire {
    session: Session,
    reads: Vec<u8>,
    writes: Vec<u8>,
}

/// Serves one connection to its end: reads messages from the source, answers each through the desk, and writes the
/// replies to the sink. Each message takes one reading of the clock.
pub fn serve_connection<S: Source, K: Sink, C: Clock, D: Desk>(
    alloc: Global,
    desk: &mut D,
    chunks: &Chunks,
    source: &mut S,
    sink: &mut K,
    clock: &mut C,
    limits: &Limits,
) -> SessionEnd
    requires allowed { IsAllowed limits.now }
    requires chunks { (D.stands desk.old).chunks ≡ chunks.now }

    // The headline.
    ensures served { IsServed limits.now (D.stands desk.old).caller
        (record { left = S.rest source.old; taken = S.taken source.old; written = K.written sink.old; given = C.given clock.old; saw = D.seen desk.old; own = D.mine desk.old })
        (record { left = S.rest source.new; taken = S.taken source.new; written = K.written sink.new; given = C.given clock.new; saw = D.seen desk.new; own = D.mine desk.new })
        (S.ended source.new) result }
    ensures stands { D.stands desk.new ≡ D.stands desk.old }

    // Want of memory is answered before anything is done.
    ensures memory { result ≡ SessionEnd.NoMemory → (desk.new ≡ desk.old) × (source.new ≡ source.old) × (sink.new ≡ sink.old) × (clock.new ≡ clock.old) }

    // A fault is answered only where one was counted.
    ensures read_fault { result ≡ SessionEnd.ReadFault → Rose (S.faults source.old) (S.faults source.new) }
    ensures write_fault { result ≡ SessionEnd.WriteFault → Rose (K.faults sink.old) (K.faults sink.new) }
{
    let mut wire = match open(alloc, limits) {
        Ok(wire) => wire,
        Err(_) => return SessionEnd::NoMemory,
    };
    // Each turn takes a byte, and a connection has fewer.
    'pieces: for turn in 0..u64::MAX {
        let count = match source.read(&mut wire.reads) {
            Ok(count) => count,
            Err(_) => return SessionEnd::ReadFault,
        };
        if count == 0 {
            return end_of(&wire.session);
        }
        let Wire {
            session,
            reads,
            writes,
        } = &mut wire;
        if let Some(end) = serve_piece(
            session,
            desk,
            chunks,
            sink,
            clock,
            writes,
            &reads[..count],
        ) {
            return end;
        }
    }
    unreachable!()
}

fn open(alloc: Global, limits: &Limits) -> Result<Wire, AllocError>
    requires { IsAllowed limits.now }
    ensures session { IfOk result (λ wire. IsSession wire.session [] [] [] []) }
    ensures limits { IfOk result (λ wire. limits_in wire.session ≡ limits.now) }
    ensures closed { IfOk result (λ wire. wire.session.closed ≡ false) }
    ensures reads { IfOk result (λ wire. length wire.reads.items ≡ 65536) }
    ensures writes { IfOk result (λ wire. length wire.writes.items ≡ 65536) }
    ensures lies { IfOk result (λ wire. (chunks : ChunksValue) → SessionLiesIn chunks wire.session) }
{
    Ok(Wire {
        session: Session::new(alloc, limits)?,
        reads: vec![in alloc; 0; BLOCK]?,
        writes: vec![in alloc; 0; BLOCK]?,
    })
}

// How a connection ends whose source has ended.
fn end_of(session: &Session) -> SessionEnd
    ensures served { (limits : Limits) (caller : ℕ) (a b : Outside) → IsAlong limits caller a b session.now [] → session.now.closed ≡ false
        → IsServed limits caller a b true result }
    ensures ends { (result ≡ SessionEnd.Ended) ⊎ (result ≡ SessionEnd.Cut) }
{
    if session.at_start() {
        SessionEnd::Ended
    } else {
        SessionEnd::Cut
    }
}

// Answers all messages that end in the piece, and writes their replies. None: the connection goes on.
fn serve_piece<K: Sink, C: Clock, D: Desk>(
    session: &mut Session,
    desk: &mut D,
    chunks: &Chunks,
    sink: &mut K,
    clock: &mut C,
    block: &mut [u8],
    piece: &[u8],
) -> Option<SessionEnd>
    requires block { 0 < length block.old }
    requires chunks { (D.stands desk.old).chunks ≡ chunks.now }
    requires lies { SessionLiesIn chunks.now session.old }
    requires along { (limits : Limits) × (a : Outside) × (left : Option (List ℕ)) × (taken : Option (List ℕ)) × IsAlong limits (D.stands desk.old).caller a
        (record { left = left; taken = taken; written = K.written sink.old; given = C.given clock.old; saw = D.seen desk.old; own = D.mine desk.old })
        session.old piece.now }
    ensures stands { D.stands desk.new ≡ D.stands desk.old }
    ensures along { (limits : Limits) (a : Outside) (left taken : Option (List ℕ)) → (x : IsAlong limits (D.stands desk.old).caller a
        (record { left = left; taken = taken; written = K.written sink.old; given = C.given clock.old; saw = D.seen desk.old; own = D.mine desk.old })
        session.old piece.now)
        → AlongTo result (length x.fed + length piece.now) limits (D.stands desk.old).caller a
        (record { left = left; taken = taken; written = K.written sink.new; given = C.given clock.new; saw = D.seen desk.new; own = D.mine desk.new })
        session.new }
    ensures fault { result ≡ Some SessionEnd.WriteFault → Rose (K.faults sink.old) (K.faults sink.new) }
    ensures faults { K.faults sink.old ≤ K.faults sink.new }
    ensures lies { SessionLiesIn chunks.now session.new }
{
    let mut rest = piece;
    // Each turn but the last answers a message, and a connection has fewer.
    'messages: for turn in 0..u64::MAX {
        let fed = session.feed(desk, chunks, clock, rest);
        rest = &rest[fed.taken..];
        match fed.want {
            Want::More => return None,
            Want::Close => return Some(SessionEnd::Closed),
            Want::Drain => {
                if write_waiting(session, chunks, sink, block).is_err() {
                    return Some(SessionEnd::WriteFault);
                }
            }
        }
    }
    unreachable!()
}
