//! A session, fed and drained by hand.
ghost use Rattle.std.specs.Prelude.{◌≡◌, ◌≤◌, IfOk, length};
ghost use Rattle.gcs_chunks.specs.Content.{ChunksValue};
ghost use Rattle.gcs_session.specs.Contents.{SessionLiesIn};
ghost use Rattle.gcs_session.specs.Session.{IsRunning};

use crate::failure::Failure;
use crate::store::START;
use gcs_chunks::Chunks;
use gcs_http_in::Limits;
use gcs_io::{Clock, ListClock};
use gcs_session::{Fed, Session, Want};
use gcs_store::PlainDesk;
use std::alloc::{AllocError, Global};

/// A call of `feed`, and a call of `drain` behind it.
#[derive(Clone, Copy)]
struct Step {
    piece: &'static [u8],
    /// What must be taken and wanted, and how the bytes begin that are given out.
    taken: usize,
    want: Want,
    given_out: &'static [u8],
}

/// The front of an upload; its end, to which a 404 is written, and the front of another message; a head that is none, which
/// closes the connection; and bytes behind it.
const STEPS: [Step; 4] = [
    Step {
        piece: b"POST /upload/storage/v1/b/tub/o?uploadType=media&name=a HTTP/1.1\r\nHost",
        taken: 70,
        want: Want::More,
        given_out: b"",
    },
    Step {
        piece: b": h\r\nContent-Length: 0\r\n\r\nGET",
        taken: 26,
        want: Want::Drain,
        given_out: b"HTTP/1.1 404 Not Found\r\n",
    },
    Step {
        piece: b"x\r\n\r\nGET",
        taken: 5,
        want: Want::Drain,
        given_out: b"HTTP/1.1 400 Bad Request\r\n",
    },
    Step {
        piece: b"GET",
        taken: 0,
        want: Want::Close,
        given_out: b"",
    },
];

/// Feeds a session a piece at a time. `Err`: a step is not as it must be, or no memory.
pub fn try_by_hand(alloc: Global) -> Result<(), Failure> {
    let chunks = Chunks::new(alloc)?;
    let mut desk = PlainDesk::new(alloc, &chunks)?;
    let outcome = take_steps(alloc, &mut desk, &chunks);
    drop(desk);
    outcome
}

// Of the messages the whole one alone takes a reading of the clock.
fn take_steps(alloc: Global, desk: &mut PlainDesk<'_>, chunks: &Chunks) -> Result<(), Failure>
    requires { desk.old.chunks ≡ chunks.now }
{
    let mut clock = clock(alloc)?;
    let mut session = open(alloc)?;
    if !session.at_start() {
        return Err(Failure::ByHand);
    }
    for step in &STEPS {
        take_step(&mut session, desk, chunks, &mut clock, step)?;
    }
    if clock.now() == START + 1 {
        Ok(())
    } else {
        Err(Failure::ByHand)
    }
}

fn clock(alloc: Global) -> Result<ListClock, AllocError> {
    Ok(ListClock::new(vec![in alloc; START, START + 1]?))
}

fn open(alloc: Global) -> Result<Session, AllocError>
    ensures running { IfOk result IsRunning }
    ensures lies { IfOk result (λ session. (chunks : ChunksValue) → SessionLiesIn chunks session) }
{
    Session::new(alloc, &Limits::usual())
}

fn take_step(
    session: &mut Session,
    desk: &mut PlainDesk<'_>,
    chunks: &Chunks,
    clock: &mut ListClock,
    step: &Step,
) -> Result<(), Failure>
    requires chunks { desk.old.chunks ≡ chunks.now }
    requires running { IsRunning session.old }
    requires lies { SessionLiesIn chunks.now session.old }
    ensures chunks { desk.new.chunks ≡ desk.old.chunks }
    ensures running { IsRunning session.new }
    ensures lies { SessionLiesIn chunks.now session.new }
{
    let mut block = [0u8; 1000];
    let (fed, count) = feed_and_drain(session, desk, chunks, clock, step.piece, &mut block);
    if fed.taken == step.taken
        && fed.want == step.want
        && block[..count].starts_with(step.given_out)
        && !session.waits()
    {
        Ok(())
    } else {
        Err(Failure::ByHand)
    }
}

// Feeds the piece, and drains what waits then, as far as there is room.
fn feed_and_drain(
    session: &mut Session,
    desk: &mut PlainDesk<'_>,
    chunks: &Chunks,
    clock: &mut ListClock,
    piece: &[u8],
    into: &mut [u8],
) -> (Fed, usize)
    requires chunks { desk.old.chunks ≡ chunks.now }
    requires running { IsRunning session.old }
    requires lies { SessionLiesIn chunks.now session.old }
    ensures chunks { desk.new.chunks ≡ desk.old.chunks }
    ensures running { IsRunning session.new }
    ensures lies { SessionLiesIn chunks.now session.new }
    ensures count { result.1 ≤ length into.new }
{
    let fed = session.feed(desk, chunks, clock, piece);
    let count = session.drain(chunks, into);
    (fed, count)
}
