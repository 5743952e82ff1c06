//! A row's connections, served.
ghost use Rattle.std.specs.Prelude.{◌≡◌};

use crate::course::Course;
use crate::limits::RowLimits;
use crate::row::{Connection, Row};
use crate::store::{START, TUB, entries_of, tub_desk};
use crate::wire::{Feed, Tray};
use gcs_chunks::Chunks;
use gcs_io::{ListClock, StdSink, StdSource};
use gcs_meaning::Text;
use gcs_session::{SessionEnd, serve_connection};
use gcs_store::PlainDesk;
use gcs_workers::run_alone;
use std::alloc::{AllocError, Global};

/// What came of a row.
#[derive(Drop)]
pub struct Served {
    /// One for each connection.
    pub outcomes: Vec<Outcome>,
    /// How many entries the histories have together.
    pub entries: usize,
}

/// What came of a connection.
#[derive(Drop)]
pub struct Outcome {
    pub end: SessionEnd,
    pub written: Vec<u8>,
    pub reads: u32,
    pub writes: u32,
}

/// Serves the connections of a row over a store of their own.
pub fn serve_row(alloc: Global, row: &Row<'_>, course: Course) -> Result<Served, AllocError> {
    let chunks = Chunks::new(alloc)?;
    let mut desk = tub_desk(alloc, &chunks)?;
    let outcomes = serve_each(alloc, &mut desk, &chunks, row, course)?;
    let entries = entries_of(&desk);
    drop(desk);
    Ok(Served { outcomes, entries })
}

fn serve_each(
    alloc: Global,
    desk: &mut PlainDesk<'_>,
    chunks: &Chunks,
    row: &Row<'_>,
    course: Course,
) -> Result<Vec<Outcome>, AllocError>
    requires { desk.old.chunks ≡ chunks.now }
{
    let mut outcomes = Vec::new(alloc);
    for connection in &row.connections {
        let outcome = serve(alloc, desk, chunks, &row.limits, connection, course)?;
        outcomes.push(outcome)?;
    }
    Ok(outcomes)
}

fn serve(
    alloc: Global,
    desk: &mut PlainDesk<'_>,
    chunks: &Chunks,
    limits: &RowLimits,
    connection: &Connection,
    course: Course,
) -> Result<Outcome, AllocError>
    requires { desk.old.chunks ≡ chunks.now }
    ensures { desk.new.chunks ≡ desk.old.chunks }
{
    let mut feed = Feed::new(&connection.sent, course);
    let mut tray = Tray::new(alloc, course);
    let mut clock = clock_of(alloc, &connection.readings)?;
    let end = serve_connection(
        alloc,
        desk,
        chunks,
        &mut StdSource::new(&mut feed),
        &mut StdSink::new(&mut tray),
        &mut clock,
        limits.get(),
    );
    Ok(Outcome {
        end,
        written: tray.written,
        reads: feed.calls,
        writes: tray.calls,
    })
}

fn clock_of(alloc: Global, readings: &[u64]) -> Result<ListClock, AllocError> {
    let mut list = readings.to_vec(alloc)?;
    if list.is_empty() {
        list.push(START)?;
    }
    Ok(ListClock::new(list))
}

/// Serves a connection by the program's words `stdio tub`: the status, and what was written.
pub fn run_program(alloc: Global, connection: &Connection) -> Result<(u8, Vec<u8>), AllocError> {
    let words = vec![in alloc;
        Text::from_str(alloc, "stdio")?,
        Text::from_str(alloc, TUB)?,
    ]?;
    let mut feed = Feed::new(&connection.sent, Course::Program);
    let mut tray = Tray::new(alloc, Course::Program);
    let mut errors = Tray::new(alloc, Course::Program);
    // The first reading is that of the bucket's insert.
    let mut readings = vec![in alloc; START]?;
    readings.extend_from_slice(&connection.readings)?;
    let mut clock = ListClock::new(readings);
    let status = run_alone(
        alloc,
        &words,
        &mut StdSource::new(&mut feed),
        &mut StdSink::new(&mut tray),
        &mut StdSink::new(&mut errors),
        &mut clock,
    );
    Ok((status, tray.written))
}
