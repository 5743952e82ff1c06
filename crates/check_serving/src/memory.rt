//! Connections in memory, by one worker and by three.
ghost use Rattle.std.specs.Prelude.{◌≤◌};

use crate::listener::{CUT, READS, UPLOADS, listener};
use crate::report::tell;
use gcs_chunks::Chunks;
use gcs_http_in::Limits;
use gcs_io::QuietGate;
use gcs_meaning::shard_of;
use gcs_store::SharedStore;
use gcs_workers::{Listen, serve_all};
use std::alloc::{AllocError, Global};
use std::io;
use std::sync::Wait;
use std::thread::Threads;

/// Connections, the numbers of the calls of `next` that fail, and what must come of it.
struct Row {
    case: &'static str,
    connections: &'static [&'static str],
    failing: &'static [u32],
    by_one: &'static str,
    by_three: &'static str,
}

const ROWS: [Row; 4] = [
    Row {
        case: "three connections, one of which is cut",
        connections: &[UPLOADS, CUT, READS],
        failing: &[],
        by_one: "Ended, 3 entries, 0 faults, 1 ends",
        by_three: "Ended, 3 entries, 0 faults, 3 ends",
    },
    Row {
        case: "a listener whose second call fails",
        connections: &[UPLOADS, READS],
        failing: &[2],
        by_one: "ListenFault, 2 entries, 1 faults, 0 ends",
        by_three: "ListenFault, 3 entries, 1 faults, 2 ends",
    },
    Row {
        case: "a listener whose first call fails",
        connections: &[UPLOADS],
        failing: &[1],
        by_one: "ListenFault, 0 entries, 1 faults, 0 ends",
        by_three: "ListenFault, 2 entries, 1 faults, 2 ends",
    },
    Row {
        case: "no connections",
        connections: &[],
        failing: &[],
        by_one: "Ended, 0 entries, 0 faults, 1 ends",
        by_three: "Ended, 0 entries, 0 faults, 3 ends",
    },
];

/// Serves the connections of each row.
pub fn try_memory<R>(rt: &R) -> io::Result<bool>
where
    R: Threads + Wait + Sync + Print + AllocGlobal,
{
    let alloc = rt.alloc();
    let mut all_ok = true;
    for row in &ROWS {
        let came = serve_row(rt, alloc, row, 1)?;
        let case = format!(in alloc; "{}, one worker", row.case)?;
        all_ok &= tell(rt, case.as_str(), came.as_str(), row.by_one)?;
        let came = serve_row(rt, alloc, row, 3)?;
        let case = format!(in alloc; "{}, three workers", row.case)?;
        all_ok &= tell(rt, case.as_str(), came.as_str(), row.by_three)?;
    }
    Ok(all_ok)
}

// How serving ended, how many entries the shard of `box` has then, and the listener's counts.
fn serve_row<R: Threads + Wait + Sync>(
    rt: &R,
    alloc: Global,
    row: &Row,
    workers: u32,
) -> Result<String, AllocError>
    requires { (1 ≤ workers) × (workers ≤ 64) }
{
    let chunks = Chunks::new(alloc)?;
    let (store, passes) = SharedStore::new(alloc, &chunks, workers)?;
    let listen = listener(alloc, row.connections, row.failing)?;
    let limits = Limits::usual();
    let (end, passes, listen) = serve_all(
        rt, alloc, &store, &chunks, listen, &QuietGate, passes, &limits,
    );
    let (faults, ends) = (listen.faults(), listen.ends());
    let Ok(shards) = store.finish(passes) else {
        return Err(AllocError);
    };
    let place = usize::from(shard_of(b"box"));
    let entries = shards.get(place).map_or(0, |shard| shard.history().len());
    format!(in alloc; "{end:?}, {entries} entries, {faults} faults, {ends} ends")
}
