//! Two workers, each of whom is held up in its connection until the other has stepped on the store.
use crate::listener::listener;
use crate::report::tell;
use gcs_chunks::Chunks;
use gcs_http_in::Limits;
use gcs_io::{HoldGate, QuietGate};
use gcs_meaning::{Command, Entry, shard_of};
use gcs_store::SharedStore;
use gcs_workers::serve_all;
use std::alloc::{AllocError, Global};
use std::io;
use std::sync::Wait;
use std::thread::Threads;

/// Makes the bucket `box`.
const INSERT: &str =
    "POST /storage/v1/b?project=p HTTP/1.1\r\nContent-Length: 14\r\n\r\n{\"name\":\"box\"}";

/// Puts an object, by two reads.
const PUT: &str = "POST /upload/storage/v1/b/box/o?uploadType=media&name=a HTTP/1.1\r\n\
    Content-Length: 9\r\n\r\n\
    1234|56789";

/// Asks for its metadata, and keeps the connection for one more read.
const GET: &str = "GET /storage/v1/b/box/o/a HTTP/1.1\r\n\r\n";

/// For how many turns of a loop a read is held up at most.
const TURNS: u32 = 1_000_000_000;

/// Holds the second read of both connections up. Served one after the other, the first of them would run out of turns.
pub fn try_beside<R>(rt: &R) -> io::Result<bool>
where
    R: Threads + Wait + Sync + Print + AllocGlobal,
{
    let gate = HoldGate::new(2, TURNS);
    let came = serve_both(rt, rt.alloc(), &gate)?;
    tell(
        rt,
        "two workers, each held up until the other has stepped",
        came.as_str(),
        "insert get put, ran out false, 2 reads held",
    )
}

// The entries of the bucket's shard, and what the gate saw.
fn serve_both<R: Threads + Wait + Sync>(
    rt: &R,
    alloc: Global,
    gate: &HoldGate,
) -> Result<String, AllocError> {
    let chunks = Chunks::new(alloc)?;
    let (store, passes) = SharedStore::new(alloc, &chunks, 2)?;
    let limits = Limits::usual();
    let made = listener(alloc, &[INSERT], &[])?;
    let (_, passes, made) = serve_all(
        rt, alloc, &store, &chunks, made, &QuietGate, passes, &limits,
    );
    let both = listener(alloc, &[PUT, GET], &[])?;
    let (_, passes, both) = serve_all(rt, alloc, &store, &chunks, both, gate, passes, &limits);
    let Ok(shards) = store.finish(passes) else {
        return Err(AllocError);
    };
    let mut line = String::new(alloc);
    if let Some(shard) = shards.get(usize::from(shard_of(b"box"))) {
        for entry in shard.history() {
            line.push_str(name_of(entry))?;
            line.push(' ')?;
        }
    }
    let line = line.trim_end();
    format!(in alloc;
        "{line}, ran out {}, {} reads held",
        gate.ran_out(),
        gate.reads()
    )
}

fn name_of(entry: &Entry) -> &'static str {
    match &entry.command {
        Command::BucketInsert { .. } => "insert",
        Command::Put { .. } => "put",
        Command::Get { .. } => "get",
        _ => "other",
    }
}
