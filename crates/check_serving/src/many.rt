//! 64 clients over loopback and 64 workers: each client has a bucket of its own, and all share one.
use crate::listener::{UPLOADS, listener};
use crate::loopback::{IDLE_SECONDS, receive, send};
use crate::report::tell;
use gcs_chunks::Chunks;
use gcs_http_in::Limits;
use gcs_io::QuietGate;
use gcs_store::{Shard, SharedStore};
use gcs_workers::{TcpPairs, serve_all};
use std::alloc::{AllocError, Global};
use std::io;
use std::net::{Net, TcpListener, TcpStream};
use std::rt::Clock;
use std::sync::Wait;
use std::thread::Threads;
use std::time::Duration;

/// How many clients come, and how many workers serve them.
const CLIENTS: u32 = 64;

/// Serves the clients, and counts those that got what they must, and the entries of the store.
pub fn try_many<R>(rt: &R) -> io::Result<bool>
where
    R: Net<Listener = TcpListener, Stream = TcpStream>
        + Threads
        + Wait
        + Sync
        + Clock
        + Print
        + AllocGlobal,
{
    let came = serve_clients(rt, rt.alloc())?;
    tell(
        rt,
        "64 clients, each with a bucket of its own and all with one",
        came.as_str(),
        "Ended, 64 clients got their object, 258 entries",
    )
}

fn serve_clients<R>(rt: &R, alloc: Global) -> io::Result<String>
where
    R: Net<Listener = TcpListener, Stream = TcpStream> + Threads + Wait + Sync + Clock,
{
    let chunks = Chunks::new(alloc)?;
    let (store, passes) = SharedStore::new(alloc, &chunks, CLIENTS)?;
    let limits = Limits::usual();
    let made = listener(alloc, &[UPLOADS], &[])?;
    let (_, passes, made) = serve_all(
        rt, alloc, &store, &chunks, made, &QuietGate, passes, &limits,
    );
    let socket = TcpListener::bind(rt, "127.0.0.1:0")?;
    let address = socket.local_addr()?;
    let mut streams = Vec::new(alloc);
    for number in 0..CLIENTS {
        streams.push(send(rt, address, messages(alloc, number)?.as_str())?)?;
    }
    let pairs = TcpPairs::new(socket, rt, Duration::from_secs(IDLE_SECONDS), Some(CLIENTS));
    let (end, passes, pairs) = serve_all(
        rt, alloc, &store, &chunks, pairs, &QuietGate, passes, &limits,
    );
    let right = count_right(alloc, streams)?;
    let Ok(shards) = store.finish(passes) else {
        return Err(AllocError.into());
    };
    let entries = count_entries(&shards);
    Ok(format!(in alloc; "{end:?}, {right} clients got their object, {entries} entries")?)
}

// How many entries all shards have.
fn count_entries(shards: &[Shard<'_>]) -> usize {
    let mut entries: usize = 0;
    for shard in shards {
        entries = entries.saturating_add(shard.history().len());
    }
    entries
}

// Makes the client's bucket, puts an object there and one in the bucket of all, and reads that one.
fn messages(alloc: Global, number: u32) -> Result<String, AllocError> {
    format!(in alloc;
        "POST /storage/v1/b?project=p HTTP/1.1\r\nContent-Length: 17\r\n\r\n{{\"name\":\"own-{number:02}\"}}\
        POST /upload/storage/v1/b/own-{number:02}/o?uploadType=media&name=a HTTP/1.1\r\nContent-Length: 2\r\n\r\n{number:02}\
        POST /upload/storage/v1/b/box/o?uploadType=media&name=o-{number:02} HTTP/1.1\r\nContent-Length: 2\r\n\r\n{number:02}\
        GET /storage/v1/b/box/o/o-{number:02}?alt=media HTTP/1.1\r\n\r\n"
    )
}

// How many clients got four replies, the last of which has the content that they put.
fn count_right(alloc: Global, streams: Vec<TcpStream>) -> io::Result<u32> {
    let mut right: u32 = 0;
    let mut number: u32 = 0;
    for stream in streams {
        let replies = receive(alloc, stream)?;
        let content = format!(in alloc; "\r\n\r\n{number:02}")?;
        let four = replies.matches("HTTP/1.1 200 OK\r\n").count() == 4;
        if four && replies.ends_with(content.as_str()) {
            right = right.saturating_add(1);
        }
        number = number.saturating_add(1);
    }
    Ok(right)
}
