//! Listeners in memory, and texts of connections.
use gcs_io::{ListClock, MemSink, MemSource};
use gcs_workers::{ListListen, Pair};
use std::alloc::{AllocError, Global};
use std::collections::VecDeque;

/// Makes the bucket `box`, and an object in it.
pub const UPLOADS: &str = "POST /storage/v1/b?project=p HTTP/1.1\r\nContent-Length: 14\r\n\r\n\
    {\"name\":\"box\"}\
    POST /upload/storage/v1/b/box/o?uploadType=media&name=a HTTP/1.1\r\nContent-Length: 9\r\n\r\n\
    123456789";

/// Ends in the body of an upload.
pub const CUT: &str = "POST /upload/storage/v1/b/box/o?uploadType=media&name=b HTTP/1.1\r\n\
    Content-Length: 9\r\n\r\n\
    1234";

/// Reads the object.
pub const READS: &str = "GET /storage/v1/b/box/o/a?alt=media HTTP/1.1\r\n\r\n";

/// What the clock of each connection shows: 2023-11-14T22:13:20.000Z, in microseconds since 1970.
pub const MOMENT: u64 = 1_700_000_000_000_000;

/// How many bytes of replies a connection takes.
const ROOM: usize = 262_144;

/// Hands out a connection for each text, whose pieces are parted by `|`. The calls of `next` of these numbers fail.
pub fn listener(
    alloc: Global,
    connections: &[&str],
    failing: &[u32],
) -> Result<ListListen, AllocError> {
    let mut pairs = VecDeque::new(alloc);
    for text in connections {
        let mut pieces = Vec::new(alloc);
        for piece in text.split('|') {
            pieces.push(piece.as_bytes().to_vec(alloc)?)?;
        }
        pairs.push_back(Pair {
            source: MemSource::new(pieces, Vec::new(alloc)),
            sink: MemSink::new(alloc, ROOM, Vec::new(alloc))?,
            clock: ListClock::new(vec![in alloc; MOMENT]?),
        })?;
    }
    Ok(ListListen::new(pairs, failing.to_vec(alloc)?))
}
