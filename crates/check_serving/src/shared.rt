//! The program over the connections of a listener in memory.
use crate::listener::{CUT, READS, UPLOADS, listener};
use crate::report::tell;
use crate::words::words_of;
use gcs_io::{MemSink, QuietGate};
use gcs_workers::{Listen, run_shared};
use std::alloc::{AllocError, Global};
use std::sync::Wait;
use std::thread::Threads;
use std::{io, str};

/// The words, the connections, the numbers of the calls of `next` that fail, how many bytes the error output takes, and
/// what must come: the status, the listener's counts, and what was written to the error output.
struct Row {
    case: &'static str,
    words: &'static str,
    connections: &'static [&'static str],
    failing: &'static [u32],
    room: usize,
    wanted: &'static str,
}

const ROWS: [Row; 7] = [
    Row {
        case: "one worker serves three connections, one of which is cut",
        words: "serve 127.0.0.1:0 1",
        connections: &[UPLOADS, CUT, READS],
        failing: &[],
        room: 100,
        wanted: "0, 0 faults, 1 ends, ",
    },
    Row {
        case: "64 workers serve three connections, one of which is cut",
        words: "serve 127.0.0.1:0 64",
        connections: &[UPLOADS, CUT, READS],
        failing: &[],
        room: 100,
        wanted: "0, 0 faults, 64 ends, ",
    },
    Row {
        case: "the listener fails behind its first connection",
        words: "serve 127.0.0.1:0 1",
        connections: &[UPLOADS],
        failing: &[2],
        room: 100,
        wanted: "7, 1 faults, 0 ends, ",
    },
    Row {
        case: "no connections are to be served",
        words: "serve 127.0.0.1:0 2 0",
        connections: &[UPLOADS],
        failing: &[],
        room: 100,
        wanted: "2, 0 faults, 0 ends, gcs_server: bad words\n",
    },
    Row {
        case: "the words ask for nothing",
        words: "help",
        connections: &[],
        failing: &[],
        room: 100,
        wanted: "2, 0 faults, 0 ends, gcs_server: bad words\n",
    },
    Row {
        case: "the words ask for one connection",
        words: "stdio",
        connections: &[],
        failing: &[],
        room: 22,
        wanted: "2, 0 faults, 0 ends, gcs_server: bad words\n",
    },
    Row {
        case: "the line that refuses the words is cut",
        words: "help",
        connections: &[],
        failing: &[],
        room: 10,
        wanted: "4, 0 faults, 0 ends, gcs_server",
    },
];

/// Runs the program of each row.
pub fn try_shared<R>(rt: &R) -> io::Result<bool>
where
    R: Threads + Wait + Sync + Print + AllocGlobal,
{
    let mut all_ok = true;
    for row in &ROWS {
        let came = run_row(rt, rt.alloc(), row)?;
        all_ok &= tell(rt, row.case, came.as_str(), row.wanted)?;
    }
    Ok(all_ok)
}

// The status, the listener's counts, and what was written.
fn run_row<R: Threads + Wait + Sync>(
    rt: &R,
    alloc: Global,
    row: &Row,
) -> Result<String, AllocError> {
    let words = words_of(alloc, row.words)?;
    let listen = listener(alloc, row.connections, row.failing)?;
    let mut output = MemSink::new(alloc, 100, Vec::new(alloc))?;
    let mut errors = MemSink::new(alloc, row.room, Vec::new(alloc))?;
    let (status, listen) = run_shared(
        rt,
        alloc,
        &words,
        listen,
        &QuietGate,
        &mut output,
        &mut errors,
    );
    let (faults, ends) = (listen.faults(), listen.ends());
    let line = str::from_utf8(errors.written()).unwrap_or("no text");
    format!(in alloc; "{status}, {faults} faults, {ends} ends, {line}")
}
