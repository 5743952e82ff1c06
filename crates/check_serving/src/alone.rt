//! The program over one connection in memory.
use crate::listener::MOMENT;
use crate::report::tell;
use crate::words::words_of;
use gcs_io::{ListClock, MemSink, MemSource};
use gcs_workers::run_alone;
use std::alloc::{AllocError, Global};
use std::{io, str};

const DELETE: &str = "DELETE /storage/v1/b/tub HTTP/1.1\r\n\r\n";

/// The words, the input, how many bytes the output and the error output take, the numbers of the reads that fail, and what
/// must come: the status, and what was written to both.
struct Row {
    case: &'static str,
    words: &'static str,
    input: &'static str,
    output_room: usize,
    errors_room: usize,
    failing: &'static [u32],
    wanted: &'static str,
}

const ROWS: [Row; 8] = [
    Row {
        case: "a bucket that was made first is deleted",
        words: "stdio tub",
        input: DELETE,
        output_room: 1_000,
        errors_room: 1_000,
        failing: &[],
        wanted: "0 HTTP/1.1 204 No Content\r\n\r\n",
    },
    Row {
        case: "no bucket is made",
        words: "stdio",
        input: DELETE,
        output_room: 1_000,
        errors_room: 1_000,
        failing: &[],
        wanted: "0 HTTP/1.1 404 Not Found\r\nContent-Type: application/json; charset=UTF-8\r\nContent-Length: 117\r\n\r\n\
            {\"error\":{\"code\":404,\"errors\":[{\"domain\":\"global\",\"message\":\"no bucket\",\"reason\":\"notFound\"}],\"message\":\"no bucket\"}}",
    },
    Row {
        case: "the input ends in a message",
        words: "stdio tub",
        input: "DELETE /storage/v1/b/tub HTTP/1.1\r\n",
        output_room: 1_000,
        errors_room: 1_000,
        failing: &[],
        wanted: "6 ",
    },
    Row {
        case: "a read fails",
        words: "stdio tub",
        input: DELETE,
        output_room: 1_000,
        errors_room: 1_000,
        failing: &[1],
        wanted: "3 ",
    },
    Row {
        case: "a write fails",
        words: "stdio tub",
        input: DELETE,
        output_room: 8,
        errors_room: 1_000,
        failing: &[],
        wanted: "4 HTTP/1.1",
    },
    Row {
        case: "words that ask for nothing",
        words: "help",
        input: DELETE,
        output_room: 1_000,
        errors_room: 1_000,
        failing: &[],
        wanted: "2 gcs_server: bad words\n",
    },
    Row {
        case: "words that ask for something else",
        words: "serve 127.0.0.1:80 1",
        input: DELETE,
        output_room: 1_000,
        errors_room: 1_000,
        failing: &[],
        wanted: "2 gcs_server: bad words\n",
    },
    Row {
        case: "the line on bad words is cut",
        words: "help",
        input: DELETE,
        output_room: 1_000,
        errors_room: 10,
        failing: &[],
        wanted: "4 gcs_server",
    },
];

/// Runs the program of each row.
pub fn try_alone(rt: &(impl Print + AllocGlobal)) -> io::Result<bool> {
    let mut all_ok = true;
    for row in &ROWS {
        let came = run_row(rt.alloc(), row)?;
        all_ok &= tell(rt, row.case, came.as_str(), row.wanted)?;
    }
    Ok(all_ok)
}

// The status, and what was written to the output and to the error output.
fn run_row(alloc: Global, row: &Row) -> Result<String, AllocError> {
    let words = words_of(alloc, row.words)?;
    let pieces = vec![in alloc; row.input.as_bytes().to_vec(alloc)?]?;
    let mut input = MemSource::new(pieces, row.failing.to_vec(alloc)?);
    let mut output = MemSink::new(alloc, row.output_room, Vec::new(alloc))?;
    let mut errors = MemSink::new(alloc, row.errors_room, Vec::new(alloc))?;
    let mut clock = ListClock::new(vec![in alloc; MOMENT]?);
    let status = run_alone(
        alloc,
        &words,
        &mut input,
        &mut output,
        &mut errors,
        &mut clock,
    );
    let written = str::from_utf8(output.written()).unwrap_or("no text");
    let line = str::from_utf8(errors.written()).unwrap_or("no text");
    format!(in alloc; "{status} {written}{line}")
}
