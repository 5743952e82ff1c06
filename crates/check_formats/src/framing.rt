//! What a framer tells of heads and bodies, and where it refuses them, in pieces of one byte, of seven and as a whole.
ghost use Rattle.gcs_http_in.specs.Usual.{IsAllowed};

use crate::events::{events, events_by_copy};
use crate::report::{Failure, expect, report};
use gcs_http_in::{Framer, Limits, Taken};
use std::alloc::{AllocError, Global};
use std::io;

// RFC 9112, 2.2, 3, 5 and 9.3.
const HEADS: [(&str, &str); 12] = [
    ("\r\n\nGET / HTTP/1.1\r\nHost: h\r\n\r\n\r\n", "<keep >."),
    ("GET / HTTP/1.1\r\nConnection: CLOSE\r\n\r\nGET", "<close >"),
    ("GET / HTTP/1.0\n\nGET", "<close >"),
    ("GET / HTTP/1.0\n\n\r\n\n", "<close >."),
    ("GET / HTTP/1.0\nConnection: Keep-Alive\n\n", "<keep >."),
    ("GET / HTTP/2.0\r\n\r\n", "BadHead."),
    ("GET / HTTP/1.1\r\nA: b\r\n c\r\n\r\n", "BadHead."),
    ("GET / HTTP/1.1\r\nA : b\r\n\r\n", "BadHead."),
    ("x\r\n\r\nGET / HTTP/1.1\r\n\r\n", "BadHead"),
    ("x\r\n", ""),
    ("\r\r", "."),
    ("\r\rG", ""),
];

// The fields of an upload, what follows its head, and what is told (RFC 9112, 6).
const BODIES: [(&str, &str, &str); 19] = [
    ("A: b", "", "<keep >."),
    ("Content-Length: 3", "abc\r\n", "<keep abc>."),
    (
        "Content-Length: 9\r\nContent-Length: 9",
        "123456789",
        "<keep 123456789>.",
    ),
    (
        "Content-Length: 03\r\ncontent-length:\t3 ",
        "abcd",
        "<keep abc>",
    ),
    ("Content-Length: 000000000000000001", "a", "<keep a>."),
    ("Content-Length: 1073741824", "", "<keep "),
    ("Content-Length: 0000000000000000001", "a", "BadLength"),
    ("Content-Length: 1\r\nContent-Length: 2", "", "BadLength."),
    (
        "Content-Length: 1\r\nContent-Length: 1073741825",
        "",
        "BadLength.",
    ),
    ("Content-Length: 1, 1", "", "BadLength."),
    ("Content-Length: +1", "", "BadLength."),
    ("Content-Length:", "", "BadLength."),
    ("Content-Length: 1073741825", "", "BodyTooLong."),
    ("Transfer-Encoding: CHUNKED", "0\r\n\r\n", "<keep >."),
    ("Transfer-Encoding: gzip, chunked", "", "BadCoding."),
    (
        "Transfer-Encoding: chunked\r\nTransfer-Encoding: chunked",
        "",
        "BadCoding.",
    ),
    (
        "Content-Length: x\r\nTransfer-Encoding: gzip",
        "",
        "BadCoding.",
    ),
    (
        "Content-Length: x\r\nTransfer-Encoding: chunked",
        "",
        "BothLengths.",
    ),
    (
        "Content-Length: 1\r\nTransfer-Encoding: chunked",
        "a",
        "BothLengths",
    ),
];

// What follows the head of a chunked upload (RFC 9112, 7.1).
const CHUNKS: [(&str, &str); 18] = [
    ("5\r\n12345\r\n4\r\n6789\r\n0\r\n\r\n", "<keep 123456789>."),
    ("5;x=y\r\n12345\r\n00\r\nA: b\nC\n\nG", "<keep 12345>"),
    ("0000000000000001\r\na\r\n0\r\n\r\n", "<keep a>."),
    ("1", "<keep "),
    ("g\r\n", "<keep BadChunk."),
    ("\r\n", "<keep BadChunk."),
    ("1\n", "<keep BadChunk."),
    ("10000000000000000\r\n", "<keep BadChunk."),
    ("1\r\na\r", "<keep a"),
    ("1\r\na\rb", "<keep aBadChunk."),
    ("1\r\nab", "<keep a"),
    ("1\r\na\n\n", "<keep aBadChunk."),
    ("1\r\nab\r\n0\r\n\r\n", "<keep aBadChunk"),
    ("FFFFFFFFFFFFFFFF\r\n", "<keep BodyTooLong."),
    ("40000001\r\n", "<keep BodyTooLong."),
    ("40000000\r\n", "<keep "),
    ("1\r\na\r\n40000000\r\n", "<keep aBodyTooLong."),
    ("1\r\na\r\n3fffffff\r\n", "<keep a"),
];

// Of two faults the first in their order is told. A head has 62 bytes and 2 fields here, and a body 9 bytes.
const FIRST_FAULTS: [(&str, &str); 8] = [
    (
        "x\nA:\nA:\nA:\nA:\nA:\nA:\nA:\nA:\nA:\nA:\nA:\nA:\nA:\nA:\nA:\nA:\nA:\nA:\nA:\nA:\n\n",
        "HeadTooLong.",
    ),
    ("x\nA:\nA:\nA:\n\n", "TooManyFields."),
    ("x\nTransfer-Encoding: gzip\n\n", "BadHead."),
    (
        "PUT / HTTP/1.1\nContent-Length: 10\nTransfer-Encoding: deflate\n\n",
        "BadCoding.",
    ),
    (
        "PUT / HTTP/1.1\nContent-Length: 10\nTransfer-Encoding: chunked\n\n",
        "BothLengths.",
    ),
    (
        "PUT / HTTP/1.1\nContent-Length: 10\nContent-Length: 11\n\n",
        "BadLength.",
    ),
    (
        "PUT / HTTP/1.1\nContent-Length: 10\nContent-Length: 10\n\n",
        "BodyTooLong.",
    ),
    (
        "PUT / HTTP/1.1\nContent-Length: 9\nContent-Length: 9\n\n",
        "<keep ",
    ),
];

// A head has 20 bytes and 1 field here, a body 9 bytes, and a connection 2 requests.
const SMALL: [(&str, &str); 9] = [
    ("G / HTTP/1.1\nA:\n\n", "<keep >."),
    ("G / HTTP/1.1\nA:\nB:\n\n", "TooManyFields."),
    ("\n\n\n\n\n\nG / HTTP/1.1\n\n", "<keep >."),
    (
        "G / HTTP/1.1\n\nG / HTTP/1.1\n\nG / HTTP/1.1\n\n",
        "<keep ><close >",
    ),
    ("G / HTTP/1.1\n\nG / HTTP/1.1\n\n\n", "<keep ><close >."),
    ("xxxxxxxxxxxxxxxxxxx", ""),
    ("xxxxxxxxxxxxxxxxxxxx", "HeadTooLong."),
    ("\r\n\r\n\r\n\r\n\r\n\r\n\r\n\r\n\r\n\r", "."),
    ("\r\n\r\n\r\n\r\n\r\n\r\n\r\n\r\n\r\n\r\n", "HeadTooLong."),
];

const CHUNKED: &str = "PUT /a HTTP/1.1\r\nTransfer-Encoding: chunked\r\n\r\n";

// The same, and what the last chunk line, or the trailer, begins with.
const CHUNK_LINE: &str = "PUT /a HTTP/1.1\r\nTransfer-Encoding: chunked\r\n\r\n0;";

const TRAILER: &str = "PUT /a HTTP/1.1\r\nTransfer-Encoding: chunked\r\n\r\n0\r\n";

// A front, a part so many times, an end, and what is told: the usual limits of heads, fields, chunk lines and trailers.
const LONG: [(&str, &str, usize, &str, &str); 10] = [
    ("G / HTTP/1.1\n", "A:\n", 100, "\n", "<keep >."),
    ("G / HTTP/1.1\n", "A:\n", 101, "\n", "TooManyFields."),
    ("G / HTTP/1.1\nA: ", "x", 32_750, "\n\n", "<keep >."),
    ("G / HTTP/1.1\nA: ", "x", 32_751, "\n\n", "HeadTooLong."),
    (CHUNK_LINE, "x", 252, "\r\n\r\n", "<keep >."),
    (CHUNK_LINE, "x", 253, "", "<keep "),
    (CHUNK_LINE, "x", 254, "", "<keep BadChunk."),
    (TRAILER, "x", 32_766, "\n\n", "<keep >."),
    (TRAILER, "x", 32_767, "", "<keep "),
    (TRAILER, "x", 32_767, "\n", "<keep BadChunk."),
];

pub fn report_cases(rt: &(impl Print + AllocGlobal)) -> io::Result<bool> {
    let alloc = rt.alloc();
    let heads = report(
        rt,
        "heads_end_at_their_empty_line",
        try_rows(alloc, &Limits::usual(), &HEADS),
    )?;
    let bodies = report(rt, "fields_say_how_a_body_is_cut", try_bodies(alloc))?;
    let chunks = report(rt, "chunks_and_a_trailer_are_a_body", try_chunks(alloc))?;
    let faults = report(
        rt,
        "of_two_faults_the_first_is_told",
        try_first_faults(alloc),
    )?;
    let limits = report(rt, "limits_are_met_to_the_byte", try_limits(alloc))?;
    let parts = report(rt, "a_head_has_its_parts", try_parts(alloc))?;
    let copies = report(rt, "a_copy_of_a_framer_reads_on", try_copies(alloc))?;
    Ok(heads && bodies && chunks && faults && limits && parts && copies)
}

// The text is told so, however it is cut.
fn try_text(
    alloc: Global,
    limits: &Limits,
    row: usize,
    text: &str,
    wanted: &str,
) -> Result<(), Failure>
    requires { IsAllowed limits.now }
{
    for size in [1, 7, 65_536] {
        let told = events(alloc, limits, text.as_bytes(), size)?;
        expect(row, told.as_slice() == wanted.as_bytes())?;
    }
    Ok(())
}

fn try_copies(alloc: Global) -> Result<(), Failure> {
    for (row, (text, wanted)) in HEADS.iter().enumerate() {
        let told = events_by_copy(alloc, &Limits::usual(), text.as_bytes())?;
        expect(row, told.as_slice() == wanted.as_bytes())?;
    }
    Ok(())
}

fn try_rows(alloc: Global, limits: &Limits, rows: &[(&str, &str)]) -> Result<(), Failure>
    requires { IsAllowed limits.now }
{
    for (row, (text, wanted)) in rows.iter().enumerate() {
        try_text(alloc, limits, row, text, wanted)?;
    }
    Ok(())
}

fn try_bodies(alloc: Global) -> Result<(), Failure> {
    for (row, (fields, body, wanted)) in BODIES.iter().enumerate() {
        let text = format!(in alloc; "PUT /a HTTP/1.1\r\n{fields}\r\n\r\n{body}")?;
        try_text(alloc, &Limits::usual(), row, &text, wanted)?;
    }
    Ok(())
}

fn try_chunks(alloc: Global) -> Result<(), Failure> {
    for (row, (body, wanted)) in CHUNKS.iter().enumerate() {
        let text = format!(in alloc; "{CHUNKED}{body}")?;
        try_text(alloc, &Limits::usual(), row, &text, wanted)?;
    }
    Ok(())
}

fn try_first_faults(alloc: Global) -> Result<(), Failure> {
    let limits = Limits {
        head: 62,
        fields: 2,
        body: 9,
        ..Limits::usual()
    };
    try_rows(alloc, &limits, &FIRST_FAULTS)
}

// A front, a part that many times, and an end.
fn padded(
    alloc: Global,
    front: &str,
    part: &str,
    count: usize,
    end: &str,
) -> Result<String, AllocError> {
    let mut text = String::from_str(alloc, front)?;
    for _ in 0..count {
        text.push_str(part)?;
    }
    text.push_str(end)?;
    Ok(text)
}

fn try_limits(alloc: Global) -> Result<(), Failure> {
    for (row, (front, part, count, end, wanted)) in LONG.iter().enumerate() {
        let text = padded(alloc, front, part, *count, end)?;
        try_text(alloc, &Limits::usual(), row, &text, wanted)?;
    }
    let small = Limits {
        head: 20,
        fields: 1,
        body: 9,
        json: 1,
        requests: 2,
    };
    try_rows(alloc, &small, &SMALL)
}

fn try_parts(alloc: Global) -> Result<(), Failure> {
    let mut framer = Framer::new(alloc, &Limits::usual())?;
    let text = b"POST /a?b HTTP/1.1\r\nHost: h\r\nX-y:  1 \r\nx-Y: 2\r\n\r\n";
    let Taken::Head { taken } = framer.feed(text) else {
        return Err(Failure::Row(0));
    };
    expect(1, taken == text.len())?;
    expect(2, framer.method() == b"POST".as_slice())?;
    expect(3, framer.target() == b"/a?b".as_slice())?;
    expect(4, framer.minor() == 1)?;
    expect(5, framer.field(b"X-Y") == Some(b"1".as_slice()))?;
    expect(6, framer.field(b"Accept").is_none())
}
