//! Each source, sink and clock once, through its trait.
use crate::report::{Failure, expect, report};
use gcs_io::{
    Clock, Failed, ListClock, MemSink, MemSource, Sink, Source, StdSink, StdSource, SystemClock,
};
use std::alloc::{AllocError, Global};
use std::io;
use std::io::{Error, ErrorKind, Read, Write};
use std::rt::Clock as SystemTimes;
use std::time::Duration;

const SECONDS: u64 = 1_700_000_000;

// Reads of `ab`, nothing and `c`, of which the second fails: into how much room, and what they give.
const READS: [(usize, Option<&str>); 6] = [
    (1, Some("a")),
    (9, None),
    (9, Some("b")),
    (0, Some("")),
    (9, Some("c")),
    (9, Some("")),
];

// Writes to a sink with room for four bytes, of which the second fails, and how many bytes it takes.
const WRITES: [(&str, Option<usize>); 5] = [
    ("abc", Some(3)),
    ("d", None),
    ("de", Some(1)),
    ("e", None),
    ("", Some(0)),
];

pub fn report_cases(rt: &(impl Print + AllocGlobal + SystemTimes)) -> io::Result<bool> {
    let alloc = rt.alloc();
    let source = report(
        rt,
        "a_source_gives_its_pieces_one_after_the_other",
        try_source(alloc),
    )?;
    let sink = report(rt, "a_sink_fails_past_its_room", try_sink(alloc))?;
    let clock = report(rt, "a_clock_repeats_its_last_reading", try_clock(alloc))?;
    let std_ends = report(rt, "readers_and_writers_are_handed_on", try_std_ends(alloc))?;
    let machine = report(rt, "the_machine_tells_microseconds", try_machine(rt))?;
    Ok(source && sink && clock && std_ends && machine)
}

// One read into that much room, as its bytes; `None` where it fails.
fn read_bytes<S: Source>(
    alloc: Global,
    source: &mut S,
    room: usize,
) -> Result<Option<Vec<u8>>, AllocError> {
    let mut into = Vec::from_elem(alloc, 0, room)?;
    let Ok(count) = source.read(&mut into) else {
        return Ok(None);
    };
    into.truncate(count);
    Ok(Some(into))
}

fn is_read(found: &Option<Vec<u8>>, wanted: Option<&str>) -> bool {
    match (found, wanted) {
        (Some(bytes), Some(text)) => bytes.as_slice() == text.as_bytes(),
        (None, None) => true,
        _ => false,
    }
}

// How many bytes of a text a write takes; `None` where it fails.
fn write_text<K: Sink>(sink: &mut K, text: &str) -> Option<usize> {
    match sink.write(text.as_bytes()) {
        Ok(count) => Some(count),
        Err(Failed) => None,
    }
}

fn read_moment<C: Clock>(clock: &mut C) -> u64 {
    clock.now()
}

// A connection that its peer has broken.
#[derive(Drop)]
struct Broken;

impl Read for Broken {
    fn read(&mut self, _into: &mut [u8]) -> io::Result<usize> {
        Err(Error::from(ErrorKind::ConnectionReset))
    }
}

impl Write for Broken {
    fn write(&mut self, _from: &[u8]) -> io::Result<usize> {
        Err(Error::from(ErrorKind::BrokenPipe))
    }

    fn flush(&mut self) -> io::Result<()> {
        Ok(())
    }
}

// A clock that stands still, or can't be read.
#[derive(Drop)]
struct Stopped {
    since_1970: Option<Duration>,
}

impl SystemTimes for Stopped {
    fn monotonic(&self) -> io::Result<Duration> {
        Err(Error::from(ErrorKind::Unsupported))
    }

    fn since_1970(&self) -> io::Result<Duration> {
        self.since_1970.ok_or(Error::from(ErrorKind::Unsupported))
    }
}

// A source of `ab`, nothing and `c`, whose second read fails.
fn memory_source(alloc: Global) -> Result<MemSource, AllocError> {
    let pieces = vec![in alloc; b"ab".to_vec(alloc)?, Vec::new(alloc), b"c".to_vec(alloc)?]?;
    Ok(MemSource::new(pieces, vec![in alloc; 2]?))
}

fn try_source(alloc: Global) -> Result<(), Failure> {
    let mut source = memory_source(alloc)?;
    for (row, (room, wanted)) in READS.iter().enumerate() {
        expect(
            row,
            is_read(&read_bytes(alloc, &mut source, *room)?, *wanted),
        )?;
    }
    Ok(())
}

// A sink with room for four bytes, whose second write fails.
fn memory_sink(alloc: Global) -> Result<MemSink, AllocError> {
    MemSink::new(alloc, 4, vec![in alloc; 2]?)
}

fn try_sink(alloc: Global) -> Result<(), Failure> {
    let mut sink = memory_sink(alloc)?;
    for (row, (text, wanted)) in WRITES.iter().enumerate() {
        expect(row, write_text(&mut sink, text) == *wanted)?;
    }
    expect(WRITES.len(), sink.written() == b"abcd".as_slice())
}

fn list_clock(alloc: Global) -> Result<ListClock, AllocError> {
    Ok(ListClock::new(vec![in alloc; 7, 5]?))
}

fn try_clock(alloc: Global) -> Result<(), Failure> {
    let mut clock = list_clock(alloc)?;
    for (row, wanted) in [7, 5, 5].iter().enumerate() {
        expect(row, read_moment(&mut clock) == *wanted)?;
    }
    Ok(())
}

fn try_std_ends(alloc: Global) -> Result<(), Failure> {
    let text: &[u8] = b"abc";
    let mut source = StdSource::new(text);
    for (row, wanted) in ["ab", "c", ""].iter().enumerate() {
        expect(
            row,
            is_read(&read_bytes(alloc, &mut source, 2)?, Some(wanted)),
        )?;
    }
    let broken = read_bytes(alloc, &mut StdSource::new(Broken), 2)?;
    expect(3, broken.is_none())?;
    let mut sink = StdSink::new(Vec::new(alloc));
    expect(4, write_text(&mut sink, "abc") == Some(3))?;
    expect(5, write_text(&mut StdSink::new(Broken), "abc").is_none())
}

fn try_machine(rt: &impl SystemTimes) -> Result<(), Failure> {
    let mut stopped = SystemClock::new(Stopped {
        since_1970: Some(Duration::new(SECONDS, 1_999)),
    });
    expect(0, read_moment(&mut stopped) == SECONDS * 1_000_000 + 1)?;
    let mut broken = SystemClock::new(Stopped { since_1970: None });
    expect(1, read_moment(&mut broken) == 0)?;
    let mut real = SystemClock::new(rt);
    expect(2, read_moment(&mut real) > SECONDS * 1_000_000)
}
