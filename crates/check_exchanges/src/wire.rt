//! Both ends of a connection in memory: calls are counted, and one of them can fail.
use crate::course::Course;
use std::alloc::Global;
use std::io;
use std::io::{Error, ErrorKind, Read, Write};

/// A reader that gives bytes in pieces.
#[derive(Drop)]
pub struct Feed<'a> {
    rest: &'a [u8],
    next: usize,
    others: usize,
    failing: Option<u32>,
    pub calls: u32,
}

impl<'a> Feed<'a> {
    pub fn new(bytes: &'a [u8], course: Course) -> Feed<'a> {
        let (next, others) = course.cuts();
        let rest = match course {
            Course::EndingAt(place) => &bytes[..place.min(bytes.len())],
            _ => bytes,
        };
        Feed {
            rest,
            next,
            others,
            failing: course.failing_read(),
            calls: 0,
        }
    }
}

impl Read for Feed<'_> {
    fn read(&mut self, into: &mut [u8]) -> io::Result<usize> {
        self.calls = self.calls.saturating_add(1);
        if self.failing == Some(self.calls) {
            return Err(Error::from(ErrorKind::ConnectionReset));
        }
        let count = self.rest.len().min(self.next).min(into.len());
        let (piece, rest) = self.rest.split_at(count);
        into[..count].copy_from_slice(piece);
        self.rest = rest;
        self.next = self.others;
        Ok(count)
    }
}

/// A writer that keeps what is written, as far as there is room.
#[derive(Drop)]
pub struct Tray {
    pub written: Vec<u8>,
    room: usize,
    failing: Option<u32>,
    pub calls: u32,
}

impl Tray {
    pub fn new(alloc: Global, course: Course) -> Tray {
        Tray {
            written: Vec::new(alloc),
            room: course.room(),
            failing: course.failing_write(),
            calls: 0,
        }
    }
}

impl Write for Tray {
    fn write(&mut self, from: &[u8]) -> io::Result<usize> {
        self.calls = self.calls.saturating_add(1);
        if self.failing == Some(self.calls) {
            return Err(Error::from(ErrorKind::BrokenPipe));
        }
        let count = self.room.saturating_sub(self.written.len()).min(from.len());
        self.written.extend_from_slice(&from[..count])?;
        Ok(count)
    }

    fn flush(&mut self) -> io::Result<()> {
        Ok(())
    }
}
