//! The rows of a file of exchanges.
use crate::limits::RowLimits;
use crate::line::{Line, Part};
use gcs_session::SessionEnd;
use std::alloc::{AllocError, Global};

/// A row: connections over one store, which are served one after the other.
#[derive(Drop)]
pub struct Row<'a> {
    pub name: &'a str,
    pub limits: RowLimits,
    /// Some limit is not the usual one.
    pub is_limited: bool,
    pub connections: Vec<Connection>,
    /// How many entries the histories must have together, where that is asked.
    pub entries: Option<usize>,
    /// The number of its first line that is no line of a row, from 1.
    pub bad_line: Option<usize>,
}

/// What a client sends on one connection, and what must come of it.
#[derive(Drop)]
pub struct Connection {
    /// What the clock gives, in microseconds since 1970, the last one again and again.
    pub readings: Vec<u64>,
    pub sent: Vec<u8>,
    pub wanted: Vec<u8>,
    pub end: SessionEnd,
}

impl Connection {
    fn new(alloc: Global) -> Connection {
        Connection {
            readings: Vec::new(alloc),
            sent: Vec::new(alloc),
            wanted: Vec::new(alloc),
            end: SessionEnd::Ended,
        }
    }
}

impl<'a> Row<'a> {
    fn new(alloc: Global, name: &'a str) -> Result<Row<'a>, AllocError> {
        Ok(Row {
            name,
            limits: RowLimits::usual(),
            is_limited: false,
            connections: vec![in alloc; Connection::new(alloc)]?,
            entries: None,
            bad_line: None,
        })
    }

    /// The bytes of its longest input.
    pub fn longest_input(&self) -> usize {
        let mut longest = 0;
        for connection in &self.connections {
            longest = connection.sent.len().max(longest);
        }
        longest
    }

    // Adds a part, and answers whether it can stand in a row.
    fn add(&mut self, alloc: Global, part: Part<'a>) -> Result<bool, AllocError> {
        let Some(connection) = self.connections.last_mut() else {
            return Ok(false);
        };
        match part {
            Part::Further => self.connections.push(Connection::new(alloc))?,
            Part::Reading(moment) => connection.readings.push(moment)?,
            Part::Sent(bytes) => bytes.add_to(&mut connection.sent)?,
            Part::Wanted(bytes) => bytes.add_to(&mut connection.wanted)?,
            Part::End(end) => connection.end = end,
            Part::Entries(count) => self.entries = Some(count),
            Part::Limit(limit, number) => {
                let Some(limits) = self.limits.with(limit, number) else {
                    return Ok(false);
                };
                self.limits = limits;
                self.is_limited = true;
            }
        }
        Ok(true)
    }
}

/// Reads the rows of a file's text.
pub fn read_rows<'a>(alloc: Global, text: &'a str) -> Result<Vec<Row<'a>>, AllocError> {
    let mut reader = RowReader {
        alloc,
        rows: Vec::new(alloc),
        lines: 0,
    };
    for line in text.lines() {
        reader.take(line)?;
    }
    Ok(reader.rows)
}

// The rows of the lines so far.
#[derive(Drop)]
struct RowReader<'a> {
    alloc: Global,
    rows: Vec<Row<'a>>,
    lines: usize,
}

impl<'a> RowReader<'a> {
    fn take(&mut self, text: &'a str) -> Result<(), AllocError> {
        self.lines = self.lines.saturating_add(1);
        match Line::read(text) {
            Some(Line::Remark) => Ok(()),
            Some(Line::Name(name)) => self.begin(name),
            Some(Line::Part(part)) => self.add(Some(part)),
            None => self.add(None),
        }
    }

    fn begin(&mut self, name: &'a str) -> Result<(), AllocError> {
        self.rows.push(Row::new(self.alloc, name)?)?;
        Ok(())
    }

    // A part before the first row is a fault, for which a row stands.
    fn add(&mut self, part: Option<Part<'a>>) -> Result<(), AllocError> {
        let begun = !self.rows.is_empty();
        if !begun {
            self.begin("before the first row")?;
        }
        let Some(row) = self.rows.last_mut() else {
            return Ok(());
        };
        let good = match part {
            Some(part) => row.add(self.alloc, part)? && begun,
            None => false,
        };
        if !good && row.bad_line.is_none() {
            row.bad_line = Some(self.lines);
        }
        Ok(())
    }
}
