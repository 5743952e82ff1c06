//! The lines of a file of exchanges.
use crate::limits::Limit;
use gcs_session::SessionEnd;
use std::alloc::AllocError;

/// A line of a file.
#[derive(Clone, Copy, Debug)]
pub enum Line<'a> {
    /// `# TEXT`, and an empty line: for readers alone.
    Remark,
    /// `== NAME`: a row begins.
    Name(&'a str),
    /// Any other line: a part of the row that has begun.
    Part(Part<'a>),
}

/// A part of a row.
#[derive(Clone, Copy, Debug)]
pub enum Part<'a> {
    /// `--`: a further connection over the same store begins.
    Further,
    /// `@ N`: a reading of the connection's clock, in microseconds since 1970.
    Reading(u64),
    /// `>`: bytes that the client sends.
    Sent(Bytes<'a>),
    /// `<`: bytes that must be written.
    Wanted(Bytes<'a>),
    /// `! END`: how the connection must end.
    End(SessionEnd),
    /// `limit NAME N`: a number of the row's limits.
    Limit(Limit, u64),
    /// `entries N`: how many entries the histories must have together behind the last connection.
    Entries(usize),
}

/// Bytes, as a line tells them behind its mark.
#[derive(Clone, Copy, Debug)]
pub enum Bytes<'a> {
    /// ` TEXT`, or nothing at all: the text and CR LF.
    Line(&'a str),
    /// `| TEXT`: the text alone.
    Text(&'a str),
    /// `* N TEXT`: the text so many times.
    Repeated(u32, &'a str),
    /// `x 0d 0a`: bytes in hexadecimal.
    Hex(&'a str),
}

impl<'a> Line<'a> {
    /// Reads a line, which has no line's end. `None`: it is none.
    pub fn read(text: &'a str) -> Option<Line<'a>> {
        if text.is_empty() || text.starts_with("#") {
            return Some(Line::Remark);
        }
        match text.strip_prefix("== ") {
            Some(name) => Some(Line::Name(name)),
            None => Part::read(text).map(|part| Line::Part(part)),
        }
    }
}

impl<'a> Part<'a> {
    fn read(text: &'a str) -> Option<Part<'a>> {
        if let Some(rest) = text.strip_prefix(">") {
            return Bytes::read(rest).map(|bytes| Part::Sent(bytes));
        }
        if let Some(rest) = text.strip_prefix("<") {
            return Bytes::read(rest).map(|bytes| Part::Wanted(bytes));
        }
        if text == "--" {
            return Some(Part::Further);
        }
        let (mark, rest) = text.split_once(" ")?;
        match mark {
            "--" => Some(Part::Further),
            "@" => rest.parse().ok().map(|moment| Part::Reading(moment)),
            "!" => read_end(rest).map(|end| Part::End(end)),
            "limit" => read_limit(rest),
            "entries" => rest.parse().ok().map(|count| Part::Entries(count)),
            _ => None,
        }
    }
}

fn read_end(text: &str) -> Option<SessionEnd> {
    match text {
        "Ended" => Some(SessionEnd::Ended),
        "Closed" => Some(SessionEnd::Closed),
        "Cut" => Some(SessionEnd::Cut),
        _ => None,
    }
}

fn read_limit<'a>(text: &str) -> Option<Part<'a>> {
    let (name, number) = text.split_once(" ")?;
    let limit = match name {
        "head" => Limit::Head,
        "fields" => Limit::Fields,
        "body" => Limit::Body,
        "json" => Limit::Json,
        "requests" => Limit::Requests,
        _ => return None,
    };
    Some(Part::Limit(limit, number.parse().ok()?))
}

impl<'a> Bytes<'a> {
    fn read(text: &'a str) -> Option<Bytes<'a>> {
        if text.is_empty() {
            return Some(Bytes::Line(text));
        }
        let (mark, text) = text.split_once(" ")?;
        match mark {
            "" => Some(Bytes::Line(text)),
            "|" => Some(Bytes::Text(text)),
            "*" => {
                let (count, text) = text.split_once(" ")?;
                Some(Bytes::Repeated(count.parse().ok()?, text))
            }
            "x" if text.split(' ').all(|digits| read_byte(digits).is_some()) => {
                Some(Bytes::Hex(text))
            }
            _ => None,
        }
    }

    /// Adds the bytes to others.
    pub fn add_to(&self, bytes: &mut Vec<u8>) -> Result<(), AllocError> {
        match *self {
            Bytes::Line(text) => {
                bytes.extend_from_slice(text.as_bytes())?;
                bytes.extend_from_slice(b"\r\n")
            }
            Bytes::Text(text) => bytes.extend_from_slice(text.as_bytes()),
            Bytes::Repeated(count, text) => {
                for _ in 0..count {
                    bytes.extend_from_slice(text.as_bytes())?;
                }
                Ok(())
            }
            Bytes::Hex(text) => {
                for byte in text.split(' ').filter_map(|digits| read_byte(digits)) {
                    bytes.push(byte)?;
                }
                Ok(())
            }
        }
    }
}

// A byte in two hexadecimal digits.
fn read_byte(digits: &str) -> Option<u8> {
    if digits.len() == 2 {
        u8::from_str_radix(digits, 16).ok()
    } else {
        None
    }
}
