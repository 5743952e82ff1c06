//! What is told of a body that comes in pieces, and whether it is what must be told.
ghost use Rattle.std.specs.Prelude.{◌≤◌, length};
ghost use Rattle.gcs_multipart.specs.Delimiter.{IsBoundary};

use gcs_multipart::{PartTaken, Parts};
use std::alloc::{AllocError, Global};
use std::fmt::{self, Display, Formatter, Write};

/// What was told of a body.
#[derive(Drop)]
pub struct Telling {
    /// The events as one line: `<` for the lines of a part, with `=` and its type where it has one, and `|`; its content;
    /// `>` where it ends and another one follows; `!` for the last delimiter; `?` from lines on that are too long; and
    /// at the end `.` where the body is whole.
    pub line: Vec<u8>,
    /// The most bytes that were held back behind a call.
    pub most_held: usize,
    /// The bytes that are held back at the end.
    pub held_back: usize,
}

/// Reads a body in pieces of this size.
pub fn tell(alloc: Global, boundary: &[u8], body: &[u8], size: usize) -> Result<Telling, AllocError>
    requires { IsBoundary boundary.now }
{
    let mut telling = Telling::new(alloc);
    let mut parts = Parts::new(alloc, boundary)?;
    telling.read(&mut parts, body, size)?;
    telling.end(&parts)?;
    Ok(telling)
}

/// Reads a body as far as this place, and the rest by a copy of the reader.
pub fn tell_by_copy(
    alloc: Global,
    boundary: &[u8],
    body: &[u8],
    place: usize,
) -> Result<Telling, AllocError>
    requires boundary { IsBoundary boundary.now }
    requires within { place ≤ length body.now }
{
    let mut telling = Telling::new(alloc);
    let mut parts = Parts::new(alloc, boundary)?;
    telling.read(&mut parts, &body[..place], place)?;
    let mut copied = parts.copy()?;
    telling.read(&mut copied, &body[place..], body.len())?;
    telling.end(&copied)?;
    Ok(telling)
}

impl Telling {
    fn new(alloc: Global) -> Telling {
        Telling {
            line: Vec::new(alloc),
            most_held: 0,
            held_back: 0,
        }
    }

    fn read(&mut self, parts: &mut Parts, bytes: &[u8], size: usize) -> Result<(), AllocError> {
        let mut rest = bytes;
        // A call takes at least a byte.
        for _ in 0..bytes.len() {
            let piece = &rest[..size.min(rest.len())];
            let taken = self.take(parts, piece)?;
            rest = rest.get(taken..).unwrap_or(b"");
        }
        Ok(())
    }

    fn end(&mut self, parts: &Parts) -> Result<(), AllocError> {
        if parts.is_over() {
            self.line.push(b'.')?;
        }
        Ok(())
    }

    // Feeds a piece, adds the event, and answers how many bytes were taken.
    fn take(&mut self, parts: &mut Parts, piece: &[u8]) -> Result<usize, AllocError> {
        let event = parts.feed(piece);
        self.held_back = parts.held_back();
        self.most_held = self.most_held.max(self.held_back);
        match event {
            PartTaken::More { taken } => Ok(taken),
            PartTaken::PartHead { taken } => {
                self.add_head(parts.content_type())?;
                Ok(taken)
            }
            PartTaken::Content { taken, from, to } => {
                self.line.extend_from_slice(parts.held())?;
                self.line
                    .extend_from_slice(piece.get(from..to).unwrap_or(b""))?;
                Ok(taken)
            }
            PartTaken::PartEnd { taken } => {
                self.line.push(b'>')?;
                Ok(taken)
            }
            PartTaken::Last { taken } => {
                self.line.push(b'!')?;
                Ok(taken)
            }
            PartTaken::BadPart { taken } => {
                self.add_fault()?;
                Ok(taken)
            }
        }
    }

    fn add_head(&mut self, content_type: Option<&[u8]>) -> Result<(), AllocError> {
        self.line.push(b'<')?;
        if let Some(text) = content_type {
            self.line.push(b'=')?;
            self.line.extend_from_slice(text)?;
        }
        self.line.push(b'|')?;
        Ok(())
    }

    // Each later call tells the fault again.
    fn add_fault(&mut self) -> Result<(), AllocError> {
        if self.line.last() != Some(&b'?') {
            self.line.push(b'?')?;
        }
        Ok(())
    }
}

/// What was told in place of what must be.
#[derive(Drop)]
pub struct Fault {
    /// The size of the pieces.
    pub size: usize,
    pub line: Vec<u8>,
}

impl Display for Fault {
    fn fmt<W: Write>(&self, f: &mut Formatter<W>) -> fmt::Result {
        let line = self.line.as_slice().escape_ascii();
        write!(f, "in pieces of {}: {line}", self.size)
    }
}

/// The fault of pieces of this size, if there is one: another line, or more bytes held back than a delimiter has.
pub fn fault_at(
    alloc: Global,
    boundary: &[u8],
    body: &[u8],
    wanted: &[u8],
    size: usize,
) -> Result<Option<Fault>, AllocError>
    requires { IsBoundary boundary.now }
{
    let telling = tell(alloc, boundary, body, size)?;
    // CR LF, two dashes, the boundary, and one byte of its mark.
    if telling.line.as_slice() == wanted && telling.most_held <= boundary.len().saturating_add(5) {
        return Ok(None);
    }
    Ok(Some(Fault {
        size,
        line: telling.line,
    }))
}
