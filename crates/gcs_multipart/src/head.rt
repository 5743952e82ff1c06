//! The lines of a part, up to the empty one.
ghost use Rattle.std.specs.Prelude.{◌≡◌, ℕ, ◌+◌, ◌<◌, ◌≤◌, ◌++◌, List, [], ◌∷◌, length, IfOk, vec_len};
ghost use Rattle.gcs_multipart.specs.Breaks.{scanned};

use crate::seek::{CR, LF};
use std::alloc::{AllocError, Global};

/// What the bytes end with.
#[derive(Clone, Copy)]
pub(crate) enum Break {
    Filled,
    /// A CR.
    Return,
    /// CR LF.
    Line,
    /// CR LF, then a CR.
    LineReturn,
}

/// The lines of a part so far.
#[derive(Drop)]
pub(crate) struct HeadText {
    bytes: Vec<u8>,
    filled: usize,
    place: Break,
    ghost filled_in: { filled ≤ vec_len bytes },
}

impl HeadText {
    ghost use Rattle.std.specs.Prelude.{IsTrue, ◌↔◌};
    ghost use Rattle.gcs_multipart.specs.Scan.{Scans, HeadNext, text_of};

    /// Room for so many bytes.
    pub(crate) fn new(alloc: Global, room: usize) -> Result<HeadText, AllocError>
        ensures room { IfOk result (λ h. vec_len h.bytes ≡ room) }
        ensures empty { IfOk result (λ h. h.filled ≡ 0) }
        ensures scans { IfOk result (λ h. Scans h []) }
    {
        let bytes = vec![in alloc; 0; room]?;
        Ok(HeadText {
            bytes,
            filled: 0,
            place: Break::Line,
        })
    }

    /// The same, in memory of its own.
    pub(crate) fn copy(&self) -> Result<HeadText, AllocError>
        ensures bytes { IfOk result (λ h. h.bytes.items ≡ self.now.bytes.items) }
        ensures room { IfOk result (λ h. vec_len h.bytes ≡ vec_len self.now.bytes) }
        ensures filled { IfOk result (λ h. h.filled ≡ self.now.filled) }
        ensures place { IfOk result (λ h. h.place ≡ self.now.place) }
    {
        Ok(HeadText {
            bytes: Vec::from_slice(*self.bytes.allocator(), &self.bytes)?,
            filled: self.filled,
            place: self.place,
        })
    }

    /// Begins the lines of a part.
    pub(crate) fn begin(&mut self)
        ensures room { vec_len self.new.bytes ≡ vec_len self.old.bytes }
        ensures empty { self.new.filled ≡ 0 }
        ensures scans { Scans self.new [] }
    {
        self.filled = 0;
        self.place = Break::Line;
    }

    /// The bytes of the lines.
    pub(crate) fn text(&self) -> &[u8]
        ensures { result.now ≡ text_of self.now }
    {
        &self.bytes[..self.filled]
    }

    pub(crate) fn is_full(&self) -> bool
        ensures { IsTrue result ↔ (self.now.filled ≡ vec_len self.now.bytes) }
    {
        self.filled == self.bytes.len()
    }

    /// Takes the next byte. True: it ends the empty line.
    pub(crate) fn push(&mut self, byte: u8) -> bool
        requires { self.old.filled < vec_len self.old.bytes }
        ensures text { text_of self.new ≡ text_of self.old ++ byte ∷ [] }
        ensures room { vec_len self.new.bytes ≡ vec_len self.old.bytes }
        ensures filled { self.new.filled ≡ self.old.filled + 1 }
        ensures next { (text : List ℕ) → Scans self.old text → HeadNext self.new result (text ++ byte ∷ []) }
    {
        self.bytes[self.filled] = byte;
        self.filled += 1;
        match break_with(self.place, byte) {
            None => true,
            Some(place) => {
                self.place = place;
                false
            }
        }
    }
}

// What the bytes end with, with one byte more. None: with an empty line.
fn break_with(place: Break, byte: u8) -> Option<Break>
    ensures { result ≡ scanned place byte }
{
    match place {
        Break::Return if byte == LF => Some(Break::Line),
        Break::Line if byte == CR => Some(Break::LineReturn),
        Break::Line => Some(Break::Filled),
        Break::LineReturn if byte == LF => None,
        _ if byte == CR => Some(Break::Return),
        _ => Some(Break::Filled),
    }
}
