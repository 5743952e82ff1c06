//! Where the next delimiter is, byte by byte.
ghost use Rattle.std.specs.Prelude.{◌≡◌, ℕ, ◌+◌, ◌<◌, ◌≤◌, ◌++◌, List, [], ◌∷◌, ◌≢◌, length, take, IfOk, vec_len};
ghost use Rattle.std.specs.List.{AllByRecursion};

use crate::mark::{Mark, Sought};
use memchr::memchr;
use std::alloc::{AllocError, Global};

pub const CR: u8 = b'\r';

pub const LF: u8 = b'\n';

pub const DASH: u8 = b'-';

/// Seeks a delimiter. It holds back the bytes that may belong to one.
#[derive(Drop)]
pub(crate) struct Seeker {
    /// CR LF, `--`, the boundary, and the byte behind it that was held last.
    text: Vec<u8>,
    held: usize,
    /// How many of the bytes that were held are content.
    given: usize,
    ghost some: { 4 < vec_len text },
    ghost held_in: { held ≤ vec_len text },
    ghost given_in: { given ≤ vec_len text },
}

impl Seeker {
    ghost use Rattle.std.specs.Prelude.{if◌then◌else◌, ◌==◌};
    ghost use Rattle.gcs_multipart.specs.Delimiter.{IsBoundary};
    ghost use Rattle.gcs_multipart.specs.Seek.{HasSeen, HoldsFew, IsFor, Seeks, Next};
    ghost use Rattle.gcs_multipart.specs.declared.mark.Sought.TheVariants.{Given, Passed};

    /// A seeker behind a CR LF.
    pub(crate) fn new(alloc: Global, boundary: &[u8]) -> Result<Seeker, AllocError>
        ensures { IfOk result (λ s. Seeks s boundary.now (13 ∷ 10 ∷ []) []) }
    {
        let mut text = Vec::from_slice(alloc, b"\r\n--")?;
        text.extend_from_slice(boundary)?;
        text.push(0)?;
        Ok(Seeker {
            text,
            held: 2,
            given: 0,
        })
    }

    /// The same, in memory of its own.
    pub(crate) fn copy(&self) -> Result<Seeker, AllocError>
        ensures text { IfOk result (λ s. s.text.items ≡ self.now.text.items) }
        ensures held { IfOk result (λ s. s.held ≡ self.now.held) }
        ensures given { IfOk result (λ s. s.given ≡ self.now.given) }
    {
        Ok(Seeker {
            text: Vec::from_slice(*self.text.allocator(), &self.text)?,
            held: self.held,
            given: self.given,
        })
    }

    /// Begins a text.
    pub(crate) fn begin(&mut self)
        ensures { (boundary : List ℕ) → IsFor boundary self.old.text.items → Seeks self.new boundary [] [] }
    {
        self.held = 0;
    }

    /// The bytes that were held and are content.
    pub(crate) fn given(&self) -> &[u8]
        ensures { result.now ≡ take self.now.given self.now.text.items }
    {
        &self.text[..self.given]
    }

    /// How many bytes are held.
    pub(crate) fn held(&self) -> usize
        ensures { result ≡ self.now.held }
    {
        self.held
    }

    /// Takes the next byte.
    pub(crate) fn push(&mut self, byte: u8) -> Sought
        ensures next { (boundary text content : List ℕ) → IsBoundary boundary → Seeks self.old boundary text content
            → Next self.new boundary result byte text content }
        ensures few { HoldsFew self.new result }
    {
        let last = self.text.len() - 1;
        if self.held < last {
            if byte == self.text[self.held] {
                self.held += 1;
                return Sought::Held;
            }
            return self.restart(byte);
        }
        if self.held == last {
            if byte == CR || byte == DASH {
                self.text[last] = byte;
                self.held += 1;
                return Sought::Held;
            }
            return self.restart(byte);
        }
        if self.text[last] == CR {
            if byte == LF {
                return Sought::Found(Mark::Next);
            }
            return self.restart(byte);
        }
        if byte == DASH {
            return Sought::Found(Mark::Last);
        }
        self.restart(byte)
    }

    /// Takes bytes as long as the boundary is not whole, and answers how many. All but those that are held then are
    /// content.
    pub(crate) fn pass(&mut self, piece: &[u8]) -> usize
        ensures within { result ≤ length piece.now }
        ensures held { self.new.held ≤ self.old.held + result }
        ensures given { take self.new.given self.new.text.items ≡ take self.old.given self.old.text.items }
        ensures seen { (boundary text content : List ℕ) → Seeks self.old boundary text content
            → HasSeen self.new boundary (text ++ take result piece.now) }
    {
        let whole = self.text.len() - 1;
        let mut at = 0;
        while at < piece.len() && self.held < whole {
            let byte = piece[at];
            at += 1;
            if byte == self.text[self.held] {
                self.held += 1;
            } else if byte == CR {
                self.held = 1;
            } else {
                self.held = 0;
                at += plain_bytes(&piece[at..]);
            }
        }
        at
    }

    // The byte doesn't go on with what is held.
    fn restart(&mut self, byte: u8) -> Sought
        ensures text { self.new.text ≡ self.old.text }
        ensures given { self.new.given ≡ self.old.held }
        ensures held { self.new.held ≡ (if byte == 13 then 1 else 0) }
        ensures result { result ≡ (if byte == 13 then Given else Passed) }
    {
        self.given = self.held;
        if byte == CR {
            self.held = 1;
            return Sought::Given;
        }
        self.held = 0;
        Sought::Passed
    }
}

// How many bytes at the front are no CR.
fn plain_bytes(piece: &[u8]) -> usize
    ensures within { result ≤ length piece.now }
    ensures plain { AllByRecursion (λ b. b ≢ 13) (take result piece.now) }
{
    memchr(CR, piece).unwrap_or(piece.len())
}
