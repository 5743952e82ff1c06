//! The bytes that will be the next piece of a content.
ghost use Rattle.std.specs.Prelude.{◌≡◌, ◌≤◌, ◌<◌, ◌+◌, ◌++◌, [], length, vec_len, IfOk, MatchOption};

use std::alloc::{AllocError, Global};
use std::mem;

/// The most bytes that a piece of content has.
pub const PIECE: usize = 1_048_576;

/// Bytes that are fewer than a piece has.
#[derive(Drop)]
pub struct Filling {
    alloc: Global,
    bytes: Vec<u8>,
    /// How many bytes are still expected: memory for a piece of them is taken at once. Where nobody told, it is 0 up to the
    /// end of the first piece, and then a piece.
    expected: u64,
    ghost open: { vec_len bytes < 1048576 },
}

impl Filling {
    /// No bytes, of so many that are expected. Where more come, or fewer, it is as good.
    pub fn new(alloc: Global, expected: u64) -> Filling
        ensures { result.bytes.items ≡ [] }
    {
        Filling {
            alloc,
            bytes: Vec::new(alloc),
            expected,
        }
    }

    /// How many bytes are wanting to a whole piece.
    pub fn room(&self) -> usize
        ensures some { 0 < result }
        ensures whole { length self.now.bytes.items + result ≡ 1048576 }
    {
        PIECE - self.bytes.len()
    }

    /// Adds bytes, and gives the piece where it is whole. `Err`: no memory, and the bytes are given up.
    pub fn add(&mut self, part: &[u8]) -> Result<Option<Vec<u8>>, AllocError>
        requires { length self.old.bytes.items + length part.now ≤ 1048576 }
        ensures { IfOk result (λ whole. MatchOption whole (self.new.bytes.items ≡ self.old.bytes.items ++ part.now)
            (λ piece. (piece.items ≡ self.old.bytes.items ++ part.now) × (length piece.items ≡ 1048576) × (self.new.bytes.items ≡ []))) }
    {
        let mut bytes = self.take();
        if bytes.is_empty() {
            bytes.reserve_exact(self.expected.min(PIECE as u64) as usize)?;
        }
        self.expected = self.expected.saturating_sub(part.len() as u64);
        bytes.extend_from_slice(part)?;
        if bytes.len() < PIECE {
            self.bytes = bytes;
            return Ok(None);
        }
        if self.expected == 0 {
            self.expected = PIECE as u64;
        }
        Ok(Some(bytes))
    }

    /// Takes the bytes out.
    pub fn take(&mut self) -> Vec<u8>
        ensures bytes { result.items ≡ self.old.bytes.items }
        ensures few { length result.items < 1048576 }
        ensures rest { self.new.bytes.items ≡ [] }
    {
        mem::replace(&mut self.bytes, Vec::new(self.alloc))
    }
}
