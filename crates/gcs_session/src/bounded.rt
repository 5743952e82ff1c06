//! The bytes of a text that may have only so many.
ghost use Rattle.std.specs.Prelude.{◌≡◌, ◌≢◌, ◌≤◌, ◌<◌, ◌+◌, ◌++◌, [], length, nat_le, OnOk, Err};

use std::alloc::Global;

/// Why a text is not there.
#[derive(Clone, Copy, Debug, PartialEq, Eq)]
pub enum TextFault {
    TooLong,
    NoMemory,
}

/// The bytes of a text that comes, which may have at most so many.
#[derive(Drop)]
pub struct Bounded {
    most: u64,
    bytes: Vec<u8>,
}

impl Bounded {
    /// No bytes have come.
    pub fn new(alloc: Global, most: u64) -> Bounded
        ensures most { result.most ≡ most }
        ensures none { result.bytes.items ≡ [] }
    {
        Bounded {
            most,
            bytes: Vec::new(alloc),
        }
    }

    /// Takes more bytes. After `Err` the text is not there.
    pub fn add(&mut self, part: &[u8]) -> Result<(), TextFault>
        ensures most { self.new.most ≡ self.old.most }
        ensures added { OnOk result (self.new.bytes.items ≡ self.old.bytes.items ++ part.now) }
        ensures within { OnOk result (length self.old.bytes.items ≤ self.old.most → length (self.old.bytes.items ++ part.now) ≤ self.old.most) }
        ensures too_long { result ≡ Err TextFault.TooLong → self.old.most < length (self.old.bytes.items ++ part.now) }
    {
        if !self.has_room(part.len()) {
            return Err(TextFault::TooLong);
        }
        match self.bytes.extend_from_slice(part) {
            Ok(()) => Ok(()),
            Err(_) => Err(TextFault::NoMemory),
        }
    }

    /// Whether so many bytes more may come.
    pub fn has_room(&self, count: usize) -> bool
        ensures { result ≡ nat_le (length self.now.bytes.items + count) self.now.most }
    {
        match self.most.checked_sub(self.bytes.len() as u64) {
            Some(room) => count as u64 <= room,
            None => false,
        }
    }

    /// The bytes.
    pub fn into_bytes(self) -> Vec<u8>
        ensures { result.items ≡ self.bytes.items }
    {
        self.bytes
    }
}
