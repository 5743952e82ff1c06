//! A body with its head behind it, in one block of memory.
ghost use Rattle.std.specs.Prelude.{◌≡◌, ◌≤◌, ◌++◌, ◌-◌, length, min, take, drop, vec_len};

use crate::copying::copy_both;
use std::marker::Model;

/// A text whose head tells the length of its body: so the body is written first and the head behind it, and it is given out
/// head first. Contracts see the text as it is given out.
#[derive(Drop)]
pub struct Turned {
    bytes: Vec<u8>,
    size: usize,
}

impl Model for Turned {
    ghost use Rattle.std.specs.Prelude.{◌≤◌, ◌++◌, ℕ, List, take, drop, vec_len};

    ghost Value = { List ℕ };

    ghost view = { λ t. drop t.size t.bytes.items ++ take t.size t.bytes.items };

    ghost invariant = { λ t. t.size ≤ vec_len t.bytes };
}

impl Turned {
    /// The text whose body has so many bytes, with the head behind it.
    pub fn new(bytes: Vec<u8>, size: usize) -> Turned
        requires { size ≤ vec_len bytes }
        ensures { result ≡ drop size bytes.items ++ take size bytes.items }
    {
        Turned { bytes, size }
    }

    /// How many bytes.
    pub fn len(&self) -> u64
        ensures { result ≡ length self.now }
    {
        self.bytes.len() as u64
    }

    /// Writes the bytes from `at` on, as many as fit and are there, and tells how many.
    pub fn read(&self, at: u64, into: &mut [u8]) -> usize
        ensures count { result ≡ min (length into.old) (length self.now - at) }
        ensures bytes { into.new ≡ take result (drop at self.now) ++ drop result into.old }
    {
        copy_both(&self.bytes[self.size..], &self.bytes[..self.size], at, into)
    }
}
