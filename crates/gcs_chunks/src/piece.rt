//! A piece of content, which several contents share.
ghost use Rattle.std.specs.Prelude.{◌≡◌, ◌≤◌, IfOk, IsTrue, length, [], ◌∷◌};
ghost use Rattle.std.specs.Arc.{arc_value};
ghost use Rattle.gcs_chunks.specs.Content.{bytes_of_piece, ChunksValue, PieceLiesIn};

use crate::chunks::Chunks;
use boxcar::Pushed;
use std::alloc::{AllocError, Global};
use std::marker::Model;
use std::sync::Arc;

/// The most bytes of a piece.
pub const LONGEST_PIECE: usize = 1_048_576;

/// Where the bytes of a piece are.
#[derive(Drop)]
pub(crate) enum Kept {
    Own(Vec<u8>),
    Published(Pushed<Vec<u8>>),
}

/// 1 to `LONGEST_PIECE` bytes that never change. Contracts see an opaque value; `bytes_of_piece` gives its bytes.
#[derive(Drop)]
pub struct Piece {
    kept: Kept,
    len: u32,
}

impl Model for Piece {
    ghost use Rattle.std.specs.Prelude.{◌≡◌, ◌≤◌, length};
    ghost use Rattle.gcs_chunks.specs.Content.{Chunk};

    ghost Value = { Chunk };

    ghost use Rattle.gcs_chunks.specs.Kept.{chunk_of};

    ghost view = { λ p. chunk_of p.kept };

    ghost invariant = { λ p. (p.len ≡ length (chunk_of p.kept).bytes) × (1 ≤ p.len) × (p.len ≤ 1048576) };
}

impl Piece {
    /// A piece that holds these bytes itself. `Err`: no memory, and the bytes are given up.
    #[tactic(auto, unfolding(crate::specs::Content::bytes_of_piece, crate::specs::Content::PieceLiesIn))]
    pub fn own(alloc: Global, bytes: Vec<u8>) -> Result<Arc<Piece>, AllocError>
        requires least { 1 ≤ length bytes.items }
        requires most { length bytes.items ≤ LONGEST_PIECE }
        ensures bytes { IfOk result (λ piece. bytes_of_piece (arc_value piece) ≡ bytes.items) }
        ensures lies { IfOk result (λ piece. (chunks : ChunksValue) → PieceLiesIn chunks (arc_value piece)) }
    {
        let len = bytes.len() as u32;
        let piece = Piece {
            kept: Kept::Own(bytes),
            len,
        };
        Ok(Arc::new(alloc, piece)?)
    }

    // A piece whose bytes were published.
    pub(crate) fn published(pushed: Pushed<Vec<u8>>, len: u32) -> Piece
        requires len { len ≡ length pushed.value.items }
        requires least { 1 ≤ len }
        requires most { len ≤ 1048576 }
        ensures bytes { result.bytes ≡ pushed.value.items }
        ensures places { result.places ≡ (pushed.bucket, pushed.row) ∷ [] }
    {
        Piece {
            kept: Kept::Published(pushed),
            len,
        }
    }

    /// How many bytes.
    #[tactic(auto, unfolding(crate::specs::Content::bytes_of_piece))]
    pub fn len(&self) -> usize
        ensures len { result ≡ length (bytes_of_piece self.now) }
        ensures least { 1 ≤ result }
        ensures most { result ≤ LONGEST_PIECE }
    {
        self.len as usize
    }

    /// The bytes, at any time and in any thread. It takes no runtime, so that it waits for nobody.
    #[tactic(auto, unfolding(crate::specs::Content::bytes_of_piece, crate::specs::Content::PieceLiesIn))]
    pub fn bytes<'a>(&'a self, chunks: &'a Chunks) -> &'a [u8]
        requires lies { PieceLiesIn chunks.now self.now }
        ensures bytes { result.now ≡ bytes_of_piece self.now }
    {
        match &self.kept {
            Kept::Own(bytes) => bytes.as_slice(),
            Kept::Published(pushed) => chunks.list.value(pushed).as_slice(),
        }
    }

    /// Whether both are one published piece. It reads no byte.
    #[tactic(auto, unfolding(crate::specs::Content::bytes_of_piece, crate::specs::Content::PieceLiesIn))]
    pub(crate) fn is_same(&self, other: &Piece, chunks: &Chunks) -> bool
        requires mine { PieceLiesIn chunks.now self.now }
        requires theirs { PieceLiesIn chunks.now other.now }
        ensures { IsTrue result → bytes_of_piece self.now ≡ bytes_of_piece other.now }
    {
        match (&self.kept, &other.kept) {
            (Kept::Published(a), Kept::Published(b)) if a.index() == b.index() => {
                chunks.list.agrees(a, b);
                true
            }
            _ => false,
        }
    }
}
