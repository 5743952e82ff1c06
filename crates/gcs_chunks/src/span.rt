//! A part of a piece, of at least one byte, at its place in a content.
ghost use Rattle.std.specs.Prelude.{◌≡◌, ◌≤◌, ◌<◌, ◌+◌, ◌-◌, ◌^◌, drop, length, IfOk, IsTrue};
ghost use Rattle.std.specs.Arc.{arc_value};
ghost use Rattle.gcs_chunks.specs.Content.{bytes_of_piece, part_bytes, PieceLiesIn};

use crate::chunks::Chunks;
use crate::piece::Piece;
use std::alloc::AllocError;
use std::marker::Model;
use std::sync::Arc;

/// The bytes of a piece from `from` up to `to`. They end at `end` in their content.
#[derive(Drop)]
pub struct Span {
    piece: Arc<Piece>,
    from: u32,
    to: u32,
    end: u64,
}

impl Model for Span {
    ghost use Rattle.std.specs.Prelude.{◌≤◌, ◌<◌, ◌-◌, length};
    ghost use Rattle.std.specs.Arc.{arc_value};
    ghost use Rattle.gcs_chunks.specs.Content.{Placed};

    ghost Value = { Placed };

    ghost view = { λ s. record { part = record { chunk = arc_value s.piece; from = s.from; to = s.to }; end = s.end } };

    ghost invariant = { λ s. (s.from < s.to) × (s.to ≤ length (arc_value s.piece).bytes) × (s.to - s.from ≤ s.end) };
}

impl Span {
    /// The bytes of the piece from `from` up to `to`, behind so many others. `Err`: the piece is shared too often.
    #[tactic(auto, unfolding(crate::specs::Content::bytes_of_piece))]
    pub fn new(piece: &Arc<Piece>, from: usize, to: usize, before: u64) -> Result<Span, AllocError>
        requires order { from < to }
        requires within { to ≤ length (bytes_of_piece (arc_value piece.now)) }
        requires room { before + (to - from) < 2 ^ 63 }
        ensures { IfOk result (λ made. made ≡ record { part = record { chunk = arc_value piece.now; from = from; to = to }; end = before + (to - from) }) }
    {
        // A piece has at most `LONGEST_PIECE` bytes, so that its places fit 32 bits.
        let size = piece.len();
        prove!(to <= size);
        Ok(Span {
            piece: Arc::try_clone(piece)?,
            from: from as u32,
            to: to as u32,
            end: before + (to - from) as u64,
        })
    }

    /// How many bytes.
    pub fn len(&self) -> usize
        ensures size { result ≡ length (part_bytes self.now.part) }
        ensures places { result ≡ self.now.part.to - self.now.part.from }
        ensures some { 0 < result }
        ensures within { result ≤ self.now.end }
    {
        (self.to - self.from) as usize
    }

    /// Where the bytes end in the content.
    pub fn end(&self) -> u64
        ensures { result ≡ self.now.end }
    {
        self.end
    }

    /// The bytes behind the first `skip`.
    pub fn bytes_from<'a>(&'a self, chunks: &'a Chunks, skip: usize) -> &'a [u8]
        requires skip { skip < self.now.part.to - self.now.part.from }
        requires lies { PieceLiesIn chunks.now self.now.part.chunk }
        ensures { result.now ≡ drop skip (part_bytes self.now.part) }
    {
        let (from, to) = (self.from as usize, self.to as usize);
        &self.piece.bytes(chunks)[from + skip..to]
    }

    /// Whether both are the same places of one published piece. It reads no byte.
    #[tactic(auto, unfolding(crate::specs::Content::bytes_of_piece))]
    pub fn is_same(&self, other: &Span, chunks: &Chunks) -> bool
        requires mine { PieceLiesIn chunks.now self.now.part.chunk }
        requires theirs { PieceLiesIn chunks.now other.now.part.chunk }
        ensures { IsTrue result → part_bytes self.now.part ≡ part_bytes other.now.part }
    {
        if self.from != other.from || self.to != other.to {
            return false;
        }
        self.piece.is_same(&other.piece, chunks)
    }

    /// The span without its first `skip` bytes, behind so many others. `Err`: the piece is shared too often.
    pub fn cut(&self, skip: usize, before: u64) -> Result<Span, AllocError>
        requires skip { skip < self.now.part.to - self.now.part.from }
        requires room { before + (self.now.part.to - self.now.part.from) < 2 ^ 63 + skip }
        ensures { IfOk result (λ made. made ≡ record { part = record self.now.part { from = self.now.part.from + skip }; end = before + (self.now.part.to - self.now.part.from) - skip }) }
    {
        let (from, to) = (self.from, self.to);
        Ok(Span {
            piece: Arc::try_clone(&self.piece)?,
            from: from + skip as u32,
            to,
            end: before + (to - from) as u64 - skip as u64,
        })
    }

    /// The same span. `Err`: the piece is shared too often.
    pub fn copy(&self) -> Result<Span, AllocError>
        ensures { IfOk result (λ made. made ≡ self.now) }
    {
        Ok(Span {
            piece: Arc::try_clone(&self.piece)?,
            from: self.from,
            to: self.to,
            end: self.end,
        })
    }
}
