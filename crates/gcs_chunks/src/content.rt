//! The bytes of an object or of a part of one, as spans of pieces.
ghost use Rattle.std.specs.Prelude.{◌≡◌, ◌≤◌, ◌<◌, ◌+◌, ◌-◌, ◌++◌, ◌^◌, ◌↔◌, ℕ, drop, length, min, slice_index_or, slice_range, take, IfOk, IsTrue, OnOk, OnErr};
ghost use Rattle.std.specs.Arc.{arc_value};
ghost use Rattle.gcs_chunks.specs.Content.{bytes_of, bytes_of_piece, joined, no_content, part_of, parts_bytes, parts_in, rest_of, rest_parts, AreEnds, ChunksValue, ContentLiesIn, PartsLieIn, PieceLiesIn, Placed};

use crate::chunks::Chunks;
use crate::piece::Piece;
use crate::span::Span;
use std::alloc::{AllocError, Global};
use std::marker::Model;
use std::sync::Arc;

/// The bytes of an object or of a part of one, fewer than 2^63.
///
/// Contracts see an opaque value; `bytes_of` gives its bytes. Contents of the same bytes can be different values.
#[derive(Drop)]
pub struct Content {
    alloc: Global,
    spans: Vec<Span>,
    len: u64,
}

impl Model for Content {
    ghost use Rattle.std.specs.Prelude.{◌≡◌, ◌^◌, ◌<◌, length};
    ghost use Rattle.gcs_chunks.specs.Content.{AreEnds, Whole, parts_bytes, parts_in};

    ghost Value = { Whole };

    ghost view = { λ c. record { parts = parts_in c.spans.items } };

    ghost invariant = { λ c. (c.len ≡ length (parts_bytes (parts_in c.spans.items))) × (c.len < 2 ^ 63) × AreEnds 0 c.spans.items };
}

impl Content {
    /// The content without bytes.
    #[tactic(auto, using(crate::proofs::Words::lies_nothing), unfolding(crate::specs::Content::no_content))]
    pub fn empty(alloc: Global) -> Content
        ensures none { result ≡ no_content }
        ensures lies { (chunks : ChunksValue) → ContentLiesIn chunks result }
    {
        Content {
            alloc,
            spans: Vec::new(alloc),
            len: 0,
        }
    }

    /// How many bytes.
    #[tactic(auto, unfolding(crate::specs::Content::bytes_of))]
    pub fn len(&self) -> u64
        ensures length { result ≡ length (bytes_of self.now) }
        ensures below { result < 2 ^ 63 }
    {
        self.len
    }

    /// Adds the bytes of the piece from `from` up to `to`. `Err`: no memory, and nothing is added.
    #[tactic(auto, unfolding(crate::specs::Content::bytes_of, crate::specs::Content::bytes_of_piece, crate::specs::Content::joined, crate::specs::Content::part_of))]
    pub fn append(&mut self, piece: &Arc<Piece>, from: usize, to: usize) -> Result<(), AllocError>
        requires order { from ≤ to }
        requires within { to ≤ length (bytes_of_piece (arc_value piece.now)) }
        requires size { length (bytes_of self.old) + (to - from) < 2 ^ 63 }
        ensures ok { OnOk result (self.new ≡ joined self.old (part_of (arc_value piece.now) from to)) }
        ensures bytes { OnOk result (bytes_of self.new ≡ bytes_of self.old ++ slice_range (bytes_of_piece (arc_value piece.now)) from to) }
        ensures lies { (chunks : ChunksValue) → ContentLiesIn chunks self.old → PieceLiesIn chunks (arc_value piece.now) → ContentLiesIn chunks self.new }
        ensures err { OnErr result (self.new ≡ self.old) }
    {
        if from < to {
            self.spans.push(Span::new(piece, from, to, self.len)?)?;
            self.len += (to - from) as u64;
        }
        Ok(())
    }

    /// Adds the other's bytes from `from` on. `Err`: no memory, and nothing is added.
    #[tactic(auto, unfolding(crate::specs::Content::bytes_of, crate::specs::Content::joined, crate::specs::Content::rest_of))]
    pub fn join(&mut self, other: &Content, from: u64) -> Result<(), AllocError>
        requires from { from ≤ length (bytes_of other.now) }
        requires size { length (bytes_of self.old) + length (bytes_of other.now) < 2 ^ 63 + from }
        ensures ok { OnOk result (self.new ≡ joined self.old (rest_of other.now from)) }
        ensures bytes { OnOk result (bytes_of self.new ≡ bytes_of self.old ++ drop from (bytes_of other.now)) }
        ensures lies { (chunks : ChunksValue) → ContentLiesIn chunks self.old → ContentLiesIn chunks other.now → ContentLiesIn chunks self.new }
        ensures err { OnErr result (self.new ≡ self.old) }
    {
        let mut added = spans_from(self.alloc, &other.spans, from, self.len)?;
        self.spans.append(&mut added)?;
        self.len += other.len - from;
        Ok(())
    }

    /// The same content. `Err`: no memory.
    pub fn copy(&self) -> Result<Content, AllocError>
        ensures { IfOk result (λ made. made ≡ self.now) }
    {
        Ok(Content {
            alloc: self.alloc,
            spans: copies_of(self.alloc, &self.spans)?,
            len: self.len,
        })
    }

    /// Bytes from `at` on that lie together, none only where there are none.
    #[tactic(auto, unfolding(crate::specs::Content::bytes_of, crate::specs::Content::ContentLiesIn))]
    pub fn slice_at<'a>(&'a self, chunks: &'a Chunks, at: u64) -> &'a [u8]
        requires lies { ContentLiesIn chunks.now self.now }
        ensures bytes { result.now ≡ take (length result.now) (drop at (bytes_of self.now)) }
        ensures some { at < length (bytes_of self.now) → 0 < length result.now }
    {
        let spans = self.spans.as_slice();
        let place = span_at(spans, at);
        if place == spans.len() {
            return &[];
        }
        let span = &spans[place];
        let start = span.end() - span.len() as u64;
        span.bytes_from(chunks, (at - start) as usize)
    }

    /// Writes the bytes from `at` on, as many as fit and are there, and tells how many.
    pub fn read(&self, chunks: &Chunks, at: u64, into: &mut [u8]) -> usize
        requires lies { ContentLiesIn chunks.now self.now }
        ensures count { result ≡ min (length into.old) (length (bytes_of self.now) - at) }
        ensures bytes { into.new ≡ take result (drop at (bytes_of self.now)) ++ drop result into.old }
    {
        let start = at.min(self.len());
        let mut filled = 0usize;
        while filled < into.len() {
            let found = self.slice_at(chunks, start + filled as u64);
            if found.is_empty() {
                break;
            }
            let count = found.len().min(into.len() - filled);
            into[filled..filled + count].copy_from_slice(&found[..count]);
            filled += count;
        }
        filled
    }

    // Whether both lie at the same places of the same published pieces. It reads no byte.
    #[tactic(auto, unfolding(crate::specs::Content::bytes_of, crate::specs::Content::ContentLiesIn))]
    fn same_places(&self, other: &Content, chunks: &Chunks) -> bool
        requires mine { ContentLiesIn chunks.now self.now }
        requires theirs { ContentLiesIn chunks.now other.now }
        ensures { IsTrue result → bytes_of self.now ≡ bytes_of other.now }
    {
        are_same(&self.spans, &other.spans, chunks)
    }

    /// Whether the bytes are equal. The places of the spans are compared before the bytes.
    pub fn same_spans(&self, other: &Content, chunks: &Chunks) -> bool
        requires mine { ContentLiesIn chunks.now self.now }
        requires theirs { ContentLiesIn chunks.now other.now }
        ensures { IsTrue result ↔ (bytes_of self.now ≡ bytes_of other.now) }
    {
        if self.len() != other.len() {
            return false;
        }
        if self.same_places(other, chunks) {
            return true;
        }
        let mut at = 0u64;
        while at < self.len() {
            let mine = self.slice_at(chunks, at);
            let theirs = other.slice_at(chunks, at);
            let count = mine.len().min(theirs.len());
            if mine[..count] != theirs[..count] {
                return false;
            }
            at += count as u64;
        }
        true
    }
}

// The number of the span in which the byte at a place lies, and how many there are where it lies in none.
fn span_at(spans: &[Span], at: u64) -> usize
    requires { AreEnds 0 spans.now }
    ensures bound { result ≤ length spans.now }
    ensures before { (k : ℕ) (d : Placed) → k < result → (slice_index_or spans.now k d).end ≤ at }
    ensures behind { (d : Placed) → result < length spans.now → at < (slice_index_or spans.now result d).end }
{
    spans.partition_point(|span| span.end() <= at)
}

// The spans from a place on, behind so many bytes of others.
fn spans_from(
    alloc: Global,
    spans: &[Span],
    from: u64,
    before: u64,
) -> Result<Vec<Span>, AllocError>
    requires { before + length (parts_bytes (parts_in spans.now)) < 2 ^ 63 + from }
    ensures parts { IfOk result (λ made. parts_in made.items ≡ rest_parts from (parts_in spans.now)) }
    ensures ends { IfOk result (λ made. AreEnds before made.items) }
{
    let mut made = Vec::new(alloc);
    let (mut skip, mut end) = (from, before);
    for span in spans {
        let size = span.len() as u64;
        if skip < size {
            made.push(span.cut(skip as usize, end)?)?;
            end += size - skip;
            skip = 0;
        } else {
            skip -= size;
        }
    }
    Ok(made)
}

// The spans of a copy.
fn copies_of(alloc: Global, spans: &[Span]) -> Result<Vec<Span>, AllocError>
    ensures { IfOk result (λ made. made.items ≡ spans.now) }
{
    let mut made = Vec::new(alloc);
    for span in spans {
        made.push(span.copy()?)?;
    }
    Ok(made)
}

// Whether all spans are the same places of the same published pieces.
fn are_same(spans: &[Span], others: &[Span], chunks: &Chunks) -> bool
    requires mine { PartsLieIn chunks.now (parts_in spans.now) }
    requires theirs { PartsLieIn chunks.now (parts_in others.now) }
    ensures { IsTrue result → parts_bytes (parts_in spans.now) ≡ parts_bytes (parts_in others.now) }
{
    if spans.len() != others.len() {
        return false;
    }
    for place in 0..spans.len() {
        if !spans[place].is_same(&others[place], chunks) {
            return false;
        }
    }
    true
}
