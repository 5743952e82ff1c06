//! A part of a content, which is read without being copied.
ghost use Rattle.std.specs.Prelude.{◌≡◌, ◌≤◌, ◌<◌, ◌-◌, ◌++◌, ◌^◌, length, min, take, drop};
ghost use Rattle.gcs_chunks.specs.Content.{bytes_of, ContentLiesIn};
ghost use Rattle.gcs_reply.specs.Excerpt.{cut_bytes};

use gcs_chunks::{Chunks, Content};
use std::marker::Model;

/// The bytes of a content from a place up to another. `cut_bytes` gives them.
#[derive(Drop)]
pub struct Excerpt {
    content: Content,
    from: u64,
    to: u64,
}

impl Model for Excerpt {
    ghost use Rattle.std.specs.Prelude.{◌≤◌, ◌<◌, ◌^◌, length};
    ghost use Rattle.gcs_chunks.specs.Content.{bytes_of};
    ghost use Rattle.gcs_reply.specs.Excerpt.{ExcerptValue};

    ghost Value = { ExcerptValue };

    ghost view = { λ e. record { content = e.content; from = e.from; to = e.to } };

    ghost invariant = { λ e. (e.from ≤ e.to) × (e.to ≤ length (bytes_of e.content)) × (e.to < 2 ^ 63) };
}

impl Excerpt {
    pub fn new(content: Content, from: u64, to: u64) -> Excerpt
        requires order { from ≤ to }
        requires within { to ≤ length (bytes_of content) }
        requires short { to < 2 ^ 63 }
        ensures { result ≡ record { content = content; from = from; to = to } }
    {
        Excerpt { content, from, to }
    }

    /// How many bytes.
    pub fn len(&self) -> u64
        ensures length { result ≡ length (cut_bytes self.now) }
        ensures below { result < 2 ^ 63 }
    {
        self.to - self.from
    }

    /// Writes the bytes from `at` on, as many as fit and are there, and tells how many.
    pub fn read(&self, chunks: &Chunks, at: u64, into: &mut [u8]) -> usize
        requires lies { ContentLiesIn chunks.now self.now.content }
        ensures count { result ≡ min (length into.old) (length (cut_bytes self.now) - at) }
        ensures bytes { into.new ≡ take result (drop at (cut_bytes self.now)) ++ drop result into.old }
    {
        let from = self.from + at.min(self.len());
        let most = (self.to - from).min(into.len() as u64) as usize;
        self.content.read(chunks, from, &mut into[..most])
    }
}
