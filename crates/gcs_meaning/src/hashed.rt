//! A content with its digests.
ghost use Rattle.std.specs.Prelude.{◌≡◌, ◌<◌, ◌+◌, ◌^◌, length, true, false, OnErr, OnOk};
ghost use Rattle.gcs_chunks.specs.Content.{bytes_of, no_content, ContentLiesIn};
ghost use Rattle.gcs_crc.specs.Crc.{crc};
ghost use Rattle.gcs_crc.specs.Digests.{StandsAfter};
ghost use Rattle.gcs_meaning.specs.Content.{bytes_in, md5_if, with_whole};

use crate::copying::Copied;
use gcs_chunks::{Chunks, Content};
use gcs_crc::{Crc, Digests, combine};
use std::alloc::{AllocError, Global};
use std::marker::Model;

/// A content with its CRC32C and, unless it was composed, its MD5. Both are always those of its bytes.
pub struct Hashed {
    content: Content,
    crc32c: u32,
    md5: Option<[u8; 16]>,
}

impl Drop for Hashed {
    fn drop(self) {
        let Hashed {
            content,
            crc32c: _,
            md5: _,
        } = self;
        drop(content);
    }
}

impl Model for Hashed {
    ghost use Rattle.std.specs.Prelude.{◌≡◌, is_some};
    ghost use Rattle.gcs_chunks.specs.Content.{bytes_of};
    ghost use Rattle.gcs_crc.specs.Crc.{crc};
    ghost use Rattle.gcs_meaning.specs.Content.{Digested, md5_if};

    ghost Value = { Digested };

    ghost view = { λ h. record { content = h.content; with_md5 = is_some h.md5 } };

    ghost invariant = { λ h. (h.crc32c ≡ crc (bytes_of h.content)) × (h.md5 ≡ md5_if (is_some h.md5) (bytes_of h.content)) };
}

impl Hashed {
    /// The content with both digests, which are computed here.
    pub fn of(content: Content, chunks: &Chunks) -> Hashed
        requires { ContentLiesIn chunks.now content }
        ensures content { result.content ≡ content }
        ensures md5 { result.with_md5 ≡ true }
    {
        let digests = digests_of(&content, chunks);
        Hashed::with(content, digests)
    }

    /// The content with both digests, which were computed while its bytes came.
    pub fn with(content: Content, digests: Digests) -> Hashed
        requires { StandsAfter digests (bytes_of content) }
        ensures content { result.content ≡ content }
        ensures md5 { result.with_md5 ≡ true }
    {
        let (crc32c, digest) = digests.finish();
        Hashed {
            content,
            crc32c,
            md5: Some(digest),
        }
    }

    /// The content without bytes, and without an MD5: others are joined behind it.
    pub fn none(alloc: Global) -> Hashed
        ensures content { result.content ≡ no_content }
        ensures md5 { result.with_md5 ≡ false }
    {
        Hashed {
            content: Content::empty(alloc),
            crc32c: Crc::new().value(),
            md5: None,
        }
    }

    /// The same digests over another content, which has the same bytes.
    pub fn over(&self, content: Content) -> Hashed
        requires { bytes_of content ≡ bytes_in self.now }
        ensures content { result.content ≡ content }
        ensures md5 { result.with_md5 ≡ self.now.with_md5 }
    {
        Hashed {
            content,
            crc32c: self.crc32c,
            md5: self.md5,
        }
    }

    /// Adds the other's bytes, of which none is read, and the MD5 goes. `Err`: no memory, and nothing is added.
    pub fn join(&mut self, other: &Hashed) -> Result<(), AllocError>
        requires { length (bytes_in self.old) + length (bytes_in other.now) < 2 ^ 63 }
        ensures content { OnOk result (self.new.content ≡ with_whole self.old.content other.now.content) }
        ensures md5 { OnOk result (self.new.with_md5 ≡ false) }
        ensures err { OnErr result (self.new ≡ self.old) }
    {
        let crc32c = combine(self.crc32c, other.crc32c, other.content.len());
        self.content.join(&other.content, 0)?;
        self.crc32c = crc32c;
        self.md5 = None;
        Ok(())
    }

    pub fn content(&self) -> &Content
        ensures { result.now ≡ self.now.content }
    {
        &self.content
    }

    pub fn crc(&self) -> u32
        ensures { result ≡ crc (bytes_of self.now.content) }
    {
        self.crc32c
    }

    pub fn md5(&self) -> Option<[u8; 16]>
        ensures { result ≡ md5_if self.now.with_md5 (bytes_of self.now.content) }
    {
        self.md5
    }
}

impl Copied for Hashed {
    fn copy(&self) -> Result<Hashed, AllocError> {
        Ok(Hashed {
            content: self.content.copy()?,
            crc32c: self.crc32c,
            md5: self.md5,
        })
    }
}

// The digests of all bytes of a content, span by span.
fn digests_of(content: &Content, chunks: &Chunks) -> Digests
    requires { ContentLiesIn chunks.now content.now }
    ensures { StandsAfter result (bytes_of content.now) }
{
    let mut digests = Digests::new();
    let mut at = 0;
    while at < content.len() {
        let part = content.slice_at(chunks, at);
        digests.update(part);
        at += part.len() as u64;
    }
    digests
}
