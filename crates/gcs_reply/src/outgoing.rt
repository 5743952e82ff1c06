//! A text that is written.
ghost use Rattle.std.specs.Prelude.{◌≡◌, ◌++◌, ◌-◌, length, min, take, drop};
ghost use Rattle.gcs_chunks.specs.Content.{ContentLiesIn};
ghost use Rattle.gcs_reply.specs.Excerpt.{cut_bytes};
ghost use Rattle.gcs_reply.specs.Outgoing.{outgoing_bytes, OutgoingLiesIn};

use crate::copying::copy_from;
use crate::excerpt::Excerpt;
use crate::turned::Turned;
use gcs_chunks::Chunks;

/// A text that is written.
#[derive(Drop)]
pub enum Outgoing {
    Text(Vec<u8>),
    /// A head and a body that stand in one block of memory.
    Turned(Turned),
    Fixed(&'static [u8]),
    /// A head, and then bytes of a content, which are read as they are given out.
    Media { head: Vec<u8>, body: Excerpt },
}

impl Outgoing {
    /// How many bytes.
    pub fn len(&self) -> u64
        ensures { result ≡ length (outgoing_bytes self.now) }
    {
        match self {
            Outgoing::Text(bytes) => bytes.len() as u64,
            Outgoing::Turned(turned) => turned.len(),
            Outgoing::Fixed(bytes) => bytes.len() as u64,
            Outgoing::Media { head, body } => head.len() as u64 + body.len(),
        }
    }

    /// Writes the bytes from `at` on, as many as fit and are there, and tells how many.
    pub fn read(&self, chunks: &Chunks, at: u64, into: &mut [u8]) -> usize
        requires lies { OutgoingLiesIn chunks.now self.now }
        ensures count { result ≡ min (length into.old) (length (outgoing_bytes self.now) - at) }
        ensures bytes { into.new ≡ take result (drop at (outgoing_bytes self.now)) ++ drop result into.old }
    {
        match self {
            Outgoing::Text(bytes) => copy_from(bytes, at, into),
            Outgoing::Turned(turned) => turned.read(at, into),
            Outgoing::Fixed(bytes) => copy_from(bytes, at, into),
            Outgoing::Media { head, body } => read_both(head, body, chunks, at, into),
        }
    }
}

// Writes bytes of the head and then of the body, from `at` on, as many as fit and are there.
fn read_both(head: &[u8], body: &Excerpt, chunks: &Chunks, at: u64, into: &mut [u8]) -> usize
    requires { ContentLiesIn chunks.now body.now.content }
    ensures count { result ≡ min (length into.old) (length (head.now ++ cut_bytes body.now) - at) }
    ensures bytes { into.new ≡ take result (drop at (head.now ++ cut_bytes body.now)) ++ drop result into.old }
{
    let count = copy_from(head, at, into);
    let past = at.saturating_sub(head.len() as u64);
    count + body.read(chunks, past, &mut into[count..])
}
