//! The bytes of a reply that wait to be written.
ghost use Rattle.std.specs.Prelude.{◌≡◌, ◌≤◌, ◌<◌, ◌-◌, ◌↔◌, [], IsTrue, length, min, take, drop};
ghost use Rattle.gcs_reply.specs.Outgoing.{outgoing_bytes};

use gcs_chunks::Chunks;
use gcs_reply::Outgoing;

/// A reply, of which the first bytes have been given out.
#[derive(Drop)]
pub struct Unsent {
    text: Outgoing,
    size: u64,
    sent: u64,
    ghost whole: { size ≡ length (outgoing_bytes text) },
    ghost within: { sent ≤ size },
}

impl Unsent {
    ghost use Rattle.gcs_chunks.specs.Content.{ChunksValue};
    ghost use Rattle.gcs_reply.specs.Outgoing.{OutgoingLiesIn};
    ghost use Rattle.gcs_session.specs.Contents.{UnsentLiesIn};
    ghost use Rattle.gcs_session.specs.Unsent.{unsent_bytes};

    /// The whole of a text.
    pub fn new(text: Outgoing) -> Unsent
        ensures bytes { unsent_bytes result ≡ outgoing_bytes text }
        ensures lies { (chunks : ChunksValue) → OutgoingLiesIn chunks text → UnsentLiesIn chunks result }
    {
        let size = text.len();
        Unsent {
            text,
            size,
            sent: 0,
        }
    }

    pub fn is_empty(&self) -> bool
        ensures { IsTrue result ↔ (unsent_bytes self.now ≡ []) }
    {
        self.sent == self.size
    }

    /// Gives out the first bytes, as many as fit.
    pub fn give(&mut self, chunks: &Chunks, into: &mut [u8]) -> usize
        requires lies { UnsentLiesIn chunks.now self.old }
        ensures count { result ≡ min (length into.old) (length (unsent_bytes self.old)) }
        ensures bytes { take result into.new ≡ take result (unsent_bytes self.old) }
        ensures rest { unsent_bytes self.new ≡ drop result (unsent_bytes self.old) }
        ensures lies { UnsentLiesIn chunks.now self.new }
    {
        let count = self.text.read(chunks, self.sent, into);
        self.sent += count as u64;
        count
    }
}
