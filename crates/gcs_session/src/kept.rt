//! A content while it comes.
ghost use Rattle.std.specs.Prelude.{◌≡◌, ◌≤◌, ◌+◌, ◌++◌, ℕ, List, [], length, IfOk, OnOk};
ghost use Rattle.gcs_chunks.specs.Content.{bytes_of, ChunksValue, ContentLiesIn};
ghost use Rattle.gcs_meaning.specs.Desk.{AreUnmoved};
ghost use Rattle.gcs_session.specs.Contents.{KeptLiesIn};
ghost use Rattle.gcs_session.specs.Holding.{IsHeld};

use crate::filling::Filling;
use gcs_chunks::Content;
use gcs_meaning::{Desk, List};
use std::alloc::{AllocError, Global};

/// The limit on bodies keeps every content far below so many bytes.
const ROOM: u64 = 1 << 62;

/// What has come of a content: pieces that are published, and the bytes that will be the next piece.
#[derive(Drop)]
pub struct Kept {
    content: Content,
    filling: Filling,
}

impl Kept {
    /// No bytes have come, of so many that are expected.
    pub fn new(alloc: Global, expected: u64) -> Kept
        ensures held { IsHeld result [] }
        ensures lies { (chunks : ChunksValue) → KeptLiesIn chunks result }
    {
        Kept {
            content: Content::empty(alloc),
            filling: Filling::new(alloc, expected),
        }
    }

    /// Keeps more bytes. `Err`: no memory for them.
    pub fn keep<D: Desk>(&mut self, desk: &mut D, part: &[u8]) -> Result<(), AllocError>
        ensures kept { OnOk result ((bytes : List ℕ) → IsHeld self.old bytes → IsHeld self.new (bytes ++ part.now)) }
        ensures lies { KeptLiesIn (D.stands desk.old).chunks self.old → KeptLiesIn (D.stands desk.old).chunks self.new }
        ensures stands { D.stands desk.new ≡ D.stands desk.old }
        ensures lists { AreUnmoved (D.seen desk.old) (D.mine desk.old) (D.seen desk.new) (D.mine desk.new) }
    {
        let mut rest = part;
        while !rest.is_empty() {
            let (next, later) = rest.split_at(rest.len().min(self.filling.room()));
            self.fill(desk, next)?;
            rest = later;
        }
        Ok(())
    }

    // Keeps more bytes, no more than the next piece has room for. `Err`: no memory for them.
    fn fill<D: Desk>(&mut self, desk: &mut D, part: &[u8]) -> Result<(), AllocError>
        requires { length self.old.filling.bytes.items + length part.now ≤ 1048576 }
        ensures kept { OnOk result ((bytes : List ℕ) → IsHeld self.old bytes → IsHeld self.new (bytes ++ part.now)) }
        ensures lies { KeptLiesIn (D.stands desk.old).chunks self.old → KeptLiesIn (D.stands desk.old).chunks self.new }
        ensures stands { D.stands desk.new ≡ D.stands desk.old }
        ensures lists { AreUnmoved (D.seen desk.old) (D.mine desk.old) (D.seen desk.new) (D.mine desk.new) }
    {
        match self.filling.add(part)? {
            None => Ok(()),
            Some(piece) => publish(desk, &mut self.content, piece),
        }
    }

    /// The content. `Err`: no memory for its last piece.
    pub fn finish<D: Desk>(self, desk: &mut D) -> Result<Content, AllocError>
        ensures bytes { IfOk result (λ content. (bytes : List ℕ) → IsHeld self bytes → bytes_of content ≡ bytes) }
        ensures lies { IfOk result (λ content. KeptLiesIn (D.stands desk.old).chunks self → ContentLiesIn (D.stands desk.old).chunks content) }
        ensures stands { D.stands desk.new ≡ D.stands desk.old }
        ensures lists { AreUnmoved (D.seen desk.old) (D.mine desk.old) (D.seen desk.new) (D.mine desk.new) }
    {
        let Kept {
            mut content,
            mut filling,
        } = self;
        let mut last = filling.take();
        if !last.is_empty() {
            last.shrink_to_fit();
            publish(desk, &mut content, last)?;
        }
        Ok(content)
    }
}

// Adds a piece to a content. `Err`: no memory for it.
fn publish<D: Desk>(desk: &mut D, content: &mut Content, bytes: Vec<u8>) -> Result<(), AllocError>
    requires least { 1 ≤ length bytes.items }
    requires most { length bytes.items ≤ 1048576 }
    ensures added { OnOk result (bytes_of content.new ≡ bytes_of content.old ++ bytes.items) }
    ensures lies { ContentLiesIn (D.stands desk.old).chunks content.old → ContentLiesIn (D.stands desk.old).chunks content.new }
    ensures stands { D.stands desk.new ≡ D.stands desk.old }
    ensures lists { AreUnmoved (D.seen desk.old) (D.mine desk.old) (D.seen desk.new) (D.mine desk.new) }
{
    let length = bytes.len();
    if content.len() >= ROOM {
        return Err(AllocError);
    }
    let piece = desk.publish(List::from_vec(bytes))?;
    content.append(&piece, 0, length)
}
