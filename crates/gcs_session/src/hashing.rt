//! A content with its digests while it comes.
ghost use Rattle.std.specs.Prelude.{◌≡◌, ◌++◌, ℕ, List, [], true, IfOk, OnOk};
ghost use Rattle.gcs_chunks.specs.Content.{ChunksValue};
ghost use Rattle.gcs_meaning.specs.Content.{bytes_in};
ghost use Rattle.gcs_meaning.specs.Contents.{HashedLiesIn};
ghost use Rattle.gcs_meaning.specs.Desk.{AreUnmoved};
ghost use Rattle.gcs_session.specs.Contents.{HashingLiesIn};
ghost use Rattle.gcs_session.specs.Holding.{IsHashing};

use crate::kept::Kept;
use gcs_crc::Digests;
use gcs_meaning::{Desk, Hashed};
use std::alloc::{AllocError, Global};

/// What has come of a content, and the digests of its bytes.
#[derive(Drop)]
pub struct Hashing {
    kept: Kept,
    digests: Digests,
}

impl Hashing {
    /// No bytes have come, of so many that are expected.
    pub fn new(alloc: Global, expected: u64) -> Hashing
        ensures held { IsHashing result [] }
        ensures lies { (chunks : ChunksValue) → HashingLiesIn chunks result }
    {
        Hashing {
            kept: Kept::new(alloc, expected),
            digests: Digests::new(),
        }
    }

    /// Keeps more bytes. `Err`: no memory for them.
    pub fn keep<D: Desk>(&mut self, desk: &mut D, part: &[u8]) -> Result<(), AllocError>
        ensures kept { OnOk result ((bytes : List ℕ) → IsHashing self.old bytes → IsHashing self.new (bytes ++ part.now)) }
        ensures lies { HashingLiesIn (D.stands desk.old).chunks self.old → HashingLiesIn (D.stands desk.old).chunks self.new }
        ensures stands { D.stands desk.new ≡ D.stands desk.old }
        ensures lists { AreUnmoved (D.seen desk.old) (D.mine desk.old) (D.seen desk.new) (D.mine desk.new) }
    {
        self.digests.update(part);
        self.kept.keep(desk, part)
    }

    /// The content with its digests. `Err`: no memory for its last piece.
    pub fn finish<D: Desk>(self, desk: &mut D) -> Result<Hashed, AllocError>
        requires { (bytes : List ℕ) × IsHashing self bytes }
        ensures bytes { IfOk result (λ hashed. (bytes : List ℕ) → IsHashing self bytes → bytes_in hashed ≡ bytes) }
        ensures md5 { IfOk result (λ hashed. hashed.with_md5 ≡ true) }
        ensures lies { IfOk result (λ hashed. HashingLiesIn (D.stands desk.old).chunks self → HashedLiesIn (D.stands desk.old).chunks hashed) }
        ensures stands { D.stands desk.new ≡ D.stands desk.old }
        ensures lists { AreUnmoved (D.seen desk.old) (D.mine desk.old) (D.seen desk.new) (D.mine desk.new) }
    {
        let Hashing { kept, digests } = self;
        let content = kept.finish(desk)?;
        Ok(Hashed::with(content, digests))
    }
}
