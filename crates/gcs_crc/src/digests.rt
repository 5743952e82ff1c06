//! The CRC32C and the MD5 of bytes that come in pieces, side by side.
ghost use Rattle.std.specs.Prelude.{◌≡◌, ◌++◌, List, ℕ, []};
ghost use Rattle.gcs_crc.specs.Crc.{crc};
ghost use Rattle.gcs_crc.specs.Digests.{StandsAfter};
ghost use Rattle.md5.specs.Md5.{md5};

use crate::crc::Crc;
use md5::{Digest, Md5};

/// Both digests of all bytes given so far: `StandsAfter` names them. Sources: RFC 3720, B.4; RFC 1321.
#[derive(Drop)]
pub struct Digests {
    crc: Crc,
    md5: Md5,
}

impl Digests {
    /// No bytes were given.
    #[tactic(auto, unfolding(crate::specs::Digests::StandsAfter))]
    pub fn new() -> Digests
        ensures { StandsAfter result [] }
    {
        Digests {
            crc: Crc::new(),
            md5: Md5::new(),
        }
    }

    /// Gives more bytes.
    #[tactic(auto, unfolding(crate::specs::Digests::StandsAfter))]
    pub fn update(&mut self, bytes: &[u8])
        ensures { (given : List ℕ) → StandsAfter self.old given → StandsAfter self.new (given ++ bytes.now) }
    {
        self.crc.update(bytes);
        self.md5.update(bytes);
    }

    /// The CRC32C and the MD5 of all bytes given.
    #[tactic(auto, unfolding(crate::specs::Digests::StandsAfter))]
    pub fn finish(self) -> (u32, [u8; 16])
        ensures crc { (given : List ℕ) → StandsAfter self given → result.0 ≡ crc given }
        ensures md5 { (given : List ℕ) → StandsAfter self given → result.1 ≡ md5 given }
    {
        (self.crc.value(), self.md5.finalize())
    }
}
