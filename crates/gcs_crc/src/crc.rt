//! The CRC32C of bytes that come in pieces, eight bytes at a time by tables.
ghost use Rattle.std.specs.Prelude.{◌≡◌, ◌+◌, ◌*◌, ◌<◌, ◌++◌, List, ℕ, []};
ghost use Rattle.gcs_crc.specs.Crc.{crc, crc_bits, crc_register, joined, Stands};

use crate::tables::TABLES;

/// The CRC32C of all bytes given so far: `Stands` names them. Source: RFC 3720, B.4.
#[derive(Clone, Copy, Debug)]
pub struct Crc {
    register: u32,
}

impl Crc {
    /// No bytes were given.
    #[tactic(auto, unfolding(crate::specs::Crc::Stands, crate::specs::Crc::crc_register))]
    pub fn new() -> Crc
        ensures { Stands result [] }
    {
        Crc {
            register: 0xFFFF_FFFF,
        }
    }

    /// Gives more bytes.
    pub fn update(&mut self, bytes: &[u8])
        ensures { (given : List ℕ) → Stands self.old given → Stands self.new (given ++ bytes.now) }
    {
        let (chunks, rest) = bytes.as_chunks::<8>();
        self.register = after_bytes(after_chunks(self.register, chunks), rest);
    }

    /// The CRC32C of all bytes given.
    #[tactic(auto, unfolding(crate::specs::Crc::Stands, crate::specs::Crc::crc))]
    pub fn value(&self) -> u32
        ensures { (given : List ℕ) → Stands self.now given → result ≡ crc given }
    {
        self.register ^ 0xFFFF_FFFF
    }
}

// The register that begins as the byte, after `table + 1` bytes 0.
fn after_zeros(table: usize, byte: u8) -> u32
    requires { table < 8 }
    ensures { result ≡ crc_bits (8 * (table + 1)) byte 0 }
{
    TABLES[table][usize::from(byte)]
}

// The register after one more byte.
#[tactic(auto, using(crate::proofs::Shifts::byte_step))]
fn after_byte(register: u32, byte: u8) -> u32
    ensures { result ≡ crc_bits 8 register byte }
{
    let low = (register ^ u32::from(byte)) % 256;
    register / 256 ^ after_zeros(0, low as u8)
}

// The register after more bytes, one at a time.
#[tactic(auto, unfolding(crate::specs::Crc::crc_register))]
fn after_bytes(register: u32, bytes: &[u8]) -> u32
    ensures { result ≡ crc_register register bytes.now }
{
    let mut register = register;
    for byte in bytes {
        register = after_byte(register, *byte);
    }
    register
}

// The register after eight more bytes, all at once: each byte's way through the rest is in a table.
fn after_eight(register: u32, bytes: &[u8; 8]) -> u32
    ensures { result ≡ crc_register register bytes.now }
{
    let at = (u64::from_le_bytes(*bytes) ^ u64::from(register)).to_le_bytes();
    after_zeros(7, at[0])
        ^ after_zeros(6, at[1])
        ^ after_zeros(5, at[2])
        ^ after_zeros(4, at[3])
        ^ after_zeros(3, at[4])
        ^ after_zeros(2, at[5])
        ^ after_zeros(1, at[6])
        ^ after_zeros(0, at[7])
}

// The register after more bytes, eight at a time.
fn after_chunks(register: u32, chunks: &[[u8; 8]]) -> u32
    ensures { result ≡ crc_register register (joined chunks.now) }
{
    let mut register = register;
    for chunk in chunks {
        register = after_eight(register, chunk);
    }
    register
}
