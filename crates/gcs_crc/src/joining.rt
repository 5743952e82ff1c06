//! The CRC32C of two texts, one after the other, from the CRC32C of each.
ghost use Rattle.std.specs.Prelude.{◌≡◌, ◌*◌, ◌++◌, List, ℕ, length};
ghost use Rattle.gcs_crc.specs.Crc.{crc, crc_bit, crc_bits};

// A register is a polynomial modulo CRC32C's, its highest bit the coefficient of 1; a bit 0 that comes
// in multiplies it by x.
const POLYNOMIAL: u32 = 0x82F6_3B78;

// x to the eighth, by which a byte 0 multiplies.
const ZERO_BYTE: u32 = 0x0080_0000;

/// The CRC32C of two texts joined: `a` and `b` are those of the first and of the second, `len_b` is the second's
/// length in bytes.
///
/// At most 128 products of 32 steps, whatever the length.
pub fn combine(a: u32, b: u32, len_b: u64) -> u32
    ensures { (x y : List ℕ) → a ≡ crc x → b ≡ crc y → len_b ≡ length y → result ≡ crc (x ++ y) }
{
    after_zero_bytes(a, len_b) ^ b
}

// The register after so many bytes 0.
fn after_zero_bytes(register: u32, count: u64) -> u32
    ensures { result ≡ crc_bits (8 * count) register 0 }
{
    let mut register = register;
    let mut power = ZERO_BYTE;
    let mut count = count;
    while count > 0 {
        if count % 2 == 1 {
            register = product(register, power);
        }
        power = product(power, power);
        count /= 2;
    }
    register
}

// The product of two polynomials: where the second is a power of x, the first after so many bits 0.
fn product(a: u32, b: u32) -> u32
    ensures { (m : ℕ) → b ≡ crc_bits m 0x80000000 0 → result ≡ crc_bits m a 0 }
{
    let mut sum = 0;
    let mut rest = a;
    for _step in 0..32u32 {
        sum = after_zero_bit(sum) ^ if rest % 2 == 0 { 0 } else { b };
        rest /= 2;
    }
    sum
}

// The register after one more bit 0.
#[tactic(auto, unfolding(crate::specs::Crc::crc_bit))]
fn after_zero_bit(register: u32) -> u32
    ensures { result ≡ crc_bit register 0 }
{
    if register % 2 == 0 {
        register / 2
    } else {
        register / 2 ^ POLYNOMIAL
    }
}
