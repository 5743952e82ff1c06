//! Moments, in microseconds since 1970, and the shards of names.
ghost use Rattle.std.specs.Prelude.{◌≡◌, ◌*◌, ◌≤◌, ◌<◌, ◌^◌, length};
ghost use Rattle.gcs_meaning.specs.Moment.{effective_moment, shard_number};

use crate::limits::SHARDS;

/// The largest moment that a reading of the clock can give.
pub const LAST_READING: u64 = 200_000_000_000_000_000;

/// The moment of a step on a slot whose last moment is this.
pub fn effective(last: u64, reading: u64) -> u64
    ensures { result ≡ effective_moment last reading }
{
    last.max(reading.min(LAST_READING))
}

/// The shard that a bucket's name belongs to.
pub fn shard_of(name: &[u8]) -> u8
    ensures { result ≡ shard_number name.now }
{
    let mut total = 0u16;
    for byte in name {
        total = (total + u16::from(*byte)) % u16::from(SHARDS);
    }
    total as u8
}
