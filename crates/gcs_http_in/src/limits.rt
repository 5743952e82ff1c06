//! How much a message may have.

/// The limits of messages on a connection. Calls that take limits require each number to be at least 1 and at most the
/// usual one.
#[derive(Clone, Copy, Debug, PartialEq, Eq)]
pub struct Limits {
    /// Bytes of a head, with its leading empty lines.
    pub head: u32,
    /// Nonempty lines of a head after the first one.
    pub fields: u32,
    /// Bytes of a body; of one in chunks, the bytes of its chunks together.
    pub body: u64,
    /// Bytes of a JSON body or JSON part. Framing makes no use of it.
    pub json: u64,
    /// Requests of a connection. The last one closes it.
    pub requests: u32,
}

impl Limits {
    ghost use Rattle.std.specs.Prelude.{◌≡◌};
    ghost use Rattle.gcs_http_in.specs.Usual.{usual};

    /// The greatest limits that are allowed.
    pub fn usual() -> Limits
        ensures { result ≡ usual }
    {
        Limits {
            head: 32_768,
            fields: 100,
            body: 1_073_741_824,
            json: 1_048_576,
            requests: 100_000,
        }
    }
}
