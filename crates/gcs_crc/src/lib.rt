//! The digests of content: CRC32C (RFC 3720, B.4) and MD5 (RFC 1321) of bytes that come in pieces, the CRC32C of two
//! joined texts, and both as the base64 texts of an object's fields `crc32c` and `md5Hash`.
#![tactic(auto)]

mod crc;
mod digests;
mod joining;
mod laws;
mod tables;
mod texts;

pub use crc::Crc;
pub use digests::Digests;
pub use joining::combine;
pub use laws::law_texts;
pub use texts::{BadDigest, crc_text, md5_text, read_crc, read_md5};
