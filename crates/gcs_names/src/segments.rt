//! The bytes that a path's segment stands for.
ghost use Rattle.std.specs.Prelude.{◌≡◌, IfOk};
ghost use Rattle.percent_encoding.specs.Percent as percent;

use gcs_meaning::List;
use percent_encoding::percent_decode;
use std::alloc::{AllocError, Global};

/// The bytes that a segment stands for: `%` with two hexadecimal digits is the byte of that number, and any
/// other byte is itself. `Err`: no memory.
///
/// Source: RFC 3986, section 2.1.
pub fn segment(alloc: Global, text: &[u8]) -> Result<List<u8>, AllocError>
    ensures { IfOk result (λ bytes. bytes ≡ percent.percent_decode text.now) }
{
    let mut bytes = Vec::new(alloc);
    percent_decode(text).append_to(&mut bytes)?;
    Ok(List::from_vec(bytes))
}
