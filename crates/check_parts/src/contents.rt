//! Content that has the front of a delimiter in it, once before another byte, and once before a CR and a delimiter.
ghost use Rattle.gcs_multipart.specs.Delimiter.{IsBoundary};

use crate::telling::{Fault, fault_at, tell};
use std::alloc::{AllocError, Global};

/// A content type of the boundary `bound`.
pub const BOUND: &str = "multipart/mixed; boundary=bound";

/// Delimiters of this boundary.
pub static DELIMITERS: [&str; 2] = ["\r\n--bound\r\n", "\r\n--bound--"];

// What stands before the content.
const FRONT: &str = "--bound\r\n\r\n";

const END: &str = "\r\n--bound--";

/// The first fault of content with this front of a delimiter in it, if there is one.
pub fn check_content(
    alloc: Global,
    boundary: &[u8],
    front: &[u8],
) -> Result<Option<Fault>, AllocError>
    requires { IsBoundary boundary.now }
{
    let content = content_with(alloc, front)?;
    let body = joined(alloc, FRONT, &content, END)?;
    let wanted = joined(alloc, "<|", &content, "!.")?;
    for size in 1..=body.len() {
        let fault = fault_at(alloc, boundary, &body, &wanted, size)?;
        if fault.is_some() {
            return Ok(fault);
        }
    }
    for end in FRONT.len()..body.len() {
        let fault = fault_of_cut(alloc, boundary, &body[..end], &content)?;
        if fault.is_some() {
            return Ok(fault);
        }
    }
    Ok(None)
}

// The fault of a body that was cut in its content or in the delimiter behind it: what is told and what is held back
// must be as long as what came.
fn fault_of_cut(
    alloc: Global,
    boundary: &[u8],
    body: &[u8],
    content: &[u8],
) -> Result<Option<Fault>, AllocError>
    requires { IsBoundary boundary.now }
{
    let telling = tell(alloc, boundary, body, body.len())?;
    let told = telling.line.get(2..).unwrap_or(b"");
    let came = body.len().saturating_sub(FRONT.len());
    if content.starts_with(told) && told.len().saturating_add(telling.held_back) == came {
        return Ok(None);
    }
    Ok(Some(Fault {
        size: body.len(),
        line: telling.line,
    }))
}

fn content_with(alloc: Global, front: &[u8]) -> Result<Vec<u8>, AllocError> {
    let mut content = Vec::from_slice(alloc, b"x")?;
    content.extend_from_slice(front)?;
    content.push(b'y')?;
    content.extend_from_slice(front)?;
    content.push(b'\r')?;
    Ok(content)
}

fn joined(alloc: Global, before: &str, text: &[u8], after: &str) -> Result<Vec<u8>, AllocError> {
    let mut joined = Vec::from_slice(alloc, before.as_bytes())?;
    joined.extend_from_slice(text)?;
    joined.extend_from_slice(after.as_bytes())?;
    Ok(joined)
}
