//! The head of a reply: its status line, its fields, its length and what becomes of the connection.
ghost use Rattle.std.specs.Prelude.{◌≡◌, ◌++◌, IfOk, OnOk};
ghost use Rattle.gcs_http_out.specs.Head.{
  IsStatus,
  status_line,
  field_line,
  field_lines,
  length_line,
  ending_line,
  line_end,
  head_text,
  texts_of,
  IsSameHead,
};

use std::alloc::{AllocError, Global};

/// What becomes of the connection after a reply.
#[derive(Clone, Copy, Debug, PartialEq, Eq)]
pub enum Ending {
    /// It stays open, which is HTTP/1.1's default: no field says so.
    Stays,
    /// It stays open for a client of HTTP/1.0: `Connection: keep-alive`.
    KeepAlive,
    /// It is closed behind the reply: `Connection: close`.
    Closes,
}

/// A reply without its body.
#[derive(Debug, Drop)]
pub struct ReplyHead {
    /// One of the 17 statuses that are sent (`IsStatus`).
    pub status: u16,
    /// Names and values in the order in which they are written, without `Content-Length` and `Connection`.
    /// They are written as they are: the caller puts no CR or LF into them.
    pub fields: Vec<(String, String)>,
    /// The `Content-Length` in bytes; absent for 204 and 304.
    pub length: Option<u64>,
    pub ending: Ending,
}

impl ReplyHead {
    /// A head with the same parts. `Err`: no memory.
    pub fn copy(&self) -> Result<ReplyHead, AllocError>
        ensures { IfOk result (λ made. IsSameHead made self.now) }
    {
        let fields = copy_fields(*self.fields.allocator(), &self.fields)?;
        Ok(ReplyHead {
            status: self.status,
            fields,
            length: self.length,
            ending: self.ending,
        })
    }
}

fn copy_fields(
    alloc: Global,
    fields: &[(String, String)],
) -> Result<Vec<(String, String)>, AllocError>
    ensures { IfOk result (λ made. texts_of made.items ≡ texts_of fields.now) }
{
    let mut made = Vec::new(alloc);
    for (name, value) in fields {
        made.push((name.clone()?, value.clone()?))?;
    }
    Ok(made)
}

/// The bytes of a head, up to and with the empty line that ends it (RFC 9112, sections 2.1, 4 and 5).
/// `Err`: no memory.
#[tactic(auto, unfolding(crate::specs::Head::head_text))]
pub fn head_bytes(alloc: Global, head: &ReplyHead) -> Result<Vec<u8>, AllocError>
    requires known { IsStatus head.now.status }
    ensures { IfOk result (λ bytes. bytes.items
        ≡ head_text head.now.status (texts_of head.now.fields.items) head.now.length head.now.ending) }
{
    let mut bytes = Vec::new(alloc);
    push_status(&mut bytes, head.status)?;
    push_fields(&mut bytes, &head.fields)?;
    push_end(&mut bytes, head.length, head.ending)?;
    Ok(bytes)
}

/// Writes a status line behind what `bytes` holds (RFC 9112, section 4). `Err`: no memory.
pub fn push_status(bytes: &mut Vec<u8>, status: u16) -> Result<(), AllocError>
    requires known { IsStatus status }
    ensures { OnOk result (bytes.new.items ≡ bytes.old.items ++ status_line status) }
{
    bytes.extend_from_slice(status_bytes(status))
}

/// Writes a field line behind what `bytes` holds (RFC 9112, section 5). The name and the value are written as they are: the
/// caller puts no CR or LF into them. `Err`: no memory.
pub fn push_field(bytes: &mut Vec<u8>, name: &str, value: &str) -> Result<(), AllocError>
    ensures { OnOk result (bytes.new.items ≡ bytes.old.items ++ field_line (name.now, value.now)) }
{
    bytes.extend_from_slice(name.as_bytes())?;
    bytes.extend_from_slice(b": ")?;
    bytes.extend_from_slice(value.as_bytes())?;
    bytes.extend_from_slice(b"\r\n")?;
    Ok(())
}

/// Writes the end of a head behind what `bytes` holds: the length of the body, where it is told, what becomes of the
/// connection, and the empty line. `Err`: no memory.
pub fn push_end(bytes: &mut Vec<u8>, length: Option<u64>, ending: Ending) -> Result<(), AllocError>
    ensures { OnOk result (bytes.new.items ≡ bytes.old.items ++ (length_line length ++ (ending_line ending ++ line_end))) }
{
    push_length(bytes, length)?;
    bytes.extend_from_slice(ending_bytes(ending))?;
    bytes.extend_from_slice(b"\r\n")?;
    Ok(())
}

// The status line (RFC 9112, section 4).
#[tactic(auto, unfolding(crate::proofs::OnLiterals::decimals_on_literals))]
fn status_bytes(status: u16) -> &'static [u8]
    requires known { IsStatus status }
    ensures { result.now ≡ status_line status }
{
    match status {
        200 => b"HTTP/1.1 200 OK\r\n",
        204 => b"HTTP/1.1 204 No Content\r\n",
        206 => b"HTTP/1.1 206 Partial Content\r\n",
        304 => b"HTTP/1.1 304 Not Modified\r\n",
        308 => b"HTTP/1.1 308 Resume Incomplete\r\n",
        400 => b"HTTP/1.1 400 Bad Request\r\n",
        403 => b"HTTP/1.1 403 Forbidden\r\n",
        404 => b"HTTP/1.1 404 Not Found\r\n",
        405 => b"HTTP/1.1 405 Method Not Allowed\r\n",
        409 => b"HTTP/1.1 409 Conflict\r\n",
        410 => b"HTTP/1.1 410 Gone\r\n",
        412 => b"HTTP/1.1 412 Precondition Failed\r\n",
        413 => b"HTTP/1.1 413 Payload Too Large\r\n",
        416 => b"HTTP/1.1 416 Range Not Satisfiable\r\n",
        499 => b"HTTP/1.1 499 Client Closed Request\r\n",
        501 => b"HTTP/1.1 501 Not Implemented\r\n",
        503 => b"HTTP/1.1 503 Service Unavailable\r\n",
        _ => unreachable!(),
    }
}

fn push_fields(bytes: &mut Vec<u8>, fields: &[(String, String)]) -> Result<(), AllocError>
    ensures { OnOk result (bytes.new.items ≡ bytes.old.items ++ field_lines (texts_of fields.now)) }
{
    for (name, value) in fields {
        push_field(bytes, name, value)?;
    }
    Ok(())
}

fn push_length(bytes: &mut Vec<u8>, length: Option<u64>) -> Result<(), AllocError>
    ensures { OnOk result (bytes.new.items ≡ bytes.old.items ++ length_line length) }
{
    if let Some(length) = length {
        let mut digits = itoa::Buffer::new();
        push_field(bytes, "Content-Length", digits.format(length))?;
    }
    Ok(())
}

fn ending_bytes(ending: Ending) -> &'static [u8]
    ensures { result.now ≡ ending_line ending }
{
    match ending {
        Ending::Stays => b"",
        Ending::KeepAlive => b"Connection: keep-alive\r\n",
        Ending::Closes => b"Connection: close\r\n",
    }
}
