//! Replies byte by byte, as a client reads them.
ghost use Rattle.std.specs.Prelude.{IfOk};
ghost use Rattle.gcs_http_out.specs.Head.{IsStatus};

use crate::report::{Failure, expect, report};
use gcs_http_out::{Ending, Fixed, FixedText, ReplyHead, fixed, head_bytes};
use std::alloc::{AllocError, Global};
use std::io;

const BAD_HEAD: &str = concat!(
    "HTTP/1.1 400 Bad Request\r\n",
    "Content-Type: application/json; charset=UTF-8\r\n",
    "Content-Length: 115\r\n",
    "Connection: close\r\n\r\n",
    "{\"error\":{\"code\":400,\"errors\":[",
    "{\"domain\":\"global\",\"message\":\"BadHead\",\"reason\":\"badFraming\"}],",
    "\"message\":\"BadHead\"}}",
);

const WANT_OF_MEMORY: &str = concat!(
    "HTTP/1.1 503 Service Unavailable\r\n",
    "Content-Type: application/json; charset=UTF-8\r\n",
    "Content-Length: 131\r\n\r\n",
);

const RESUME: &str =
    "HTTP/1.1 308 Resume Incomplete\r\nRange: bytes=0-262143\r\nContent-Length: 0\r\n\r\n";

const NOT_MODIFIED: &str = "HTTP/1.1 304 Not Modified\r\nConnection: keep-alive\r\n\r\n";

pub fn report_cases(rt: &(impl Print + AllocGlobal)) -> io::Result<bool> {
    let constants = report(rt, "a_bad_head_is_answered_by_its_name", try_constants())?;
    let heads = report(
        rt,
        "heads_and_their_copies_are_written",
        try_heads(rt.alloc()),
    )?;
    Ok(constants && heads)
}

fn try_constants() -> Result<(), Failure> {
    let bad_head = Fixed {
        what: FixedText::BadHead,
        ending: Ending::Closes,
        head_only: false,
    };
    expect(0, fixed(bad_head) == BAD_HEAD.as_bytes())?;
    let want_of_memory = Fixed {
        what: FixedText::WantOfMemory,
        ending: Ending::Stays,
        head_only: true,
    };
    expect(1, fixed(want_of_memory) == WANT_OF_MEMORY.as_bytes())
}

// The head of a reply that asks for the rest of an upload.
fn resume_head(alloc: Global) -> Result<ReplyHead, AllocError>
    ensures { IfOk result (λ head. IsStatus head.status) }
{
    let mut fields = Vec::new(alloc);
    fields.push((
        "Range".to_string(alloc)?,
        "bytes=0-262143".to_string(alloc)?,
    ))?;
    Ok(ReplyHead {
        status: 308,
        fields,
        length: Some(0),
        ending: Ending::Stays,
    })
}

fn try_heads(alloc: Global) -> Result<(), Failure> {
    let resume = resume_head(alloc)?;
    expect(
        0,
        head_bytes(alloc, &resume)?.as_slice() == RESUME.as_bytes(),
    )?;
    let copied = resume.copy()?;
    expect(1, copied.status == 308 && copied.fields.len() == 1)?;
    let not_modified = ReplyHead {
        status: 304,
        fields: Vec::new(alloc),
        length: None,
        ending: Ending::KeepAlive,
    };
    expect(
        2,
        head_bytes(alloc, &not_modified)?.as_slice() == NOT_MODIFIED.as_bytes(),
    )
}
