//! Replies as they are written.
ghost use Rattle.std.specs.Prelude.{◌≡◌, IfOk};
ghost use Rattle.gcs_chunks.specs.Content.{ChunksValue};
ghost use Rattle.gcs_http_out.specs.Head.{IsStatus};
ghost use Rattle.gcs_rewrite.specs.Contents.{ReplyLiesIn};
ghost use Rattle.gcs_reply.specs.Outgoing.{outgoing_bytes, OutgoingLiesIn};
ghost use Rattle.gcs_reply.specs.Replies.{bare_text, fault_text, fixed_of, memory_text, refusal_text, reply_text};

use crate::form::Form;
use crate::json::{bucket_reply, buckets_reply, page_reply, refusal_reply, resource_reply};
use crate::media::media_reply;
use crate::outgoing::Outgoing;
use crate::resumable::{cancelled_reply, kept_reply, started_reply};
use crate::rewriting::rewrite_reply;
use gcs_http_in::FrameFault;
use gcs_http_out::{Ending, Fixed, FixedText, fixed, push_end, push_status};
use gcs_meaning::Reason;
use gcs_rewrite::{Reply, Request};
use std::alloc::{AllocError, Global};

// Room for a head without fields.
const BARE_ROOM: usize = 64;

/// The text of a reply. `Err`: no memory.
#[tactic(auto, unfolding(crate::specs::Replies::reply_text))]
pub fn write_reply(
    alloc: Global,
    form: Form,
    request: &Request,
    reply: &Reply,
) -> Result<Outgoing, AllocError>
    ensures text { IfOk result (λ outgoing. outgoing_bytes outgoing ≡ reply_text form request.now reply.now) }
    ensures lies { IfOk result (λ outgoing. (chunks : ChunksValue) → ReplyLiesIn chunks reply.now → OutgoingLiesIn chunks outgoing) }
{
    match reply {
        Reply::Refused(reason) => write_refusal(alloc, form, reason),
        Reply::Object(row, settings) => resource_reply(alloc, form, request, row, settings),
        Reply::Media { row, part } => media_reply(alloc, form, row, *part),
        Reply::Bucket(row) => bucket_reply(alloc, form, request, row),
        Reply::Buckets(rows, token) => buckets_reply(alloc, form, request, rows, token),
        Reply::Page(page) => page_reply(alloc, form, request, page),
        Reply::Rewritten { reply, object } => rewrite_reply(alloc, form, request, reply, object),
        Reply::Started(upload) => started_reply(alloc, form, request, *upload),
        Reply::Kept(count) => kept_reply(alloc, form, *count),
        Reply::Cancelled => cancelled_reply(alloc, form),
        Reply::NoContent => bare_reply(alloc, form, 204),
        Reply::NotModified => bare_reply(alloc, form, 304),
    }
}

/// The text of a refusal, with the size of a content in which a range can't be met. `Err`: no memory.
pub fn write_refusal(alloc: Global, form: Form, reason: &Reason) -> Result<Outgoing, AllocError>
    ensures text { IfOk result (λ outgoing. outgoing_bytes outgoing ≡ refusal_text form reason.now) }
    ensures lies { IfOk result (λ outgoing. (chunks : ChunksValue) → OutgoingLiesIn chunks outgoing) }
{
    refusal_reply(alloc, form, reason)
}

// A head alone, without a length. `Err`: no memory.
fn bare_reply(alloc: Global, form: Form, status: u16) -> Result<Outgoing, AllocError>
    requires { IsStatus status }
    ensures text { IfOk result (λ outgoing. outgoing_bytes outgoing ≡ bare_text form status) }
    ensures lies { IfOk result (λ outgoing. (chunks : ChunksValue) → OutgoingLiesIn chunks outgoing) }
{
    let mut head = Vec::with_capacity(alloc, BARE_ROOM)?;
    push_status(&mut head, status)?;
    push_end(&mut head, None, form.ending)?;
    Ok(Outgoing::Text(head))
}

/// The constant reply of want of memory, before any step of a request or after one.
pub fn memory_reply(form: Form, stepped: bool) -> Outgoing
    ensures text { outgoing_bytes result ≡ memory_text form stepped }
    ensures lies { (chunks : ChunksValue) → OutgoingLiesIn chunks result }
{
    let what = if stepped {
        FixedText::WantOfMemoryDone
    } else {
        FixedText::WantOfMemory
    };
    Outgoing::Fixed(fixed(Fixed {
        what,
        ending: form.ending,
        head_only: form.head_only,
    }))
}

/// The constant reply of a fault. It closes the connection.
pub fn fault_reply(fault: FrameFault) -> Outgoing
    ensures text { outgoing_bytes result ≡ fault_text fault }
    ensures lies { (chunks : ChunksValue) → OutgoingLiesIn chunks result }
{
    Outgoing::Fixed(fixed(Fixed {
        what: fixed_of(fault),
        ending: Ending::Closes,
        head_only: false,
    }))
}

fn fixed_of(fault: FrameFault) -> FixedText
    ensures { result ≡ fixed_of fault }
{
    match fault {
        FrameFault::HeadTooLong => FixedText::HeadTooLong,
        FrameFault::TooManyFields => FixedText::TooManyFields,
        FrameFault::BadHead => FixedText::BadHead,
        FrameFault::BadCoding => FixedText::BadCoding,
        FrameFault::BothLengths => FixedText::BothLengths,
        FrameFault::BadLength => FixedText::BadLength,
        FrameFault::BodyTooLong => FixedText::BodyTooLong,
        FrameFault::BadChunk => FixedText::BadChunk,
    }
}
