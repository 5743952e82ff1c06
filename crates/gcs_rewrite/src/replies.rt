//! What a request says: its reply, and which one it is by the answer to its command.
ghost use Rattle.std.specs.Prelude.{◌≡◌, IfOk};
ghost use Rattle.gcs_rewrite.specs.Answered.{is_not_match, is_read, is_unchanged, object_reply, range_reply, refused_reply, reply_of};

use crate::range::Range;
use gcs_meaning::{
    Answer, BucketRow, Copied, Key, List, Page, Reason, RewriteReply, Row, Settings, Text,
};
use gcs_route::{Call, RequestKind};
use std::alloc::AllocError;

/// What a request says.
#[derive(Drop)]
pub enum Reply {
    Refused(Reason),
    Bucket(BucketRow),
    /// A page of buckets, and the token of the next one, where more are left.
    Buckets(List<BucketRow>, Option<Text>),
    Object(Row, Settings),
    Page(Page),
    /// The bytes of a version, or the part of them from the first of these places up to and with the last.
    Media {
        row: Row,
        part: Option<(u64, u64)>,
    },
    /// How far a rewrite has come and, once it is done, the version at its destination.
    Rewritten {
        reply: RewriteReply,
        object: Option<(Row, Settings)>,
    },
    /// The number of a resumable upload that has begun.
    Started(u64),
    /// So many bytes of a resumable upload are kept, and more are to come.
    Kept(u64),
    /// This request has cancelled a resumable upload.
    Cancelled,
    NoContent,
    /// What is read has the very number that the reader has.
    NotModified,
}

/// What a call with that range says of an answer. `Err`: no memory.
pub fn say(call: &Call, range: Option<Range>, answer: &Answer) -> Result<Reply, AllocError>
    ensures { IfOk result (λ reply. reply ≡ reply_of call.now range answer.now) }
{
    match answer {
        Answer::Object(row, settings) => say_object(call, range, row, settings),
        Answer::Bucket(row) => Ok(Reply::Bucket(row.copy()?)),
        Answer::Buckets(rows) => Ok(Reply::Buckets(rows.copy()?, None)),
        Answer::Empty => Ok(Reply::NoContent),
        Answer::Page(page) => Ok(Reply::Page(page.copy()?)),
        Answer::Started(number) => Ok(Reply::Started(*number)),
        Answer::Kept(count) => Ok(Reply::Kept(*count)),
        Answer::Complete(content) => Ok(Reply::Kept(content.len())),
        Answer::Cancelled => Ok(Reply::Cancelled),
        Answer::Refused(reason) => Ok(say_refusal(call.kind(), *reason)),
    }
}

// What a call of that kind says of a refusal.
fn say_refusal(kind: RequestKind, reason: Reason) -> Reply
    ensures { result ≡ refused_reply kind reason }
{
    if is_unchanged(kind, reason) {
        Reply::NotModified
    } else {
        Reply::Refused(reason)
    }
}

// Whether what is read has the very number that the reader has (RFC 9110, 13.1.2).
fn is_unchanged(kind: RequestKind, reason: Reason) -> bool
    ensures { result ≡ is_unchanged kind reason }
{
    match reason {
        Reason::Condition { which, .. } => is_read(kind) && is_not_match(which),
        _ => false,
    }
}

// Whether the request reads a bucket or a version.
fn is_read(kind: RequestKind) -> bool
    ensures { result ≡ is_read kind }
{
    use RequestKind::*;

    matches!(kind, BucketGet | ObjectGet | Download)
}

fn is_not_match(which: Key) -> bool
    ensures { result ≡ is_not_match which }
{
    matches!(
        which,
        Key::IfGenerationNotMatch | Key::IfMetagenerationNotMatch
    )
}

// A version as a read of bytes, or any other call, says it.
fn say_object(
    call: &Call,
    range: Option<Range>,
    row: &Row,
    settings: &Settings,
) -> Result<Reply, AllocError>
    ensures { IfOk result (λ reply. reply ≡ object_reply call.now range row.now settings.now) }
{
    if call.media {
        return range_reply(range, row);
    }
    let row = row.copy()?;
    let settings = settings.copy()?;
    Ok(Reply::Object(row, settings))
}

// What a read of a version's bytes says, by the range that it asks for.
#[tactic(auto, unfolding(crate::specs::Answered::range_reply))]
fn range_reply(range: Option<Range>, row: &Row) -> Result<Reply, AllocError>
    ensures { IfOk result (λ reply. reply ≡ range_reply range row.now) }
{
    let Some(range) = range else {
        let row = row.copy()?;
        return Ok(Reply::Media { row, part: None });
    };
    let size = row.hashed.content().len();
    let Some(part) = range.part_in(size) else {
        return Ok(Reply::Refused(Reason::Unsatisfiable { size }));
    };
    let row = row.copy()?;
    Ok(Reply::Media {
        row,
        part: Some(part),
    })
}
