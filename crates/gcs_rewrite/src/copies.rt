//! Copies and rewrites: the source is read, and then the destination made.
ghost use Rattle.std.specs.Prelude.{◌≡◌, IfOk, None};
ghost use Rattle.gcs_meaning.specs.Content.{bytes_in};
ghost use Rattle.gcs_route.specs.OfCall.{NamesObject};
ghost use Rattle.gcs_rewrite.specs.Copies.{after_source, copied_object, copied_reply, copy_script, destination_move, done_after, done_before, done_with, size_of, source_generation, source_key, source_move, source_reason, source_reply, token_given, unfinished};

use crate::copy_meta::copied_meta;
use crate::moves::{Move, ask};
use crate::replies::{Reply, say};
use crate::tokens::{RewriteFault, read_rewrite, write_rewrite};
use gcs_json::ObjectBody;
use gcs_meaning::{
    Answer, Command, Copied, Expect, Key, Reason, RewriteReply, RewriteToken, Row, Settings,
};
use gcs_route::{Call, RequestKind};
use std::alloc::{AllocError, Global};

/// The next move of a copy or a rewrite, whose body says this of the destination. `Err`: no memory.
///
/// Source: Cloud Storage JSON API, "Objects: copy" and "Objects: rewrite".
pub fn next_copy(
    alloc: Global,
    call: &Call,
    body: &ObjectBody,
    answers: &[Answer],
) -> Result<Move, AllocError>
    requires { NamesObject call.now }
    ensures { IfOk result (λ next. next ≡ copy_script call.now body.now answers.now) }
{
    match answers {
        [] => ask_source(alloc, call),
        [source] => after_source(alloc, call, body, source),
        [_, made, ..] => Ok(Move::Say(say_copied(call, made)?)),
    }
}

// The read of the source.
fn ask_source(alloc: Global, call: &Call) -> Result<Move, AllocError>
    requires { NamesObject call.now }
    ensures { IfOk result (λ next. next ≡ source_move call.now) }
{
    let token = token_given(alloc, call)?;
    let generation = source_generation(&token, call);
    let place = call.bucket();
    let bucket = place.copy()?;
    let name = call.object().copy()?;
    Ok(ask(
        place,
        Command::Get {
            bucket,
            name,
            generation,
            soft: false,
            pre: call.source_pre,
        },
    ))
}

// The rewrite that the call's token tells of.
fn token_given(alloc: Global, call: &Call) -> Result<Option<RewriteToken>, AllocError>
    ensures { IfOk result (λ token. token ≡ token_given call.now) }
{
    let Some(text) = &call.rewrite_token else {
        return Ok(None);
    };
    match read_rewrite(alloc, text.as_bytes()) {
        Ok(token) => Ok(Some(token)),
        Err(RewriteFault::Bad) => Ok(None),
        Err(RewriteFault::NoMemory) => Err(AllocError),
    }
}

fn source_generation(token: &Option<RewriteToken>, call: &Call) -> Option<u64>
    ensures { result ≡ source_generation token.now call.now }
{
    match token {
        Some(token) => Some(token.generation),
        None => call.source_generation,
    }
}

// What follows the read of the source: what is said where not all of it is done, or the destination.
fn after_source(
    alloc: Global,
    call: &Call,
    body: &ObjectBody,
    source: &Answer,
) -> Result<Move, AllocError>
    requires { NamesObject call.now }
    ensures { IfOk result (λ next. next ≡ after_source call.now body.now source.now) }
{
    let Answer::Object(row, _) = source else {
        return Ok(Move::Say(say_source(call, source)?));
    };
    let done = done_after(alloc, call, row)?;
    if done < size_of(row) {
        Ok(Move::Say(say_unfinished(alloc, call, row, done)?))
    } else {
        ask_destination(alloc, call, body, row)
    }
}

// What is said where the source isn't read.
fn say_source(call: &Call, answer: &Answer) -> Result<Reply, AllocError>
    ensures { IfOk result (λ reply. reply ≡ source_reply call.now answer.now) }
{
    match answer {
        Answer::Refused(reason) => Ok(Reply::Refused(source_reason(*reason))),
        _ => say(call, None, answer),
    }
}

// The reason of a refusal, which names a precondition by its name for a source.
fn source_reason(reason: Reason) -> Reason
    ensures { result ≡ source_reason reason }
{
    match reason {
        Reason::Condition {
            which,
            wanted,
            found,
        } => Reason::Condition {
            which: source_key(which),
            wanted,
            found,
        },
        other => other,
    }
}

// The precondition by its name for a source.
fn source_key(key: Key) -> Key
    ensures { result ≡ source_key key }
{
    match key {
        Key::IfGenerationMatch => Key::IfSourceGenerationMatch,
        Key::IfGenerationNotMatch => Key::IfSourceGenerationNotMatch,
        Key::IfMetagenerationMatch => Key::IfSourceMetagenerationMatch,
        Key::IfMetagenerationNotMatch => Key::IfSourceMetagenerationNotMatch,
        other => other,
    }
}

fn size_of(row: &Row) -> u64
    ensures { result ≡ size_of row.now }
{
    row.hashed.content().len()
}

// The bytes of the source that are done with this call.
fn done_after(alloc: Global, call: &Call, row: &Row) -> Result<u64, AllocError>
    ensures { IfOk result (λ done. done ≡ done_after call.now row.now) }
{
    let token = token_given(alloc, call)?;
    Ok(done_with(call.per_call, done_before(&token), size_of(row)))
}

fn done_before(token: &Option<RewriteToken>) -> u64
    ensures { result ≡ done_before token.now }
{
    match token {
        Some(token) => token.done,
        None => 0,
    }
}

fn done_with(most: Option<u64>, before: u64, size: u64) -> u64
    ensures { result ≡ done_with most before size }
{
    match most {
        Some(most) => size.min(before.saturating_add(most)),
        None => size,
    }
}

// What is said of a rewrite of which so many bytes are done: with the token of the next call.
fn say_unfinished(alloc: Global, call: &Call, row: &Row, done: u64) -> Result<Reply, AllocError>
    requires object { NamesObject call.now }
    requires done { done ≡ done_after call.now row.now }
    ensures { IfOk result (λ reply. reply ≡ unfinished call.now row.now) }
{
    let token = RewriteToken {
        generation: row.generation,
        done,
        from_bucket: call.bucket().copy()?,
        from_name: call.object().copy()?,
        to_bucket: call.last_bucket().copy()?,
        to_name: call.last_object().copy()?,
    };
    let text = write_rewrite(alloc, &token)?;
    let reply = RewriteReply {
        size: size_of(row),
        rewritten: done,
        token: Some(text),
    };
    Ok(Reply::Rewritten {
        reply,
        object: None,
    })
}

// The version at the destination. Its content is that of the source, of which no byte is copied.
fn ask_destination(
    alloc: Global,
    call: &Call,
    body: &ObjectBody,
    row: &Row,
) -> Result<Move, AllocError>
    requires { NamesObject call.now }
    ensures { IfOk result (λ next. next ≡ destination_move call.now body.now row.now) }
{
    let place = call.last_bucket();
    let bucket = place.copy()?;
    let name = call.last_object().copy()?;
    let meta = copied_meta(alloc, body, &row.meta)?;
    let hashed = row.hashed.copy()?;
    Ok(ask(
        place,
        Command::Put {
            bucket,
            name,
            pre: call.pre,
            meta,
            hashed,
            components: row.components,
            expect: Expect {
                crc: None,
                md5: None,
            },
        },
    ))
}

// What is said of the destination.
fn say_copied(call: &Call, made: &Answer) -> Result<Reply, AllocError>
    ensures { IfOk result (λ reply. reply ≡ copied_reply call.now made.now) }
{
    match made {
        Answer::Object(row, settings) => say_object(call.kind(), row, settings),
        _ => say(call, None, made),
    }
}

// A rewrite is done, with the resource of the destination; a copy says that alone.
fn say_object(kind: RequestKind, row: &Row, settings: &Settings) -> Result<Reply, AllocError>
    ensures { IfOk result (λ reply. reply ≡ copied_object kind row.now settings.now) }
{
    let size = size_of(row);
    let row = row.copy()?;
    let settings = settings.copy()?;
    if !matches!(kind, RequestKind::ObjectRewrite) {
        return Ok(Reply::Object(row, settings));
    }
    let reply = RewriteReply {
        size,
        rewritten: size,
        token: None,
    };
    Ok(Reply::Rewritten {
        reply,
        object: Some((row, settings)),
    })
}
