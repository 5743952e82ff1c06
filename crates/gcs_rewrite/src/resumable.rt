//! What a resumable upload asks the store: its begin, its pieces, its end, and that it is cancelled.
ghost use Rattle.std.specs.Prelude.{◌≡◌, IfOk, IsSome};
ghost use Rattle.gcs_chunks.specs.Content.{ContentLiesIn};
ghost use Rattle.gcs_route.specs.OfCall.{NamesBucket};
ghost use Rattle.gcs_rewrite.specs.Commands.{append_move, cancel_move, finish_move, start_move, upload_name, upload_named};

use crate::made::{made_meta, made_name};
use crate::moves::{Move, ask};
use gcs_chunks::{Chunks, Content};
use gcs_json::ObjectBody;
use gcs_meaning::{Command, Copied, Hashed, Text};
use gcs_route::Call;
use std::alloc::{AllocError, Global};

/// The begin of a resumable upload, with what the body says of the object, and the length of its content where it is
/// told. `Err`: no memory.
pub fn ask_start(
    alloc: Global,
    call: &Call,
    body: &ObjectBody,
    kind: &Option<Text>,
    total: Option<u64>,
) -> Result<Move, AllocError>
    requires bucket { NamesBucket call.now }
    requires name { IsSome (upload_name call.now body.now) }
    ensures { IfOk result (λ next. next ≡ start_move call.now body.now kind.now total) }
{
    let place = call.bucket();
    let bucket = place.copy()?;
    let name = made_name(call, body)?;
    let meta = made_meta(alloc, body, kind, &call.encoding)?;
    let expect = body.expect;
    Ok(ask(
        place,
        Command::Start {
            bucket,
            name,
            pre: call.pre,
            meta,
            expect,
            total,
        },
    ))
}

/// A piece of a resumable upload. `Err`: no memory.
pub fn ask_append(
    call: &Call,
    offset: Option<u64>,
    total: Option<u64>,
    content: &Content,
) -> Result<Move, AllocError>
    requires bucket { NamesBucket call.now }
    requires upload { IsSome call.now.upload_id }
    ensures { IfOk result (λ next. next ≡ append_move call.now offset total content.now) }
{
    let place = call.bucket();
    let bucket = place.copy()?;
    let upload = upload_named(call);
    let content = content.copy()?;
    Ok(ask(
        place,
        Command::Append {
            bucket,
            upload,
            offset,
            total,
            content,
        },
    ))
}

/// The end of a resumable upload that is complete. Its bytes are digested here, once and before the step. `Err`: no
/// memory.
pub fn ask_finish(call: &Call, content: &Content, chunks: &Chunks) -> Result<Move, AllocError>
    requires bucket { NamesBucket call.now }
    requires upload { IsSome call.now.upload_id }
    requires lies { ContentLiesIn chunks.now content.now }
    ensures { IfOk result (λ next. next ≡ finish_move call.now content.now) }
{
    let place = call.bucket();
    let bucket = place.copy()?;
    let upload = upload_named(call);
    let hashed = Hashed::of(content.copy()?, chunks);
    Ok(ask(
        place,
        Command::Finish {
            bucket,
            upload,
            hashed,
        },
    ))
}

/// The cancelling of a resumable upload. `Err`: no memory.
pub fn ask_cancel(call: &Call) -> Result<Move, AllocError>
    requires bucket { NamesBucket call.now }
    requires upload { IsSome call.now.upload_id }
    ensures { IfOk result (λ next. next ≡ cancel_move call.now) }
{
    let place = call.bucket();
    let bucket = place.copy()?;
    let upload = upload_named(call);
    Ok(ask(place, Command::Cancel { bucket, upload }))
}

// The number of the upload that the call must name.
fn upload_named(call: &Call) -> u64
    requires { IsSome call.now.upload_id }
    ensures { result ≡ upload_named call.now }
{
    match call.upload_id {
        Some(upload) => upload,
        None => unreachable!(),
    }
}
