//! What a call asks the store: its one command.
ghost use Rattle.std.specs.Prelude.{◌≡◌, IfOk, IsSome};
ghost use Rattle.gcs_route.specs.OfCall.{request_kind, NamesBucket, NamesObject};
ghost use Rattle.gcs_rewrite.specs.Commands.{bare_move, bucket_change_move, bucket_move, change_move, compose_move, delete_move, first_move, get_move, insert_move, list_move, put_move, sets_all, upload_name};
ghost use Rattle.gcs_rewrite.specs.Fits.{HasFirstStep};

use crate::inserts::inserted_settings;
use crate::lists::query_of;
use crate::made::{made_meta, made_name};
use crate::moves::{Move, ask};
use crate::request::Given;
use crate::restores::{ask_bucket_restore, ask_lock, ask_restore};
use crate::resumable::{ask_append, ask_cancel, ask_start};
use gcs_json::{BucketBody, ComposeBody, ObjectBody};
use gcs_meaning::{Command, Copied, Hashed, Text};
use gcs_route::{Call, RequestKind};
use std::alloc::{AllocError, Global};

/// The first command of a request that isn't a list of buckets. `Err`: no memory.
pub fn first_move(alloc: Global, call: &Call, given: &Given) -> Result<Move, AllocError>
    requires { HasFirstStep call.now given.now }
    ensures { IfOk result (λ next. next ≡ first_move call.now given.now) }
{
    match given {
        Given::Nothing => ask_bare(alloc, call),
        Given::Read { .. } => ask_get(call),
        Given::Whole { body, kind, hashed } => ask_put(alloc, call, body, kind, hashed),
        Given::Begin {
            body,
            kind,
            total,
            ..
        } => ask_start(alloc, call, body, kind, *total),
        Given::Piece {
            offset,
            total,
            content,
        } => ask_append(call, *offset, *total, content),
        Given::Bucket(body) => ask_bucket(alloc, call, body),
        Given::Object(body) => ask_change(call, body),
        Given::Compose(body) => ask_compose(alloc, call, body),
    }
}

// The command of a call that gives nothing beside it.
fn ask_bare(alloc: Global, call: &Call) -> Result<Move, AllocError>
    requires { HasFirstStep call.now Given.Nothing }
    ensures { IfOk result (λ next. next ≡ bare_move (request_kind call.now) call.now) }
{
    let name = call.bucket();
    let pre = call.pre;
    match call.kind() {
        RequestKind::BucketGet => {
            let bucket = name.copy()?;
            Ok(ask(name, Command::BucketGet { bucket, pre }))
        }
        RequestKind::BucketDelete => {
            let bucket = name.copy()?;
            Ok(ask(name, Command::BucketDelete { bucket, pre }))
        }
        RequestKind::BucketLock => ask_lock(call),
        RequestKind::BucketRestore => ask_bucket_restore(call),
        RequestKind::ObjectList => ask_list(alloc, call),
        RequestKind::ObjectDelete => ask_delete(call),
        RequestKind::ObjectRestore => ask_restore(call),
        RequestKind::UploadCancel => ask_cancel(call),
        _ => unreachable!(),
    }
}

// The list of a bucket's objects.
fn ask_list(alloc: Global, call: &Call) -> Result<Move, AllocError>
    requires { NamesBucket call.now }
    ensures { IfOk result (λ next. next ≡ list_move call.now) }
{
    let place = call.bucket();
    let bucket = place.copy()?;
    let query = query_of(alloc, call)?;
    Ok(ask(place, Command::List { bucket, query }))
}

// The deletion of a version.
fn ask_delete(call: &Call) -> Result<Move, AllocError>
    requires { NamesObject call.now }
    ensures { IfOk result (λ next. next ≡ delete_move call.now) }
{
    let place = call.bucket();
    let bucket = place.copy()?;
    let name = call.object().copy()?;
    Ok(ask(
        place,
        Command::Delete {
            bucket,
            name,
            generation: call.generation,
            pre: call.pre,
        },
    ))
}

// The change of a version's metadata.
fn ask_change(call: &Call, body: &ObjectBody) -> Result<Move, AllocError>
    requires { NamesObject call.now }
    ensures { IfOk result (λ next. next ≡ change_move call.now body.now) }
{
    let place = call.bucket();
    let bucket = place.copy()?;
    let name = call.object().copy()?;
    let change = body.change.copy()?;
    Ok(ask(
        place,
        Command::Change {
            bucket,
            name,
            generation: call.generation,
            pre: call.pre,
            change,
            whole: sets_all(call.kind()),
        },
    ))
}

// Whether the request sets all that a patch sets in part.
fn sets_all(kind: RequestKind) -> bool
    ensures { result ≡ sets_all kind }
{
    matches!(kind, RequestKind::BucketUpdate | RequestKind::ObjectUpdate)
}

// The insert of a bucket, or its change.
fn ask_bucket(alloc: Global, call: &Call, body: &BucketBody) -> Result<Move, AllocError>
    requires { HasFirstStep call.now (Given.Bucket body.now) }
    ensures { IfOk result (λ next. next ≡ bucket_move (request_kind call.now) call.now body.now) }
{
    match call.kind() {
        RequestKind::BucketInsert => ask_insert(alloc, body),
        _ => ask_bucket_change(call, body),
    }
}

fn ask_insert(alloc: Global, body: &BucketBody) -> Result<Move, AllocError>
    requires { IsSome body.now.name }
    ensures { IfOk result (λ next. next ≡ insert_move body.now) }
{
    let Some(name) = &body.name else {
        unreachable!()
    };
    let bucket = name.copy()?;
    let settings = inserted_settings(alloc, body)?;
    Ok(ask(name, Command::BucketInsert { bucket, settings }))
}

fn ask_bucket_change(call: &Call, body: &BucketBody) -> Result<Move, AllocError>
    requires { NamesBucket call.now }
    ensures { IfOk result (λ next. next ≡ bucket_change_move call.now body.now) }
{
    let name = call.bucket();
    let bucket = name.copy()?;
    let change = body.change.copy()?;
    Ok(ask(
        name,
        Command::BucketChange {
            bucket,
            pre: call.pre,
            change,
            whole: sets_all(call.kind()),
        },
    ))
}

fn ask_get(call: &Call) -> Result<Move, AllocError>
    requires { NamesObject call.now }
    ensures { IfOk result (λ next. next ≡ get_move call.now) }
{
    let place = call.bucket();
    let bucket = place.copy()?;
    let name = call.object().copy()?;
    Ok(ask(
        place,
        Command::Get {
            bucket,
            name,
            generation: call.generation,
            soft: call.soft,
            pre: call.pre,
        },
    ))
}

// The upload of a whole content, by the name of the query, else by that of the body.
fn ask_put(
    alloc: Global,
    call: &Call,
    body: &ObjectBody,
    kind: &Option<Text>,
    hashed: &Hashed,
) -> Result<Move, AllocError>
    requires bucket { NamesBucket call.now }
    requires name { IsSome (upload_name call.now body.now) }
    ensures { IfOk result (λ next. next ≡ put_move call.now body.now kind.now hashed.now) }
{
    let place = call.bucket();
    let bucket = place.copy()?;
    let name = made_name(call, body)?;
    let meta = made_meta(alloc, body, kind, &call.encoding)?;
    let hashed = hashed.copy()?;
    Ok(ask(
        place,
        Command::Put {
            bucket,
            name,
            pre: call.pre,
            meta,
            hashed,
            components: None,
            expect: body.expect,
        },
    ))
}

// The version of the sources' bytes, with what the body says of it.
fn ask_compose(alloc: Global, call: &Call, body: &ComposeBody) -> Result<Move, AllocError>
    requires { NamesObject call.now }
    ensures { IfOk result (λ next. next ≡ compose_move call.now body.now) }
{
    let place = call.bucket();
    let bucket = place.copy()?;
    let name = call.object().copy()?;
    let meta = made_meta(alloc, &body.destination, &None, &None)?;
    let parts = body.parts.copy()?;
    Ok(ask(
        place,
        Command::Compose {
            bucket,
            name,
            pre: call.pre,
            meta,
            parts,
        },
    ))
}
