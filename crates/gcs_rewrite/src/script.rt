//! The script of a request: its moves, one after the other.
ghost use Rattle.std.specs.Prelude.{◌≡◌, IfOk, IsSome, length};
ghost use Rattle.gcs_route.specs.OfCall.{NamesBucket};
ghost use Rattle.gcs_rewrite.specs.Contents.{AnswersLieIn, MoveLiesIn, RequestLiesIn};
ghost use Rattle.gcs_rewrite.specs.Fits.{Fits, HasFirstStep};
ghost use Rattle.gcs_rewrite.specs.Resumable.{resume_script};
ghost use Rattle.gcs_rewrite.specs.Scripts.{script, single_script, MayFollow};

use crate::commands::first_move;
use crate::copies::next_copy;
use crate::lists::list_buckets;
use crate::moves::Move;
use crate::replies::say;
use crate::request::{Given, Request};
use crate::resumable::ask_finish;
use gcs_chunks::Chunks;
use gcs_meaning::Answer;
use gcs_route::{Call, RequestKind};
use std::alloc::{AllocError, Global};

/// The next move of a request after these answers. A shard that is asked may be asked for its command, and a request
/// asks sixteen times at most. What it asks and says lies in the chunks in which the request and the answers lie.
/// `Err`: no memory.
pub fn next(
    alloc: Global,
    request: &Request,
    answers: &[Answer],
    chunks: &Chunks,
) -> Result<Move, AllocError>
    requires fits { Fits request.now }
    requires contents { RequestLiesIn chunks.now request.now }
    requires answers { AnswersLieIn chunks.now answers.now }
    ensures next { IfOk result (λ next. next ≡ script request.now answers.now) }
    ensures allowed { IfOk result (λ next. MayFollow (length answers.now) next) }
    ensures lies { IfOk result (λ next. MoveLiesIn chunks.now next) }
{
    let Request { call, given } = request;
    match call.kind() {
        RequestKind::BucketList => list_buckets(alloc, call, answers),
        RequestKind::ObjectRewrite | RequestKind::ObjectCopy => {
            let Given::Object(body) = given else {
                unreachable!()
            };
            next_copy(alloc, call, body, answers)
        }
        RequestKind::UploadPiece => next_piece(alloc, call, given, answers, chunks),
        _ => next_single(alloc, call, given, answers),
    }
}

// The next move of a call with one step.
fn next_single(
    alloc: Global,
    call: &Call,
    given: &Given,
    answers: &[Answer],
) -> Result<Move, AllocError>
    requires { HasFirstStep call.now given.now }
    ensures { IfOk result (λ next. next ≡ single_script call.now given.now answers.now) }
{
    match answers {
        [] => first_move(alloc, call, given),
        [answer, ..] => Ok(Move::Say(say(call, given.range(), answer)?)),
    }
}

// The next move of a piece of a resumable upload, which is finished where it is complete.
fn next_piece(
    alloc: Global,
    call: &Call,
    given: &Given,
    answers: &[Answer],
    chunks: &Chunks,
) -> Result<Move, AllocError>
    requires first { HasFirstStep call.now given.now }
    requires bucket { NamesBucket call.now }
    requires upload { IsSome call.now.upload_id }
    requires answers { AnswersLieIn chunks.now answers.now }
    ensures { IfOk result (λ next. next ≡ resume_script call.now given.now answers.now) }
{
    match answers {
        [] => first_move(alloc, call, given),
        [Answer::Complete(content)] => ask_finish(call, content, chunks),
        [answer] | [_, answer, ..] => Ok(Move::Say(say(call, given.range(), answer)?)),
    }
}
