//! The reply to a request: its script against the desk, and the text of what it says.
ghost use Rattle.std.specs.Prelude.{◌≡◌, ◌⊎◌, ℕ, Bool, List, ◌∷◌, [], false};
ghost use Rattle.gcs_chunks.specs.Content.{ChunksValue};
ghost use Rattle.gcs_io.specs.Told.{Gains};
ghost use Rattle.gcs_http_in.specs.declared.limits.Limits.{Limits};
ghost use Rattle.gcs_http_in.specs.Head.{Head};
ghost use Rattle.gcs_rewrite.specs.Contents.{RequestLiesIn};
ghost use Rattle.gcs_rewrite.specs.Fits.{Fits};
ghost use Rattle.gcs_reply.specs.Outgoing.{outgoing_bytes, OutgoingLiesIn};
ghost use Rattle.gcs_reply.specs.Replies.{memory_text, refusal_text};
ghost use Rattle.gcs_session.specs.Coming.{IsComing};
ghost use Rattle.gcs_session.specs.Contents.{ComingLiesIn, RanLiesIn};
ghost use Rattle.gcs_session.specs.Running.{lengths, GoesOn, RanTo};
ghost use Rattle.gcs_session.specs.Served.{IsAnswered, Replies};

use crate::coming::Coming;
use gcs_chunks::Chunks;
use gcs_io::Clock;
use gcs_meaning::{Desk, Reason};
use gcs_reply::{Form, Outgoing, memory_reply, write_refusal, write_reply};
use gcs_request::{Asked, request_of};
use gcs_rewrite::{Move, Reply, Request, next};
use std::alloc::Global;

/// The most moves that a script has: its steps, of which a list of buckets has one a shard, and what it says.
const MOVES: u8 = 17;

/// How a script ended, and whether it made a step.
#[derive(Drop)]
pub enum Ran {
    Said { reply: Reply, stepped: bool },
    Wanting { stepped: bool },
}

/// Asks the desk as the request's script goes, up to what it says.
pub fn run_script<D: Desk>(
    alloc: Global,
    desk: &mut D,
    chunks: &Chunks,
    request: &Request,
    moment: u64,
) -> Ran
    requires chunks { (D.stands desk.old).chunks ≡ chunks.now }
    requires fits { Fits request.now }
    requires contents { RequestLiesIn chunks.now request.now }
    ensures stands { D.stands desk.new ≡ D.stands desk.old }
    ensures goes_on { GoesOn (D.stands desk.old).caller (D.seen desk.old) (D.mine desk.old) (D.seen desk.new) (D.mine desk.new) }
    ensures ran { RanTo request.now moment (D.seen desk.new) (D.stands desk.old).caller (lengths (D.mine desk.old)) result (lengths (D.mine desk.new)) }
    ensures lies { RanLiesIn chunks.now result }
{
    let mut answers = Vec::new(alloc);
    for _ in 0..MOVES {
        let stepped = !answers.is_empty();
        match next(alloc, request, &answers, chunks) {
            Err(_) => return Ran::Wanting { stepped },
            Ok(Move::Say(reply)) => return Ran::Said { reply, stepped },
            Ok(Move::Ask { shard, command }) => match desk.call(shard, moment, command) {
                Err(unheld) => {
                    drop(unheld);
                    return Ran::Wanting { stepped };
                }
                Ok(answer) => match answers.push(answer) {
                    Ok(()) => {}
                    Err(answer) => {
                        drop(answer);
                        return Ran::Wanting { stepped: true };
                    }
                },
            },
        }
    }
    unreachable!()
}

/// The reply to a message that has come whole, at one reading of the clock.
pub fn respond<C: Clock, D: Desk>(
    alloc: Global,
    desk: &mut D,
    chunks: &Chunks,
    clock: &mut C,
    coming: Coming,
) -> Outgoing
    requires chunks { (D.stands desk.old).chunks ≡ chunks.now }
    requires coming { (limits : Limits) × (head : Head) × (body : List ℕ) × (keeps : Bool) × IsComing limits head body keeps coming }
    requires lies { ComingLiesIn chunks.now coming }
    ensures stands { D.stands desk.new ≡ D.stands desk.old }
    ensures goes_on { GoesOn (D.stands desk.old).caller (D.seen desk.old) (D.mine desk.old) (D.seen desk.new) (D.mine desk.new) }
    ensures reply { (moment : ℕ) × Gains (C.given clock.old) (C.given clock.new) (moment ∷ [])
        × ((limits : Limits) (head : Head) (body : List ℕ) (keeps : Bool) → IsComing limits head body keeps coming
        → Replies limits head body keeps moment (D.seen desk.new) (D.stands desk.old).caller (lengths (D.mine desk.old)) (outgoing_bytes result) (lengths (D.mine desk.new))) }
    ensures lies { OutgoingLiesIn chunks.now result }
{
    let moment = clock.now();
    let Coming {
        heading,
        body,
        form,
    } = coming;
    let Some(heading) = heading else {
        drop(body);
        return memory_reply(form, false);
    };
    let Ok(body) = body.finish(desk) else {
        drop(heading);
        return memory_reply(form, false);
    };
    match request_of(alloc, heading, body) {
        Err(_) => memory_reply(form, false),
        Ok(Asked::Refused(reason)) => refuse(alloc, form, &reason),
        Ok(Asked::Asks(request)) => {
            let outgoing = answer(alloc, desk, chunks, &request, moment, form);
            drop(request);
            outgoing
        }
    }
}

// The text of a refusal before any step.
fn refuse(alloc: Global, form: Form, reason: &Reason) -> Outgoing
    ensures text { (outgoing_bytes result ≡ refusal_text form reason.now) ⊎ (outgoing_bytes result ≡ memory_text form false) }
    ensures lies { (chunks : ChunksValue) → OutgoingLiesIn chunks result }
{
    match write_refusal(alloc, form, reason) {
        Ok(outgoing) => outgoing,
        Err(_) => memory_reply(form, false),
    }
}

// The text of what a request says.
fn answer<D: Desk>(
    alloc: Global,
    desk: &mut D,
    chunks: &Chunks,
    request: &Request,
    moment: u64,
    form: Form,
) -> Outgoing
    requires chunks { (D.stands desk.old).chunks ≡ chunks.now }
    requires fits { Fits request.now }
    requires contents { RequestLiesIn chunks.now request.now }
    ensures stands { D.stands desk.new ≡ D.stands desk.old }
    ensures goes_on { GoesOn (D.stands desk.old).caller (D.seen desk.old) (D.mine desk.old) (D.seen desk.new) (D.mine desk.new) }
    ensures said { IsAnswered form request.now moment (D.seen desk.new) (D.stands desk.old).caller (lengths (D.mine desk.old)) (outgoing_bytes result) (lengths (D.mine desk.new)) }
    ensures lies { OutgoingLiesIn chunks.now result }
{
    match run_script(alloc, desk, chunks, request, moment) {
        Ran::Wanting { stepped } => memory_reply(form, stepped),
        Ran::Said { reply, stepped } => {
            let outgoing = write_reply(alloc, form, request, &reply);
            drop(reply);
            match outgoing {
                Ok(outgoing) => outgoing,
                Err(_) => memory_reply(form, stepped),
            }
        }
    }
}
