//! What a message asks for, once its body has come.
ghost use Rattle.std.specs.Prelude.{◌≡◌, ℕ, List, IfOk, IfErr};
ghost use Rattle.gcs_chunks.specs.Content.{bytes_of, ChunksValue, ContentLiesIn};
ghost use Rattle.gcs_http_in.specs.declared.limits.Limits.{Limits};
ghost use Rattle.gcs_http_in.specs.Head.{Head};
ghost use Rattle.gcs_request.specs.Bodies.{IsCome, IsTextCome};
ghost use Rattle.gcs_request.specs.Contents.{AskedLiesIn, ComeLiesIn};
ghost use Rattle.gcs_request.specs.Heading.{part_with, IsHeading};
ghost use Rattle.gcs_request.specs.Begins.{IsBeginFault, IsBegun};
ghost use Rattle.gcs_request.specs.Parts.{IsPartsFault};
ghost use Rattle.gcs_request.specs.UploadJson.{IsNamed};
ghost use Rattle.gcs_request.specs.Requests.{IsAsked, IsAskedFit, IsBodyFault, IsGiven};
ghost use Rattle.gcs_route.specs.declared.kind.RequestKind.TheVariants.{UploadPiece};
ghost use Rattle.gcs_rewrite.specs.Contents.{GivenLiesIn};
ghost use Rattle.gcs_rewrite.specs.Fits.{Fits, IsGivenInLimits, IsGivenOn};

use crate::bodies::Come;
use crate::heading::{HeadPart, Heading};
use crate::json_bodies::{GivenFault, invalid, read_given, says_nothing};
use crate::piece_ranges::{PieceRange, piece_of};
use crate::upload_json::read_upload;
use gcs_chunks::Content;
use gcs_json::ObjectBody;
use gcs_meaning::{Key, Reason, Text};
use gcs_rewrite::{Given, Request};
use gcs_route::Call;
use std::alloc::{AllocError, Global};

/// A request, or the reason why it is refused before any step.
#[derive(Drop)]
pub enum Asked {
    Refused(Reason),
    Asks(Request),
}

/// What a message with this head asks for, whose body has come. `Err`: no memory.
pub fn request_of(alloc: Global, heading: Heading, body: Come) -> Result<Asked, AllocError>
    requires { (most : ℕ) × (bytes : List ℕ) × IsCome most (part_with heading) bytes body }
    ensures asked { IfOk result (λ asked. (limits : Limits) (head : Head) (bytes : List ℕ) → IsHeading head heading
        → IsCome limits.json (part_with heading) bytes body → IsAsked limits head bytes asked) }
    ensures fits { IfOk result (λ asked. (head : Head) → IsHeading head heading → IsAskedFit asked) }
    ensures lies { IfOk result (λ asked. (chunks : ChunksValue) → ComeLiesIn chunks body → AskedLiesIn chunks asked) }
{
    match heading {
        Heading::Refused(reason) => {
            drop(body);
            Ok(Asked::Refused(reason))
        }
        Heading::Asks { call, part } => match given_of(alloc, &call, part, body) {
            Ok(given) => Ok(Asked::Asks(Request { call, given })),
            Err(fault) => {
                drop(call);
                refused_by(fault)
            }
        },
    }
}

// The refusal of a body.
fn refused_by(fault: GivenFault) -> Result<Asked, AllocError>
    ensures { IfOk result (λ asked. (reason : Reason) × (fault ≡ GivenFault.Refused reason) × (asked ≡ Asked.Refused reason)) }
{
    match fault {
        GivenFault::Refused(reason) => Ok(Asked::Refused(reason)),
        GivenFault::NoMemory => Err(AllocError),
    }
}

// What a message gives whose head gives this part.
fn given_of(alloc: Global, call: &Call, part: HeadPart, body: Come) -> Result<Given, GivenFault>
    requires { (most : ℕ) × (bytes : List ℕ) × IsCome most part bytes body }
    ensures given { IfOk result (λ given. (most : ℕ) (bytes : List ℕ) → IsCome most part bytes body → IsGiven most call.now part bytes given) }
    ensures refused { IfErr result (λ fault. (reason : Reason) → fault ≡ GivenFault.Refused reason
        → (most : ℕ) (bytes : List ℕ) → IsCome most part bytes body → IsBodyFault most call.now part bytes reason) }
    ensures fits { IfOk result (λ given. (head : Head) → IsHeading head (Heading.Asks call.now part) → Fits (record { call = call.now; given = given })) }
    ensures lies { IfOk result (λ given. (chunks : ChunksValue) → ComeLiesIn chunks body → GivenLiesIn chunks given) }
{
    match part {
        HeadPart::Nothing => {
            drop(body);
            Ok(Given::Nothing)
        }
        HeadPart::Read { range } => {
            drop(body);
            Ok(Given::Read { range })
        }
        HeadPart::Whole { kind } => match body {
            Come::Content(hashed) => Ok(Given::Whole {
                body: says_nothing(),
                kind,
                hashed,
            }),
            _ => unreachable!(),
        },
        HeadPart::Json { encoded } => match body {
            Come::Text(text) => read_given(alloc, call.kind(), encoded, &text),
            Come::TooLong => Err(GivenFault::Refused(Reason::TooLong)),
            _ => unreachable!(),
        },
        HeadPart::Parts { boundary, encoded } => {
            drop(boundary);
            given_of_parts(alloc, call, encoded, body)
        }
        HeadPart::Begin {
            kind,
            total,
            host,
            encoded,
        } => given_of_begin(alloc, call, kind, total, host, encoded, body),
        HeadPart::Piece { range } => match body {
            Come::Piece(content) => given_of_piece(range, content),
            _ => unreachable!(),
        },
    }
}

// What a message gives whose body has parts: it is tested for the length of the first one, whether it is encoded, for
// its parts, and then for what its JSON says.
fn given_of_parts(
    alloc: Global,
    call: &Call,
    encoded: bool,
    body: Come,
) -> Result<Given, GivenFault>
    requires { (most : ℕ) × (boundary : List ℕ) × (bytes : List ℕ) × IsCome most (HeadPart.Parts boundary encoded) bytes body }
    ensures given { IfOk result (λ given. (most : ℕ) (boundary bytes : List ℕ) → IsCome most (HeadPart.Parts boundary encoded) bytes body
        → IsGiven most call.now (HeadPart.Parts boundary encoded) bytes given) }
    ensures refused { IfErr result (λ fault. (reason : Reason) → fault ≡ GivenFault.Refused reason
        → (most : ℕ) (boundary bytes : List ℕ) → IsCome most (HeadPart.Parts boundary encoded) bytes body
        → IsPartsFault most call.now boundary encoded bytes reason) }
    ensures fits { IfOk result (λ given. (head : Head) (boundary : List ℕ) → IsHeading head (Heading.Asks call.now (HeadPart.Parts boundary encoded))
        → Fits (record { call = call.now; given = given })) }
    ensures lies { IfOk result (λ given. (chunks : ChunksValue) → ComeLiesIn chunks body → GivenLiesIn chunks given) }
{
    match body {
        Come::TooLong => Err(GivenFault::Refused(Reason::TooLong)),
        Come::OtherParts if encoded => Err(invalid(Key::HeadContentEncoding)),
        Come::OtherParts => Err(invalid(Key::Body)),
        Come::Two { text, kind, hashed } if encoded => {
            drop((text, kind, hashed));
            Err(invalid(Key::HeadContentEncoding))
        }
        Come::Two { text, kind, hashed } => match read_upload(alloc, call, &text) {
            Ok(body) => Ok(Given::Whole { body, kind, hashed }),
            Err(fault) => {
                drop((kind, hashed));
                Err(fault)
            }
        },
        Come::PassedOver | Come::Content(_) | Come::Piece(_) | Come::Text(_) => unreachable!(),
    }
}

// What the begin of a resumable upload gives.
fn given_of_begin(
    alloc: Global,
    call: &Call,
    kind: Option<Text>,
    total: Option<u64>,
    host: Option<Text>,
    encoded: bool,
    body: Come,
) -> Result<Given, GivenFault>
    requires { (most : ℕ) × (bytes : List ℕ) × IsTextCome most bytes body }
    ensures given { IfOk result (λ given. (most : ℕ) (bytes : List ℕ) → IsTextCome most bytes body
        → IsGiven most call.now (HeadPart.Begin kind total host encoded) bytes given) }
    ensures refused { IfErr result (λ fault. (reason : Reason) → fault ≡ GivenFault.Refused reason
        → (most : ℕ) (bytes : List ℕ) → IsTextCome most bytes body → IsBeginFault most call.now encoded bytes reason) }
    ensures fits { IfOk result (λ given. (head : Head) → IsHeading head (Heading.Asks call.now (HeadPart.Begin kind total host encoded))
        → Fits (record { call = call.now; given = given })) }
    ensures lies { IfOk result (λ given. (chunks : ChunksValue) → GivenLiesIn chunks given) }
{
    match read_begin(alloc, call, encoded, body) {
        Ok(body) => Ok(Given::Begin {
            body,
            kind,
            total,
            host,
        }),
        Err(fault) => {
            drop((kind, host));
            Err(fault)
        }
    }
}

// What the body of the begin of a resumable upload says: it is tested for its length, whether it is encoded, and then for
// what it says.
fn read_begin(
    alloc: Global,
    call: &Call,
    encoded: bool,
    body: Come,
) -> Result<ObjectBody, GivenFault>
    requires { (most : ℕ) × (bytes : List ℕ) × IsTextCome most bytes body }
    ensures begun { IfOk result (λ read. (most : ℕ) (bytes : List ℕ) → IsTextCome most bytes body → IsBegun most call.now encoded bytes read) }
    ensures named { IfOk result (λ read. IsNamed call.now.name read.name) }
    ensures refused { IfErr result (λ fault. (reason : Reason) → fault ≡ GivenFault.Refused reason
        → (most : ℕ) (bytes : List ℕ) → IsTextCome most bytes body → IsBeginFault most call.now encoded bytes reason) }
{
    match body {
        Come::TooLong => Err(GivenFault::Refused(Reason::TooLong)),
        Come::Text(text) if encoded => {
            drop(text);
            Err(invalid(Key::HeadContentEncoding))
        }
        Come::Text(text) => read_upload(alloc, call, &text),
        _ => unreachable!(),
    }
}

// What a piece of a resumable upload gives, if it has the size that its head tells.
fn given_of_piece(range: PieceRange, content: Content) -> Result<Given, GivenFault>
    ensures given { IfOk result (λ given. (most : ℕ) (call : Call) (bytes : List ℕ) → bytes_of content ≡ bytes
        → IsGiven most call (HeadPart.Piece range) bytes given) }
    ensures refused { IfErr result (λ fault. (reason : Reason) → fault ≡ GivenFault.Refused reason
        → (most : ℕ) (call : Call) (bytes : List ℕ) → bytes_of content ≡ bytes → IsBodyFault most call (HeadPart.Piece range) bytes reason) }
    ensures fits { IfOk result (λ given. (call : Call) → IsGivenOn UploadPiece call given) }
    ensures limits { IfOk result (λ given. IsGivenInLimits given) }
    ensures lies { IfOk result (λ given. (chunks : ChunksValue) → ContentLiesIn chunks content → GivenLiesIn chunks given) }
{
    match piece_of(range, content.len()) {
        Some((offset, total)) => Ok(Given::Piece {
            offset,
            total,
            content,
        }),
        None => {
            drop(content);
            Err(invalid(Key::ContentRange))
        }
    }
}
