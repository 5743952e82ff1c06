//! What a head asks for, before its body has come.
ghost use Rattle.std.specs.Prelude.{◌≡◌, IfOk, IfErr, None, Ok, Err};
ghost use Rattle.gcs_http_in.specs.Head.{Head};
ghost use Rattle.gcs_route.specs.OfTable.{IsOfTable};
ghost use Rattle.gcs_request.specs.Heading.{part_of, part_with, parts_part, piece_part, range_asked, upload_part, IsCallOf, IsHeading, IsSeekable};
ghost use Rattle.gcs_request.specs.HeadTests.{head_refusal};
ghost use Rattle.gcs_request.specs.Heads.{boundary_in, is_encoded, piece_range_in, IsReadOf};

use crate::begins::begin_part;
use crate::head_tests::head_refusal;
use crate::heads::{
    HeadFields, boundary_of_field, is_given, method_by, range_of_field, text_of_field,
};
use crate::json_bodies::{GivenFault, invalid};
use crate::piece_ranges::{PieceRange, read_piece_range};
use gcs_meaning::{Key, List, Reason, Text};
use gcs_rewrite::Range;
use gcs_route::{Call, RequestKind, RouteFault, UploadKind, route};
use std::alloc::{AllocError, Global};

/// What a head asks for, before its body has come.
#[derive(Drop)]
pub enum Heading {
    Refused(Reason),
    Asks { call: Call, part: HeadPart },
}

/// What a head gives beside its call.
#[derive(Drop)]
pub enum HeadPart {
    Nothing,
    Read {
        range: Option<Range>,
    },
    /// A content comes.
    Whole {
        kind: Option<Text>,
    },
    /// A JSON text comes, which must not be encoded.
    Json {
        encoded: bool,
    },
    /// Two parts come, JSON and then a content, which must not be encoded.
    Parts {
        boundary: List<u8>,
        encoded: bool,
    },
    /// A resumable upload begins, and a JSON text comes, which must not be encoded. `kind` and `total`: the content type
    /// and the length in bytes of the whole content. `host`: that to which the message is sent.
    Begin {
        kind: Option<Text>,
        total: Option<u64>,
        host: Option<Text>,
        encoded: bool,
    },
    /// A piece of a resumable upload comes.
    Piece {
        range: PieceRange,
    },
}

/// What a head asks for. `Err`: no memory.
pub fn read_head(alloc: Global, fields: &HeadFields<'_>) -> Result<Heading, AllocError>
    ensures heading { IfOk result (λ heading. (head : Head) → IsReadOf head fields.now → IsHeading head heading) }
    ensures seekable { IfOk result (λ heading. IsSeekable (part_with heading)) }
{
    let method = method_by(fields.method, fields.method_override);
    match route(alloc, method, fields.target) {
        Ok(call) => heading_of(alloc, call, fields),
        Err(RouteFault::Refused(reason)) => Ok(Heading::Refused(reason)),
        Err(RouteFault::NoMemory) => Err(AllocError),
    }
}

// What the head of a call asks for.
fn heading_of(alloc: Global, call: Call, fields: &HeadFields<'_>) -> Result<Heading, AllocError>
    requires { IsOfTable call }
    ensures heading { IfOk result (λ heading. (head : Head) → IsReadOf head fields.now → IsCallOf head call → IsHeading head heading) }
    ensures seekable { IfOk result (λ heading. IsSeekable (part_with heading)) }
{
    match head_refusal(alloc, &call) {
        Ok(None) => with_part(alloc, call, fields),
        Ok(Some(reason)) => {
            drop(call);
            Ok(Heading::Refused(reason))
        }
        Err(error) => {
            drop(call);
            Err(error)
        }
    }
}

// The call with what the head gives beside it.
fn with_part(alloc: Global, call: Call, fields: &HeadFields<'_>) -> Result<Heading, AllocError>
    requires { head_refusal call ≡ None }
    ensures heading { IfOk result (λ heading. (head : Head) → IsReadOf head fields.now → IsCallOf head call → IsHeading head heading) }
    ensures seekable { IfOk result (λ heading. IsSeekable (part_with heading)) }
{
    match part_of(alloc, &call, fields) {
        Ok(part) => Ok(Heading::Asks { call, part }),
        Err(fault) => {
            drop(call);
            refused_by(fault)
        }
    }
}

// The refusal of a head for what it gives.
fn refused_by(fault: GivenFault) -> Result<Heading, AllocError>
    ensures { IfOk result (λ heading. (reason : Reason) × (fault ≡ GivenFault.Refused reason) × (heading ≡ Heading.Refused reason)) }
{
    match fault {
        GivenFault::Refused(reason) => Ok(Heading::Refused(reason)),
        GivenFault::NoMemory => Err(AllocError),
    }
}

fn part_of(alloc: Global, call: &Call, fields: &HeadFields<'_>) -> Result<HeadPart, GivenFault>
    ensures part { IfOk result (λ part. (head : Head) → IsReadOf head fields.now → part_of call.now head ≡ Ok part) }
    ensures refused { IfErr result (λ fault. (reason : Reason) → fault ≡ GivenFault.Refused reason
        → (head : Head) → IsReadOf head fields.now → part_of call.now head ≡ Err reason) }
    ensures seekable { IfOk result (λ part. IsSeekable part) }
{
    use RequestKind::*;

    match call.kind() {
        ObjectGet | Download => Ok(HeadPart::Read {
            range: range_asked(call, fields),
        }),
        Upload => upload_part(alloc, call.upload, fields),
        UploadPiece => piece_part(fields),
        BucketInsert
        | BucketPatch
        | BucketUpdate
        | ObjectPatch
        | ObjectUpdate
        | ObjectCompose
        | ObjectRewrite
        | ObjectCopy => Ok(HeadPart::Json {
            encoded: is_given(fields.content_encoding),
        }),
        _ => Ok(HeadPart::Nothing),
    }
}

// What the head of an upload gives: two parts, the begin of an upload in pieces, or a content alone.
fn upload_part(
    alloc: Global,
    upload: Option<UploadKind>,
    fields: &HeadFields<'_>,
) -> Result<HeadPart, GivenFault>
    ensures part { IfOk result (λ part. (head : Head) → IsReadOf head fields.now → upload_part upload head ≡ Ok part) }
    ensures refused { IfErr result (λ fault. (reason : Reason) → fault ≡ GivenFault.Refused reason
        → (head : Head) → IsReadOf head fields.now → upload_part upload head ≡ Err reason) }
    ensures seekable { IfOk result (λ part. IsSeekable part) }
{
    match upload {
        Some(UploadKind::Multipart) => parts_part(alloc, fields),
        Some(UploadKind::Resumable) => begin_part(alloc, fields),
        Some(UploadKind::Media) | None => match text_of_field(alloc, fields.content_type) {
            Ok(kind) => Ok(HeadPart::Whole { kind }),
            Err(_) => Err(GivenFault::NoMemory),
        },
    }
}

// What the head of a piece gives: where it lies, which the head has to tell.
fn piece_part(fields: &HeadFields<'_>) -> Result<HeadPart, GivenFault>
    ensures part { IfOk result (λ part. (head : Head) → IsReadOf head fields.now → piece_part (piece_range_in head) ≡ Ok part) }
    ensures refused { IfErr result (λ fault. (reason : Reason) → fault ≡ GivenFault.Refused reason
        → (head : Head) → IsReadOf head fields.now → piece_part (piece_range_in head) ≡ Err reason) }
    ensures seekable { IfOk result (λ part. IsSeekable part) }
{
    match read_piece_range(fields.content_range) {
        Some(range) => Ok(HeadPart::Piece { range }),
        None => Err(invalid(Key::ContentRange)),
    }
}

// What the head of two parts gives: their boundary, which its content type has to name.
fn parts_part(alloc: Global, fields: &HeadFields<'_>) -> Result<HeadPart, GivenFault>
    ensures part { IfOk result (λ part. (head : Head) → IsReadOf head fields.now → parts_part (boundary_in head) (is_encoded head) ≡ Ok part) }
    ensures refused { IfErr result (λ fault. (reason : Reason) → fault ≡ GivenFault.Refused reason
        → (head : Head) → IsReadOf head fields.now → parts_part (boundary_in head) (is_encoded head) ≡ Err reason) }
    ensures seekable { IfOk result (λ part. IsSeekable part) }
{
    let Some(boundary) = boundary_of_field(fields.content_type) else {
        return Err(invalid(Key::HeadContentType));
    };
    match Vec::from_slice(alloc, boundary) {
        Ok(boundary) => Ok(HeadPart::Parts {
            boundary: List::from_vec(boundary),
            encoded: is_given(fields.content_encoding),
        }),
        Err(_) => Err(GivenFault::NoMemory),
    }
}

// The range of bytes that is asked for.
fn range_asked(call: &Call, fields: &HeadFields<'_>) -> Option<Range>
    ensures { (head : Head) → IsReadOf head fields.now → result ≡ range_asked call.now head }
{
    if call.media {
        range_of_field(fields.range)
    } else {
        None
    }
}
