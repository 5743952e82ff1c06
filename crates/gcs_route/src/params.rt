//! Parameters of a query, each tested and put into the call.
ghost use Rattle.std.specs.Prelude.{◌≡◌, IfOk, IfErr, OnOk, IsTrue, ◌↔◌, Some, codes, bytes_eq};
ghost use Rattle.gcs_route.specs.Filling.{number_of, given, flag_of, upload_of, most_of, with_condition, filled, all_filled};
ghost use Rattle.gcs_route.specs.Params.{text_at, IsFieldText, Accepts, IsFaultOf, AllAccepted, IsFirstFaultOf};

use crate::call::{Call, UploadKind};
use crate::fault::RouteFault;
use crate::table::{Condition, Param};
use crate::values::{count, flag, invalid, is_set, needed, number, required, text, text_or_empty};
use gcs_meaning::{Key, Pre, Text, key_text};
use gcs_names::{BadName, object_name};
use gcs_query::Query;
use std::alloc::Global;

/// Tests the parameters in their order and puts them into the call.
pub(crate) fn read_params(
    alloc: Global,
    query: &Query,
    call: &mut Call,
    params: &[Param],
) -> Result<(), RouteFault>
    ensures value { OnOk result (call.new ≡ all_filled query.now call.old params.now) }
    ensures right { OnOk result (AllAccepted query.now params.now) }
    ensures wrong { IfErr result (IsFirstFaultOf query.now params.now) }
{
    let Some((param, others)) = params.split_first() else {
        return Ok(());
    };
    read_param(alloc, query, call, *param)?;
    read_params(alloc, query, call, others)
}

fn read_param(alloc: Global, query: &Query, call: &mut Call, param: Param) -> Result<(), RouteFault>
    ensures value { OnOk result (call.new ≡ filled query.now call.old param) }
    ensures right { OnOk result (Accepts query.now param) }
    ensures wrong { IfErr result (IsFaultOf query.now param) }
{
    use Param::*;

    match param {
        Alt => call.media = alt(query)?,
        SoftOfGet => call.soft = soft_of_get(query)?,
        GenerationOfGet => call.generation = generation_of_get(query)?,
        Generation => call.generation = number(query, Key::Generation)?,
        If(which) => set(&mut call.pre, which, number(query, which.key())?),
        UploadType => call.upload = Some(upload_kind(query)?),
        Name => call.name = upload_name(alloc, query)?,
        ContentEncoding => call.encoding = encoding(alloc, query)?,
        Prefix => call.prefix = text_or_empty(alloc, query, "prefix")?,
        Delimiter => call.delimiter = text_or_empty(alloc, query, "delimiter")?,
        StartOffset => call.start = text(alloc, query, "startOffset")?,
        EndOffset => call.end = text(alloc, query, "endOffset")?,
        IncludeTrailingDelimiter => call.trailing = flag(query, Key::IncludeTrailingDelimiter)?,
        Versions => call.versions = flag(query, Key::Versions)?,
        SoftOfList => call.soft = soft_of_list(query)?,
        MaxResults => call.most = most(query)?,
        PageToken => call.page_token = text(alloc, query, key_text(Key::PageToken))?,
        AltOfDownload => {
            alt(query)?;
            call.media = true;
        }
        SoftOfDownload => soft_of_download(query)?,
        NeededGeneration => call.generation = needed(query, Key::Generation)?,
        NeededMetageneration => call.pre.metageneration_is = needed(
            query,
            Key::IfMetagenerationMatch,
        )?,
        SourceGeneration => call.source_generation = number(query, Key::SourceGeneration)?,
        IfSource(which) => set(
            &mut call.source_pre,
            which,
            number(query, which.source_key())?,
        ),
        MaxBytesRewrittenPerCall => call.per_call = per_call(query)?,
        RewriteToken => call.rewrite_token = text(alloc, query, key_text(Key::RewriteToken))?,
        UploadId => call.upload_id = upload_id(query)?,
    }
    Ok(())
}

// Sets a precondition.
fn set(pre: &mut Pre, which: Condition, number: Option<u64>)
    ensures { pre.new ≡ with_condition which number pre.old }
{
    match which {
        Condition::GenerationIs => pre.generation_is = number,
        Condition::GenerationNot => pre.generation_not = number,
        Condition::MetagenerationIs => pre.metageneration_is = number,
        Condition::MetagenerationNot => pre.metageneration_not = number,
    }
}

// Whether media are asked for, and not JSON.
fn alt(query: &Query) -> Result<bool, RouteFault>
    ensures value { IfOk result (λ media. media ≡ bytes_eq (text_at query.now Key.Alt) (codes "media")) }
    ensures right { IfOk result (λ _. Accepts query.now Param.Alt) }
    ensures wrong { IfErr result (IsFaultOf query.now Param.Alt) }
{
    let Some(text) = query.text(key_text(Key::Alt)) else {
        return Ok(false);
    };
    if text == "media" {
        Ok(true)
    } else if text == "json" {
        Ok(false)
    } else {
        Err(invalid(Key::Alt))
    }
}

// Whether media are asked for.
fn is_media(query: &Query) -> bool
    ensures { result ≡ bytes_eq (text_at query.now Key.Alt) (codes "media") }
{
    query.text(key_text(Key::Alt)) == Some("media")
}

// The flag `softDeleted` of a read, which media have not.
fn soft_of_get(query: &Query) -> Result<bool, RouteFault>
    ensures value { IfOk result (λ soft. soft ≡ flag_of (text_at query.now Key.SoftDeleted)) }
    ensures right { IfOk result (λ _. Accepts query.now Param.SoftOfGet) }
    ensures wrong { IfErr result (IsFaultOf query.now Param.SoftOfGet) }
{
    let soft = flag(query, Key::SoftDeleted)?;
    if soft && is_media(query) {
        return Err(invalid(Key::SoftDeleted));
    }
    Ok(soft)
}

// The generation of a read, which a soft-deleted version is chosen by.
fn generation_of_get(query: &Query) -> Result<Option<u64>, RouteFault>
    ensures value { IfOk result (λ n. n ≡ number_of (text_at query.now Key.Generation)) }
    ensures right { IfOk result (λ _. Accepts query.now Param.GenerationOfGet) }
    ensures wrong { IfErr result (IsFaultOf query.now Param.GenerationOfGet) }
{
    let generation = number(query, Key::Generation)?;
    if generation.is_none() && is_set(query, Key::SoftDeleted) {
        return Err(required(Key::Generation));
    }
    Ok(generation)
}

// How the upload is made.
fn upload_kind(query: &Query) -> Result<UploadKind, RouteFault>
    ensures value { IfOk result (λ kind. Some kind ≡ upload_of (text_at query.now Key.UploadType)) }
    ensures right { IfOk result (λ _. Accepts query.now Param.UploadType) }
    ensures wrong { IfErr result (IsFaultOf query.now Param.UploadType) }
{
    let Some(text) = query.text(key_text(Key::UploadType)) else {
        return Err(required(Key::UploadType));
    };
    if text == "media" {
        Ok(UploadKind::Media)
    } else if text == "multipart" {
        Ok(UploadKind::Multipart)
    } else if text == "resumable" {
        Ok(UploadKind::Resumable)
    } else {
        Err(invalid(Key::UploadType))
    }
}

// The name of an upload.
fn upload_name(alloc: Global, query: &Query) -> Result<Option<Text>, RouteFault>
    ensures value { IfOk result (λ name. name ≡ given (text_at query.now Key.Name)) }
    ensures right { IfOk result (λ _. Accepts query.now Param.Name) }
    ensures wrong { IfErr result (IsFaultOf query.now Param.Name) }
{
    let Some(text) = query.text(key_text(Key::Name)) else {
        return Ok(None);
    };
    match object_name(alloc, text.as_bytes()) {
        Ok(_) => Ok(Some(Text::from_str(alloc, text)?)),
        Err(BadName::Form) => Err(invalid(Key::Name)),
        Err(BadName::NoMemory) => Err(RouteFault::NoMemory),
    }
}

// The encoding of an upload's content.
fn encoding(alloc: Global, query: &Query) -> Result<Option<Text>, RouteFault>
    ensures value { IfOk result (λ name. name ≡ given (text_at query.now Key.ContentEncoding)) }
    ensures right { IfOk result (λ _. Accepts query.now Param.ContentEncoding) }
    ensures wrong { IfErr result (IsFaultOf query.now Param.ContentEncoding) }
{
    let Some(text) = query.text(key_text(Key::ContentEncoding)) else {
        return Ok(None);
    };
    if !is_field_text(text) {
        return Err(invalid(Key::ContentEncoding));
    }
    Ok(Some(Text::from_str(alloc, text)?))
}

fn is_field_text(text: &str) -> bool
    ensures { IsTrue result ↔ IsFieldText text.now }
{
    let bytes = text.as_bytes();
    bytes.len() <= 1024 && bytes.iter().all(|byte| *byte >= 32 && *byte != 127)
}

// The flag `softDeleted` of a listing, which goes with no `versions`.
fn soft_of_list(query: &Query) -> Result<bool, RouteFault>
    ensures value { IfOk result (λ soft. soft ≡ flag_of (text_at query.now Key.SoftDeleted)) }
    ensures right { IfOk result (λ _. Accepts query.now Param.SoftOfList) }
    ensures wrong { IfErr result (IsFaultOf query.now Param.SoftOfList) }
{
    let soft = flag(query, Key::SoftDeleted)?;
    if soft && is_set(query, Key::Versions) {
        return Err(invalid(Key::SoftDeleted));
    }
    Ok(soft)
}

// How many a page has at most.
fn most(query: &Query) -> Result<u32, RouteFault>
    ensures value { IfOk result (λ n. n ≡ most_of (number_of (text_at query.now Key.MaxResults))) }
    ensures right { IfOk result (λ _. Accepts query.now Param.MaxResults) }
    ensures wrong { IfErr result (IsFaultOf query.now Param.MaxResults) }
{
    match count(query, Key::MaxResults)? {
        Some(number) if number < 1000 => Ok(number as u32),
        _ => Ok(1000),
    }
}

// The flag `softDeleted` of a download, which has to be false.
fn soft_of_download(query: &Query) -> Result<(), RouteFault>
    ensures right { OnOk result (Accepts query.now Param.SoftOfDownload) }
    ensures wrong { IfErr result (IsFaultOf query.now Param.SoftOfDownload) }
{
    if flag(query, Key::SoftDeleted)? {
        return Err(invalid(Key::SoftDeleted));
    }
    Ok(())
}

// The bytes that a rewrite may copy in one call.
fn per_call(query: &Query) -> Result<Option<u64>, RouteFault>
    ensures value { IfOk result (λ n. n ≡ number_of (text_at query.now Key.MaxBytesRewrittenPerCall)) }
    ensures right { IfOk result (λ _. Accepts query.now Param.MaxBytesRewrittenPerCall) }
    ensures wrong { IfErr result (IsFaultOf query.now Param.MaxBytesRewrittenPerCall) }
{
    match count(query, Key::MaxBytesRewrittenPerCall)? {
        Some(number) => {
            if number % 1_048_576 == 0 {
                Ok(Some(number))
            } else {
                Err(invalid(Key::MaxBytesRewrittenPerCall))
            }
        }
        None => Ok(None),
    }
}

// The number of an upload.
fn upload_id(query: &Query) -> Result<Option<u64>, RouteFault>
    ensures value { IfOk result (λ n. n ≡ number_of (text_at query.now Key.UploadId)) }
    ensures right { IfOk result (λ _. Accepts query.now Param.UploadId) }
    ensures wrong { IfErr result (IsFaultOf query.now Param.UploadId) }
{
    match count(query, Key::UploadId)? {
        Some(number) => Ok(Some(number)),
        None => Err(required(Key::UploadId)),
    }
}
