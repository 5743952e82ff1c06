//! The rows of the interface: method, path, and parameters in the order in which they are tested.
ghost use Rattle.std.specs.Prelude.{◌≡◌, map};
ghost use Rattle.gcs_route.specs.Params.{key_of, source_key_of};
ghost use Rattle.gcs_route.specs.Table.{routes, route_of};

use crate::kind::RequestKind;
use Condition::{GenerationIs, GenerationNot, MetagenerationIs, MetagenerationNot};
use Masking::{Kept, Tested, Unread};
use Param::*;
use RequestKind::*;
use gcs_meaning::Key;

/// A precondition: on the generation or the metageneration, that it is a number or that it isn't.
///
/// Source: Cloud Storage, "Request preconditions".
#[derive(Clone, Copy, Debug, PartialEq, Eq)]
pub(crate) enum Condition {
    GenerationIs,
    GenerationNot,
    MetagenerationIs,
    MetagenerationNot,
}

impl Condition {
    /// The key of the precondition.
    pub(crate) fn key(self) -> Key
        ensures { result ≡ key_of self }
    {
        match self {
            GenerationIs => Key::IfGenerationMatch,
            GenerationNot => Key::IfGenerationNotMatch,
            MetagenerationIs => Key::IfMetagenerationMatch,
            MetagenerationNot => Key::IfMetagenerationNotMatch,
        }
    }

    /// The key of the precondition on the source of a copy.
    pub(crate) fn source_key(self) -> Key
        ensures { result ≡ source_key_of self }
    {
        match self {
            GenerationIs => Key::IfSourceGenerationMatch,
            GenerationNot => Key::IfSourceGenerationNotMatch,
            MetagenerationIs => Key::IfSourceMetagenerationMatch,
            MetagenerationNot => Key::IfSourceMetagenerationNotMatch,
        }
    }
}

/// A parameter of a query. Where a key has other rules on other rows, it has a parameter for each.
#[derive(Clone, Copy, Debug, PartialEq, Eq)]
pub(crate) enum Param {
    Alt,
    /// `softDeleted`, with which media are not to be had.
    SoftOfGet,
    /// `generation`, without which no soft-deleted version is chosen.
    GenerationOfGet,
    Generation,
    If(Condition),
    UploadType,
    Name,
    ContentEncoding,
    Prefix,
    Delimiter,
    StartOffset,
    EndOffset,
    IncludeTrailingDelimiter,
    Versions,
    /// `softDeleted`, which does not go with `versions`.
    SoftOfList,
    MaxResults,
    PageToken,
    /// `alt`, which is tested, though a download is media whatever it says.
    AltOfDownload,
    /// `softDeleted`, which may not be true.
    SoftOfDownload,
    /// `generation`, which is required.
    NeededGeneration,
    /// `ifMetagenerationMatch`, which is required.
    NeededMetageneration,
    SourceGeneration,
    IfSource(Condition),
    MaxBytesRewrittenPerCall,
    RewriteToken,
    UploadId,
}

/// What a row does with `fields`, which is tested behind its parameters.
#[derive(Clone, Copy, Debug, PartialEq, Eq)]
pub(crate) enum Masking {
    Unread,
    /// A text that is no mask is refused.
    Tested,
    /// A text that is no mask stands in the call, since a token of the row is tested before it.
    Kept,
}

/// A row of the table. In its path `{bucket}` and `{object}` stand for names.
#[derive(Clone, Copy)]
pub(crate) struct Route {
    pub(crate) kind: RequestKind,
    pub(crate) method: &'static str,
    pub(crate) path: &'static [&'static str],
    pub(crate) params: &'static [Param],
    pub(crate) masking: Masking,
}

// Cloud Storage JSON API, the HTTP requests of "Buckets" and "Objects".
#[rattlefmt::skip]
static ROUTES: [Route; 21] = [
    Route { kind: BucketInsert, method: "POST",
        path: &["", "storage", "v1", "b"],
        params: &[], masking: Tested },
    Route { kind: BucketList, method: "GET",
        path: &["", "storage", "v1", "b"],
        params: &[Prefix, MaxResults, PageToken], masking: Kept },
    Route { kind: BucketGet, method: "GET",
        path: &["", "storage", "v1", "b", "{bucket}"],
        params: &[If(MetagenerationIs), If(MetagenerationNot)], masking: Tested },
    Route { kind: BucketPatch, method: "PATCH",
        path: &["", "storage", "v1", "b", "{bucket}"],
        params: &[If(MetagenerationIs), If(MetagenerationNot)], masking: Tested },
    Route { kind: BucketUpdate, method: "PUT",
        path: &["", "storage", "v1", "b", "{bucket}"],
        params: &[If(MetagenerationIs), If(MetagenerationNot)], masking: Tested },
    Route { kind: BucketDelete, method: "DELETE",
        path: &["", "storage", "v1", "b", "{bucket}"],
        params: &[If(MetagenerationIs), If(MetagenerationNot)], masking: Unread },
    Route { kind: BucketLock, method: "POST",
        path: &["", "storage", "v1", "b", "{bucket}", "lockRetentionPolicy"],
        params: &[NeededMetageneration], masking: Tested },
    Route { kind: BucketRestore, method: "POST",
        path: &["", "storage", "v1", "b", "{bucket}", "restore"],
        params: &[NeededGeneration], masking: Tested },
    Route { kind: ObjectList, method: "GET",
        path: &["", "storage", "v1", "b", "{bucket}", "o"],
        params: &[Prefix, Delimiter, StartOffset, EndOffset, IncludeTrailingDelimiter, Versions,
            SoftOfList, MaxResults, PageToken], masking: Kept },
    Route { kind: ObjectGet, method: "GET",
        path: &["", "storage", "v1", "b", "{bucket}", "o", "{object}"],
        params: &[Alt, SoftOfGet, GenerationOfGet, If(GenerationIs), If(GenerationNot),
            If(MetagenerationIs), If(MetagenerationNot)], masking: Tested },
    Route { kind: ObjectPatch, method: "PATCH",
        path: &["", "storage", "v1", "b", "{bucket}", "o", "{object}"],
        params: &[Generation, If(GenerationIs), If(GenerationNot), If(MetagenerationIs),
            If(MetagenerationNot)], masking: Tested },
    Route { kind: ObjectUpdate, method: "PUT",
        path: &["", "storage", "v1", "b", "{bucket}", "o", "{object}"],
        params: &[Generation, If(GenerationIs), If(GenerationNot), If(MetagenerationIs),
            If(MetagenerationNot)], masking: Tested },
    Route { kind: ObjectDelete, method: "DELETE",
        path: &["", "storage", "v1", "b", "{bucket}", "o", "{object}"],
        params: &[Generation, If(GenerationIs), If(GenerationNot), If(MetagenerationIs),
            If(MetagenerationNot)], masking: Unread },
    Route { kind: ObjectCompose, method: "POST",
        path: &["", "storage", "v1", "b", "{bucket}", "o", "{object}", "compose"],
        params: &[If(GenerationIs), If(MetagenerationIs)], masking: Tested },
    Route { kind: ObjectRewrite, method: "POST",
        path: &["", "storage", "v1", "b", "{bucket}", "o", "{object}", "rewriteTo", "b", "{bucket}",
            "o", "{object}"],
        params: &[SourceGeneration, IfSource(GenerationIs), IfSource(GenerationNot),
            IfSource(MetagenerationIs), IfSource(MetagenerationNot), If(GenerationIs),
            If(GenerationNot), If(MetagenerationIs), If(MetagenerationNot),
            MaxBytesRewrittenPerCall, RewriteToken], masking: Kept },
    Route { kind: ObjectCopy, method: "POST",
        path: &["", "storage", "v1", "b", "{bucket}", "o", "{object}", "copyTo", "b", "{bucket}",
            "o", "{object}"],
        params: &[SourceGeneration, IfSource(GenerationIs), IfSource(GenerationNot),
            IfSource(MetagenerationIs), IfSource(MetagenerationNot), If(GenerationIs),
            If(GenerationNot), If(MetagenerationIs), If(MetagenerationNot)], masking: Tested },
    Route { kind: ObjectRestore, method: "POST",
        path: &["", "storage", "v1", "b", "{bucket}", "o", "{object}", "restore"],
        params: &[NeededGeneration, If(GenerationIs), If(GenerationNot), If(MetagenerationIs),
            If(MetagenerationNot)], masking: Tested },
    Route { kind: Upload, method: "POST",
        path: &["", "upload", "storage", "v1", "b", "{bucket}", "o"],
        params: &[UploadType, Name, ContentEncoding, If(GenerationIs), If(GenerationNot),
            If(MetagenerationIs), If(MetagenerationNot)], masking: Tested },
    Route { kind: UploadPiece, method: "PUT",
        path: &["", "upload", "storage", "v1", "b", "{bucket}", "o"],
        params: &[UploadId], masking: Tested },
    Route { kind: UploadCancel, method: "DELETE",
        path: &["", "upload", "storage", "v1", "b", "{bucket}", "o"],
        params: &[UploadId], masking: Tested },
    Route { kind: Download, method: "GET",
        path: &["", "download", "storage", "v1", "b", "{bucket}", "o", "{object}"],
        params: &[AltOfDownload, SoftOfDownload, GenerationOfGet, If(GenerationIs),
            If(GenerationNot), If(MetagenerationIs), If(MetagenerationNot)], masking: Unread },
];

/// The rows, in their order.
#[tactic(auto, unfolding(crate::specs::Table::routes))]
pub(crate) fn all_routes() -> &'static [Route]
    ensures { map route_of result.now ≡ routes }
{
    &ROUTES
}
