//! Why a request is refused.
ghost use Rattle.std.specs.Prelude.{◌≡◌, IfOk};
ghost use Rattle.gcs_meaning.specs.Refusals.{status_of, word_of, message_of};

use crate::refusals::message_text;
use crate::text::Text;
use std::alloc::{AllocError, Global};

/// The parts of a request that a message can name: those of the path, its parameters, the fields of the JSON and of the
/// head.
#[derive(Clone, Copy, Debug, PartialEq, Eq)]
pub enum Key {
    Bucket,
    Object,
    Query,
    Body,
    MaxResults,
    PageToken,
    IfMetagenerationMatch,
    IfMetagenerationNotMatch,
    Generation,
    IncludeTrailingDelimiter,
    Versions,
    SoftDeleted,
    Alt,
    IfGenerationMatch,
    IfGenerationNotMatch,
    SourceGeneration,
    IfSourceGenerationMatch,
    IfSourceGenerationNotMatch,
    IfSourceMetagenerationMatch,
    IfSourceMetagenerationNotMatch,
    MaxBytesRewrittenPerCall,
    RewriteToken,
    UploadType,
    Name,
    ContentEncoding,
    UploadId,
    CacheControl,
    ContentDisposition,
    ContentLanguage,
    ContentType,
    Crc32c,
    Md5Hash,
    CustomTime,
    EventBasedHold,
    TemporaryHold,
    Metadata,
    StorageClass,
    DefaultEventBasedHold,
    Labels,
    Lifecycle,
    Location,
    RetentionPolicy,
    SoftDeletePolicy,
    Versioning,
    Destination,
    SourceObjects,
    XUploadContentLength,
    ContentRange,
    /// The head's field, where `ContentType` is that of the JSON.
    HeadContentType,
    /// The head's field, where `ContentEncoding` is that of the JSON or of the query.
    HeadContentEncoding,
}

/// A digest that was given or found.
#[derive(Clone, Copy, Debug, PartialEq, Eq)]
pub enum Digest {
    Crc(u32),
    Md5([u8; 16]),
}

/// Why a request is refused. Numbers of bytes are sizes, offsets and lengths; moments are in microseconds since 1970;
/// periods (`kept` and `asked` of `Locked`) in seconds. 0 stands for the removal of what was `asked` for.
///
/// Source: Cloud Storage JSON API, "HTTP status and error codes"; docs/PROTOCOL.md, "Refusals".
#[derive(Clone, Copy, Debug, PartialEq, Eq)]
pub enum Reason {
    NoPath,
    NoMethod,
    NotBuilt,
    Required { key: Key },
    Invalid { key: Key },
    /// `place` is the number of bytes of the longest prefix that begins some mask.
    BadMask { place: u64 },
    TooLong,
    NoBucket,
    NoObject,
    NoUpload,
    NoGrave,
    /// The source of this number, from 0.
    NoSource { i: u64 },
    Gone { expired: bool },
    Condition { which: Key, wanted: u64, found: u64 },
    SourceCondition { i: u64, wanted: u64, found: u64 },
    Exists,
    NotEmpty,
    Held { event: bool },
    Retained { until: u64, now: u64 },
    Locked { kept: u64, asked: u64 },
    NoPolicy,
    TimeBack { had: u64, asked: u64 },
    MetadataTooLong { length: u64 },
    HashDiffers { given: Digest, found: Digest },
    TooLarge { size: u64 },
    Unsatisfiable { size: u64 },
    Beyond { offset: u64, kept: u64 },
    BadStep { length: u64 },
    TotalDiffers { given: u64, known: u64 },
}

impl Reason {
    /// The status of the reply.
    pub fn status(&self) -> u16
        ensures { result ≡ status_of self.now }
    {
        match self {
            Reason::NoPath
            | Reason::NoBucket
            | Reason::NoObject
            | Reason::NoUpload
            | Reason::NoGrave
            | Reason::NoSource { .. } => 404,
            Reason::NoMethod => 405,
            Reason::NotBuilt => 501,
            Reason::TooLong | Reason::TooLarge { .. } => 413,
            Reason::Gone { .. } => 410,
            Reason::Condition { .. } | Reason::SourceCondition { .. } => 412,
            Reason::Exists | Reason::NotEmpty => 409,
            Reason::Held { .. } | Reason::Retained { .. } | Reason::Locked { .. } => 403,
            Reason::Unsatisfiable { .. } => 416,
            Reason::Required { .. }
            | Reason::Invalid { .. }
            | Reason::BadMask { .. }
            | Reason::NoPolicy
            | Reason::TimeBack { .. }
            | Reason::MetadataTooLong { .. }
            | Reason::HashDiffers { .. }
            | Reason::Beyond { .. }
            | Reason::BadStep { .. }
            | Reason::TotalDiffers { .. } => 400,
        }
    }

    /// The word that the reply's JSON shows as `reason`.
    pub fn word(&self) -> &'static str
        ensures { result.now ≡ word_of self.now }
    {
        match self {
            Reason::NoPath
            | Reason::NoBucket
            | Reason::NoObject
            | Reason::NoUpload
            | Reason::NoGrave
            | Reason::NoSource { .. } => "notFound",
            Reason::NoMethod => "methodNotAllowed",
            Reason::NotBuilt => "notBuilt",
            Reason::Required { .. } => "required",
            Reason::TooLong => "tooLong",
            Reason::Gone { .. } => "gone",
            Reason::Condition { .. } | Reason::SourceCondition { .. } => "conditionNotMet",
            Reason::Exists | Reason::NotEmpty => "conflict",
            Reason::Held { .. } => "objectUnderActiveHold",
            Reason::Retained { .. } => "retentionPolicyNotMet",
            Reason::Locked { .. } => "retentionPolicyLocked",
            Reason::TooLarge { .. } => "uploadTooLarge",
            Reason::Unsatisfiable { .. } => "requestedRangeNotSatisfiable",
            Reason::Invalid { .. }
            | Reason::BadMask { .. }
            | Reason::NoPolicy
            | Reason::TimeBack { .. }
            | Reason::MetadataTooLong { .. }
            | Reason::HashDiffers { .. }
            | Reason::Beyond { .. }
            | Reason::BadStep { .. }
            | Reason::TotalDiffers { .. } => "invalid",
        }
    }

    /// The message of the reply's JSON. `Err`: no memory.
    pub fn message(&self, alloc: Global) -> Result<Text, AllocError>
        ensures { IfOk result (λ text. text ≡ message_of self.now) }
    {
        Ok(Text::from_string(message_text(alloc, *self)?))
    }
}
