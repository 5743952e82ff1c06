//! The messages of refusals.
ghost use Rattle.std.specs.Prelude.{◌≡◌, IfOk, string_bytes};
ghost use Rattle.gcs_meaning.specs.Refusals.{key_name, digest_name, digest_text, message_of};

use crate::reason::{Digest, Key, Reason};
use gcs_crc::{crc_text, md5_text};
use std::alloc::{AllocError, Global};

pub fn message_text(alloc: Global, reason: Reason) -> Result<String, AllocError>
    ensures { IfOk result (λ text. string_bytes text ≡ message_of reason) }
{
    match reason {
        Reason::NoPath => text_of(alloc, "no such path"),
        Reason::NoMethod => text_of(alloc, "no such method"),
        Reason::NotBuilt => text_of(alloc, "not built"),
        Reason::Required { key } => Ok(format!(in alloc; "required: {}", key_text(key))?),
        Reason::Invalid { key } => Ok(format!(in alloc; "invalid: {}", key_text(key))?),
        Reason::BadMask { place } => Ok(format!(in alloc; "fields: no mask at {place}")?),
        Reason::TooLong => text_of(alloc, "JSON over 1048576 bytes"),
        Reason::NoBucket => text_of(alloc, "no bucket"),
        Reason::NoObject => text_of(alloc, "no object"),
        Reason::NoUpload => text_of(alloc, "no upload"),
        Reason::NoGrave => text_of(alloc, "no deleted bucket"),
        Reason::NoSource { i } => Ok(format!(in alloc; "no source {i}")?),
        Reason::Gone { expired: true } => text_of(alloc, "upload expired"),
        Reason::Gone { expired: false } => text_of(alloc, "upload cancelled"),
        Reason::Condition {
            which,
            wanted,
            found,
        } => { Ok(format!(in alloc; "{}: wanted {wanted}, found {found}", key_text(which))?) }
        Reason::SourceCondition { i, wanted, found } => {
            Ok(format!(in alloc; "source {i}: wanted {wanted}, found {found}")?)
        }
        Reason::Exists => text_of(alloc, "bucket exists"),
        Reason::NotEmpty => text_of(alloc, "bucket not empty"),
        Reason::Held { event: true } => text_of(alloc, "eventBasedHold"),
        Reason::Held { event: false } => text_of(alloc, "temporaryHold"),
        Reason::Retained { until, now } => {
            Ok(format!(in alloc; "retained until {until}, now {now}")?)
        }
        Reason::Locked { kept, asked } => {
            Ok(format!(in alloc; "locked at {kept} seconds, asked {asked}")?)
        }
        Reason::NoPolicy => text_of(alloc, "no retention policy"),
        Reason::TimeBack { had, asked } => {
            Ok(format!(in alloc; "customTime: had {had}, asked {asked}")?)
        }
        Reason::MetadataTooLong { length } => {
            Ok(format!(in alloc; "metadata of {length} bytes")?)
        }
        Reason::HashDiffers { given, found } => hashes_text(alloc, given, found),
        Reason::TooLarge { size } => Ok(format!(in alloc; "size {size} over 5497558138880")?),
        Reason::Unsatisfiable { size } => Ok(format!(in alloc; "size {size}")?),
        Reason::Beyond { offset, kept } => {
            Ok(format!(in alloc; "offset {offset} beyond kept {kept}")?)
        }
        Reason::BadStep { length } => {
            Ok(format!(in alloc; "length {length} is no multiple of 262144")?)
        }
        Reason::TotalDiffers { given, known } => {
            Ok(format!(in alloc; "total {given}, known {known}")?)
        }
    }
}

fn text_of(alloc: Global, text: &str) -> Result<String, AllocError>
    ensures { IfOk result (λ made. string_bytes made ≡ text.now) }
{
    String::from_str(alloc, text)
}

fn hashes_text(alloc: Global, given: Digest, found: Digest) -> Result<String, AllocError>
    ensures { IfOk result (λ text. string_bytes text ≡ message_of (Reason.HashDiffers given found)) }
{
    let named = name_of(given);
    let given = text_of_digest(alloc, given)?;
    let found = text_of_digest(alloc, found)?;
    Ok(format!(in alloc; "{named}: given {given}, found {found}")?)
}

fn name_of(digest: Digest) -> &'static str
    ensures { result.now ≡ digest_name digest }
{
    match digest {
        Digest::Crc(_) => "crc32c",
        Digest::Md5(_) => "md5Hash",
    }
}

fn text_of_digest(alloc: Global, digest: Digest) -> Result<String, AllocError>
    ensures { IfOk result (λ text. string_bytes text ≡ digest_text digest) }
{
    match digest {
        Digest::Crc(value) => crc_text(alloc, value),
        Digest::Md5(bytes) => md5_text(alloc, &bytes),
    }
}

/// The name of a part of a request, as requests write it and messages show it.
pub fn key_text(key: Key) -> &'static str
    ensures { result.now ≡ key_name key }
{
    match key {
        Key::Bucket => "bucket",
        Key::Object => "object",
        Key::Query => "query",
        Key::Body => "body",
        Key::MaxResults => "maxResults",
        Key::PageToken => "pageToken",
        Key::IfMetagenerationMatch => "ifMetagenerationMatch",
        Key::IfMetagenerationNotMatch => "ifMetagenerationNotMatch",
        Key::Generation => "generation",
        Key::IncludeTrailingDelimiter => "includeTrailingDelimiter",
        Key::Versions => "versions",
        Key::SoftDeleted => "softDeleted",
        Key::Alt => "alt",
        Key::IfGenerationMatch => "ifGenerationMatch",
        Key::IfGenerationNotMatch => "ifGenerationNotMatch",
        Key::SourceGeneration => "sourceGeneration",
        Key::IfSourceGenerationMatch => "ifSourceGenerationMatch",
        Key::IfSourceGenerationNotMatch => "ifSourceGenerationNotMatch",
        Key::IfSourceMetagenerationMatch => "ifSourceMetagenerationMatch",
        Key::IfSourceMetagenerationNotMatch => "ifSourceMetagenerationNotMatch",
        Key::MaxBytesRewrittenPerCall => "maxBytesRewrittenPerCall",
        Key::RewriteToken => "rewriteToken",
        Key::UploadType => "uploadType",
        Key::Name => "name",
        Key::ContentEncoding => "contentEncoding",
        Key::UploadId => "upload_id",
        Key::CacheControl => "cacheControl",
        Key::ContentDisposition => "contentDisposition",
        Key::ContentLanguage => "contentLanguage",
        Key::ContentType => "contentType",
        Key::Crc32c => "crc32c",
        Key::Md5Hash => "md5Hash",
        Key::CustomTime => "customTime",
        Key::EventBasedHold => "eventBasedHold",
        Key::TemporaryHold => "temporaryHold",
        Key::Metadata => "metadata",
        Key::StorageClass => "storageClass",
        Key::DefaultEventBasedHold => "defaultEventBasedHold",
        Key::Labels => "labels",
        Key::Lifecycle => "lifecycle",
        Key::Location => "location",
        Key::RetentionPolicy => "retentionPolicy",
        Key::SoftDeletePolicy => "softDeletePolicy",
        Key::Versioning => "versioning",
        Key::Destination => "destination",
        Key::SourceObjects => "sourceObjects",
        Key::XUploadContentLength => "X-Upload-Content-Length",
        Key::ContentRange => "Content-Range",
        Key::HeadContentType => "Content-Type",
        Key::HeadContentEncoding => "Content-Encoding",
    }
}
