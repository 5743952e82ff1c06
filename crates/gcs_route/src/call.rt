//! What a request asks for.
ghost use Rattle.std.specs.Prelude.{◌≡◌, IfOk};
ghost use Rattle.gcs_route.specs.Calls.{IsSameCall};
ghost use Rattle.gcs_route.specs.Masks.{IsSameMask};
ghost use Rattle.gcs_route.specs.OfCall.{first_bucket, first_object, last_bucket, last_object, request_kind, NamesBucket, NamesObject};

use crate::kind::{RequestKind, kind_of};
use gcs_fields::Mask;
use gcs_meaning::{BucketName, Copied, List, Name, Pre, Text};
use std::alloc::AllocError;

/// How an upload is made.
///
/// Source: Cloud Storage, "Uploads and downloads".
#[derive(Clone, Copy, Debug, PartialEq, Eq)]
pub enum UploadKind {
    Media,
    Multipart,
    Resumable,
}

/// The mask of the reply, the parameter `fields`.
///
/// Source: Cloud Storage JSON API, "Partial response".
#[derive(Drop)]
pub enum MaskPart {
    /// The query gives none, or the row does not read it.
    Absent,
    Is(Mask),
    /// Of lists and rewrites alone, which test a token before the mask: the text is no mask, and the longest front of
    /// it that begins some mask has this many bytes.
    Fault(u32),
}

impl MaskPart {
    /// The same mask, or fault, or none. `Err`: no memory.
    pub fn copy(&self) -> Result<MaskPart, AllocError>
        ensures { IfOk result (λ made. IsSameMask made self.now) }
    {
        match self {
            MaskPart::Absent => Ok(MaskPart::Absent),
            MaskPart::Is(mask) => Ok(MaskPart::Is(mask.copy()?)),
            MaskPart::Fault(place) => Ok(MaskPart::Fault(*place)),
        }
    }
}

/// A row of the interface with its names and parameters. A parameter that the row does not have, or that the query
/// does not give, is absent, empty or false.
///
/// Source: Cloud Storage JSON API, the HTTP requests and parameters of "Buckets" and "Objects"; the rows stand in
/// specs/Table.antt.
pub struct Call {
    /// The number of the row, from 1 to 21.
    pub row: u32,
    /// The names in the path, in its order: the source's before the destination's.
    pub buckets: List<BucketName>,
    pub objects: List<Name>,
    pub generation: Option<u64>,
    pub pre: Pre,
    pub source_generation: Option<u64>,
    pub source_pre: Pre,
    /// `softDeleted`
    pub soft: bool,
    /// `alt=media`, which a download has always.
    pub media: bool,
    pub versions: bool,
    /// `includeTrailingDelimiter`
    pub trailing: bool,
    pub prefix: Text,
    pub delimiter: Text,
    /// `startOffset`
    pub start: Option<Text>,
    /// `endOffset`
    pub end: Option<Text>,
    /// `maxResults`, at most 1,000, and 1,000 where a list does not give it; else 0.
    pub most: u32,
    pub page_token: Option<Text>,
    pub rewrite_token: Option<Text>,
    /// `maxBytesRewrittenPerCall`
    pub per_call: Option<u64>,
    pub upload: Option<UploadKind>,
    pub upload_id: Option<u64>,
    pub name: Option<Text>,
    /// `contentEncoding`
    pub encoding: Option<Text>,
    /// `fields`
    pub mask: MaskPart,
}

impl Drop for Call {
    fn drop(self) {
        let Call {
            row: _,
            buckets,
            objects,
            generation: _,
            pre: _,
            source_generation: _,
            source_pre: _,
            soft: _,
            media: _,
            versions: _,
            trailing: _,
            prefix,
            delimiter,
            start,
            end,
            most: _,
            page_token,
            rewrite_token,
            per_call: _,
            upload: _,
            upload_id: _,
            name,
            encoding,
            mask,
        } = self;
        drop(buckets);
        drop(objects);
        drop(prefix);
        drop(delimiter);
        drop(start);
        drop(end);
        drop(page_token);
        drop(rewrite_token);
        drop(name);
        drop(encoding);
        drop(mask);
    }
}

impl Call {
    /// Which request it is.
    pub fn kind(&self) -> RequestKind
        ensures { result ≡ request_kind self.now }
    {
        kind_of(self.row)
    }

    /// The first bucket that the path names.
    pub fn bucket(&self) -> &BucketName
        requires { NamesBucket self.now }
        ensures { result.now ≡ first_bucket self.now }
    {
        match self.buckets.get(0) {
            Some(name) => name,
            None => unreachable!(),
        }
    }

    /// The first object that the path names.
    pub fn object(&self) -> &Name
        requires { NamesObject self.now }
        ensures { result.now ≡ first_object self.now }
    {
        match self.objects.get(0) {
            Some(name) => name,
            None => unreachable!(),
        }
    }

    /// The last bucket that the path names: of a copy that of its destination.
    pub fn last_bucket(&self) -> &BucketName
        requires { NamesBucket self.now }
        ensures { result.now ≡ last_bucket self.now }
    {
        match self.buckets.get(self.buckets.len() - 1) {
            Some(name) => name,
            None => unreachable!(),
        }
    }

    /// The last object that the path names: of a copy its destination.
    pub fn last_object(&self) -> &Name
        requires { NamesObject self.now }
        ensures { result.now ≡ last_object self.now }
    {
        match self.objects.get(self.objects.len() - 1) {
            Some(name) => name,
            None => unreachable!(),
        }
    }

    /// The same call, up to how its mask is held. `Err`: no memory.
    pub fn copy(&self) -> Result<Call, AllocError>
        ensures { IfOk result (λ made. IsSameCall made self.now) }
    {
        Ok(Call {
            row: self.row,
            buckets: self.buckets.copy()?,
            objects: self.objects.copy()?,
            generation: self.generation,
            pre: self.pre,
            source_generation: self.source_generation,
            source_pre: self.source_pre,
            soft: self.soft,
            media: self.media,
            versions: self.versions,
            trailing: self.trailing,
            prefix: self.prefix.copy()?,
            delimiter: self.delimiter.copy()?,
            start: self.start.copy()?,
            end: self.end.copy()?,
            most: self.most,
            page_token: self.page_token.copy()?,
            rewrite_token: self.rewrite_token.copy()?,
            per_call: self.per_call,
            upload: self.upload,
            upload_id: self.upload_id,
            name: self.name.copy()?,
            encoding: self.encoding.copy()?,
            mask: self.mask.copy()?,
        })
    }
}
