//! The kinds of answers, and which of them came.
use crate::kept::Wanted;
use std::alloc::{AllocError, Global};

/// All kinds that a bucket gives, each by the beginning of its text.
const KINDS: &str = "Bucket,Object,Empty,Page,Started,Kept,Complete,Cancelled,\
    NoBucket,NoObject,NoUpload,NoGrave,NoSource,Exists,NotEmpty,NoPolicy,Retained,Locked,\
    Gone { expired: false },Gone { expired: true },Held { event: false },Held { event: true },\
    Condition { which: IfGenerationMatch,Condition { which: IfGenerationNotMatch,\
    Condition { which: IfMetagenerationMatch,Condition { which: IfMetagenerationNotMatch,\
    SourceCondition,TimeBack,MetadataTooLong,HashDiffers { given: Crc,HashDiffers { given: Md5,\
    TotalDiffers,Beyond,BadStep,TooLarge";

/// The kinds that didn't come so far.
#[derive(Drop)]
pub struct Missing {
    pub kinds: Vec<&'static str>,
}

impl Missing {
    /// All of them. `Err`: no memory.
    pub fn all(alloc: Global) -> Result<Missing, AllocError> {
        let mut kinds = Vec::new(alloc);
        for kind in KINDS.split(",") {
            kinds.push(kind)?;
        }
        Ok(Missing { kinds })
    }

    /// An answer of this text came.
    pub fn note(&mut self, text: &str) {
        self.kinds.retain(|kind| !text.starts_with(*kind));
    }
}

/// The kind of an answer, and all of a refusal. `Err`: no memory.
pub fn kind_text(alloc: Global, wanted: &Wanted) -> Result<String, AllocError> {
    let kind = match wanted {
        Wanted::Bucket => "Bucket",
        Wanted::Object(_) => "Object",
        Wanted::Empty => "Empty",
        Wanted::Page(_) => "Page",
        Wanted::Started(_) => "Started",
        Wanted::Kept(_) => "Kept",
        Wanted::Complete(_) => "Complete",
        Wanted::Cancelled => "Cancelled",
        Wanted::Refused(reason) => return format!(in alloc; "{reason:?}"),
    };
    String::from_str(alloc, kind)
}
