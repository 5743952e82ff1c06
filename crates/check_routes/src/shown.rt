//! What a request is, as a line: its call or its refusal.
use gcs_meaning::{Pre, Reason, Text};
use gcs_route::{Call, MaskPart, RouteFault, UploadKind, route};
use std::alloc::{AllocError, Global};

/// The call of a request, shown by a copy of it, or the status and the message of its refusal. `Err`: no memory.
pub fn shown(alloc: Global, method: &str, target: &str) -> Result<String, AllocError> {
    match route(alloc, method.as_bytes(), target.as_bytes()) {
        Ok(call) => shown_call(alloc, &call.copy()?),
        Err(RouteFault::Refused(reason)) => shown_refusal(alloc, reason),
        Err(RouteFault::NoMemory) => Err(AllocError),
    }
}

fn shown_refusal(alloc: Global, reason: Reason) -> Result<String, AllocError> {
    let status = reason.status();
    let message = reason.message(alloc)?;
    let message = message.as_str();
    Ok(format!(in alloc; "{status} {message}")?)
}

// The row and the name of the request, and then what the call has, in the order of its fields.
fn shown_call(alloc: Global, call: &Call) -> Result<String, AllocError> {
    let kind = call.kind();
    let row = kind.row();
    let mut line = Line {
        text: format!(in alloc; "{row} {kind:?}")?,
    };
    for bucket in call.buckets.as_slice() {
        line.add_text("bucket", Some(bucket.as_str()))?;
    }
    for object in call.objects.as_slice() {
        line.add_text("object", Some(object.as_str()))?;
    }
    line.add_number("generation", call.generation)?;
    line.add_pre(&call.pre)?;
    line.add_number("source_generation", call.source_generation)?;
    line.add_source_pre(&call.source_pre)?;
    line.add_flag("soft", call.soft)?;
    line.add_flag("media", call.media)?;
    line.add_flag("versions", call.versions)?;
    line.add_flag("trailing", call.trailing)?;
    line.add_text("prefix", given(call.prefix.as_str()))?;
    line.add_text("delimiter", given(call.delimiter.as_str()))?;
    line.add_text("start", str_of(&call.start))?;
    line.add_text("end", str_of(&call.end))?;
    line.add_number("most", Some(u64::from(call.most)).filter(|most| *most > 0))?;
    line.add_text("page_token", str_of(&call.page_token))?;
    line.add_text("rewrite_token", str_of(&call.rewrite_token))?;
    line.add_number("per_call", call.per_call)?;
    line.add_text("upload", upload_of(call.upload))?;
    line.add_number("upload_id", call.upload_id)?;
    line.add_text("name", str_of(&call.name))?;
    line.add_text("encoding", str_of(&call.encoding))?;
    line.add_mask(&call.mask)?;
    Ok(line.text)
}

fn str_of(text: &Option<Text>) -> Option<&str> {
    match text {
        Some(text) => Some(text.as_str()),
        None => None,
    }
}

// The way of an upload as a query names it.
fn upload_of(upload: Option<UploadKind>) -> Option<&'static str> {
    match upload {
        Some(UploadKind::Media) => Some("media"),
        Some(UploadKind::Multipart) => Some("multipart"),
        Some(UploadKind::Resumable) => Some("resumable"),
        None => None,
    }
}

// A text that is not empty.
fn given(text: &str) -> Option<&str> {
    if text.is_empty() { None } else { Some(text) }
}

// A line that grows by a field at a time.
#[derive(Drop)]
struct Line {
    text: String,
}

impl Line {
    fn add_text(&mut self, name: &str, value: Option<&str>) -> Result<(), AllocError> {
        if let Some(value) = value {
            self.text.push_str(" ")?;
            self.text.push_str(name)?;
            self.text.push_str("=")?;
            self.text.push_str(value)?;
        }
        Ok(())
    }

    fn add_number(&mut self, name: &str, value: Option<u64>) -> Result<(), AllocError> {
        let Some(value) = value else {
            return Ok(());
        };
        let digits = format!(in *self.text.allocator(); "{value}")?;
        self.add_text(name, Some(digits.as_str()))
    }

    fn add_flag(&mut self, name: &str, value: bool) -> Result<(), AllocError> {
        if value {
            self.text.push_str(" ")?;
            self.text.push_str(name)?;
        }
        Ok(())
    }

    fn add_pre(&mut self, pre: &Pre) -> Result<(), AllocError> {
        self.add_number("generation_is", pre.generation_is)?;
        self.add_number("generation_not", pre.generation_not)?;
        self.add_number("metageneration_is", pre.metageneration_is)?;
        self.add_number("metageneration_not", pre.metageneration_not)
    }

    fn add_source_pre(&mut self, pre: &Pre) -> Result<(), AllocError> {
        self.add_number("source_generation_is", pre.generation_is)?;
        self.add_number("source_generation_not", pre.generation_not)?;
        self.add_number("source_metageneration_is", pre.metageneration_is)?;
        self.add_number("source_metageneration_not", pre.metageneration_not)
    }

    fn add_mask(&mut self, mask: &MaskPart) -> Result<(), AllocError> {
        match mask {
            MaskPart::Absent => Ok(()),
            MaskPart::Is(_) => self.add_flag("mask", true),
            MaskPart::Fault(place) => self.add_number("no_mask_at", Some(u64::from(*place))),
        }
    }
}
