//! Resumable uploads, as plain data. Source: Cloud Storage, "Resumable uploads".
use crate::copying::Copied;
use crate::names::Name;
use crate::settings::{Meta, Pre};
use crate::version::{Expect, Row};
use gcs_chunks::Content;
use std::alloc::AllocError;

#[derive(Drop)]
pub enum UploadState {
    Running,
    /// The upload made this version.
    Done(Row),
    Cancelled,
    Expired,
}

impl Copied for UploadState {
    fn copy(&self) -> Result<UploadState, AllocError> {
        match self {
            UploadState::Running => Ok(UploadState::Running),
            UploadState::Done(row) => Ok(UploadState::Done(row.copy()?)),
            UploadState::Cancelled => Ok(UploadState::Cancelled),
            UploadState::Expired => Ok(UploadState::Expired),
        }
    }
}

/// An upload: what its version will be, the bytes kept so far, and their total in bytes where it is known. `start` is
/// in microseconds since 1970.
pub struct Upload {
    pub name: Name,
    pub pre: Pre,
    pub meta: Meta,
    pub expect: Expect,
    pub total: Option<u64>,
    pub content: Content,
    pub start: u64,
    pub state: UploadState,
}

impl Drop for Upload {
    fn drop(self) {
        let Upload {
            name,
            pre: _,
            meta,
            expect: _,
            total: _,
            content,
            start: _,
            state,
        } = self;
        drop(name);
        drop(meta);
        drop(content);
        drop(state);
    }
}

impl Copied for Upload {
    fn copy(&self) -> Result<Upload, AllocError> {
        Ok(Upload {
            name: self.name.copy()?,
            pre: self.pre,
            meta: self.meta.copy()?,
            expect: self.expect,
            total: self.total,
            content: self.content.copy()?,
            start: self.start,
            state: self.state.copy()?,
        })
    }
}

/// How far an upload is.
#[derive(Drop)]
pub enum Progress {
    /// So many bytes are kept.
    Kept(u64),
    /// All bytes are kept: these.
    Complete(Content),
    /// The upload is done, and made this version.
    Done(Row),
    /// The upload is cancelled by this call.
    Stopped,
}
