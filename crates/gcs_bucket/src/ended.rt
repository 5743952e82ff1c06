//! What a call on an upload finds of it, and what is answered.
ghost use Rattle.std.specs.Prelude.{◌≡◌, Err, IfOk, OnErr};
ghost use Rattle.gcs_meaning.specs.declared.settings.Settings.{Settings};
ghost use Rattle.gcs_meaning.specs.Aging.{aged};
ghost use Rattle.gcs_meaning.specs.Uploads.{aged_upload};
ghost use Rattle.gcs_bucket.specs.Slot.{value_of};
ghost use Rattle.gcs_bucket.specs.Uploading.{IsTold, IsUnderWay, end_answer, end_at};

use crate::slot::Slot;
use gcs_meaning::{Answer, Copied, Progress, Reason, Settings, Upload, UploadState};
use gcs_uploads::{UploadFault, is_late};
use std::alloc::AllocError;

impl Slot {
    /// What every call on the upload of a number answers at `moment`, unless the upload runs. `Err`: no memory.
    pub fn upload_end(&self, moment: u64, number: u64) -> Result<Option<Answer>, AllocError>
        ensures { IfOk result (λ end. end ≡ end_at number (aged (value_of self.now) moment).alive) }
    {
        let Some(state) = &self.alive else {
            return Ok(Some(Answer::Refused(Reason::NoBucket)));
        };
        match state.uploads.get(number) {
            Some(upload) => ended(upload, moment, &state.settings),
            None => Ok(Some(Answer::Refused(Reason::NoUpload))),
        }
    }
}

/// What every call on an upload answers once it ended at `moment`, and none while it runs. `Err`: no memory.
pub fn ended(
    upload: &Upload,
    moment: u64,
    settings: &Settings,
) -> Result<Option<Answer>, AllocError>
    ensures { IfOk result (λ answer. answer ≡ end_answer (aged_upload moment upload.now).state settings.now) }
{
    if is_late(upload, moment) {
        return Ok(Some(gone(true)));
    }
    match &upload.state {
        UploadState::Running => Ok(None),
        UploadState::Done(row) => Ok(Some(Answer::Object(row.copy()?, settings.copy()?))),
        UploadState::Cancelled => Ok(Some(gone(false))),
        UploadState::Expired => Ok(Some(gone(true))),
    }
}

fn gone(expired: bool) -> Answer
    ensures { result ≡ Answer.Refused (Reason.Gone expired) }
{
    Answer::Refused(Reason::Gone { expired })
}

/// What is answered for a call on an upload that runs. `Err`: no memory.
pub fn told(called: Result<Progress, UploadFault>) -> Result<Answer, AllocError>
    requires runs { IfOk called IsUnderWay }
    ensures told { (settings : Settings) → IfOk result (λ answer. IsTold called settings answer) }
    ensures err { OnErr result (called ≡ Err UploadFault.NoMemory) }
{
    match called {
        Ok(Progress::Kept(kept)) => Ok(Answer::Kept(kept)),
        Ok(Progress::Complete(content)) => Ok(Answer::Complete(content)),
        Ok(Progress::Stopped) => Ok(Answer::Cancelled),
        Ok(Progress::Done(_)) => unreachable!(),
        Err(UploadFault::Refused(reason)) => Ok(Answer::Refused(reason)),
        Err(UploadFault::NoMemory) => Err(AllocError),
    }
}
