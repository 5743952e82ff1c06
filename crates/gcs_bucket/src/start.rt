//! The start of a resumable upload.
ghost use Rattle.std.specs.Prelude.{◌≡◌, IfOk, None, OnErr, OnOk};
ghost use Rattle.std.specs.Option.{IfSome};
ghost use Rattle.gcs_meaning.specs.Aging.{aged};
ghost use Rattle.gcs_meaning.specs.Moment.{effective_moment};
ghost use Rattle.gcs_meaning.specs.Start.{new_upload, start_state, start_step};
ghost use Rattle.gcs_meaning.specs.Uploads.{upload_of};
ghost use Rattle.gcs_bucket.specs.Alive.{on_bucket};
ghost use Rattle.gcs_bucket.specs.Slot.{IsReady, value_of};

use crate::slot::Slot;
use gcs_chunks::Content;
use gcs_meaning::{
    Answer, Copied, Expect, Meta, Name, Pre, Reason, Upload, UploadState, effective,
};
use std::alloc::{AllocError, Global};

impl Slot {
    /// The start of an upload, under the next number. Ageing leaves an upload that begins, so that it is started before
    /// it.
    pub fn start(
        &mut self,
        reading: u64,
        name: &Name,
        pre: &Pre,
        meta: &Meta,
        expect: &Expect,
        total: Option<u64>,
    ) -> Result<Answer, AllocError>
        requires ready { IsReady (value_of self.old) }
        ensures done { IfOk result (λ answer.
            let t = effective_moment self.old.last_moment reading in
            start_step (aged (value_of self.old) t) t name.now pre.now meta.now expect.now total ≡ (answer, value_of self.new)) }
        ensures err { OnErr result (value_of self.new ≡ value_of self.old) }
    {
        let moment = effective(self.last_moment, reading);
        let answer = self.start_at(moment, name, pre, meta, expect, total)?;
        self.age(moment);
        Ok(answer)
    }

    // The start, on the slot as it is at `moment`.
    fn start_at(
        &mut self,
        moment: u64,
        name: &Name,
        pre: &Pre,
        meta: &Meta,
        expect: &Expect,
        total: Option<u64>,
    ) -> Result<Answer, AllocError>
        requires ready { IsReady (value_of self.old) }
        ensures done { IfOk result (λ answer.
            start_step (aged (value_of self.old) moment) moment name.now pre.now meta.now expect.now total ≡ (answer, aged (value_of self.new) moment)) }
        ensures err { OnErr result (value_of self.new ≡ value_of self.old) }
    {
        if self.alive.is_none() {
            return Ok(Answer::Refused(Reason::NoBucket));
        }
        let number = self.next_upload;
        let upload = new_upload(self.alloc, moment, name, pre, meta, expect, total)?;
        self.add_upload(number, upload)?;
        self.next_upload = number + 1;
        Ok(Answer::Started(number))
    }

    // Adds an upload under a number of its own to the bucket that is alive. `Err`: no memory, and nothing is added.
    fn add_upload(&mut self, number: u64, upload: Upload) -> Result<(), AllocError>
        requires free { IfSome (value_of self.old).alive (λ s. upload_of number s.uploads ≡ None) }
        ensures added { OnOk result (value_of self.new ≡ on_bucket (λ s. start_state s number upload) (value_of self.old)) }
        ensures err { OnErr result (value_of self.new ≡ value_of self.old) }
    {
        match &mut self.alive {
            Some(state) => state.uploads.start(number, upload),
            None => Ok(()),
        }
    }
}

// An upload that begins at `moment`. `Err`: no memory.
fn new_upload(
    alloc: Global,
    moment: u64,
    name: &Name,
    pre: &Pre,
    meta: &Meta,
    expect: &Expect,
    total: Option<u64>,
) -> Result<Upload, AllocError>
    ensures { IfOk result (λ made. made ≡ new_upload moment name.now pre.now meta.now expect.now total) }
{
    Ok(Upload {
        name: name.copy()?,
        pre: *pre,
        meta: meta.copy()?,
        expect: *expect,
        total,
        content: Content::empty(alloc),
        start: moment,
        state: UploadState::Running,
    })
}
