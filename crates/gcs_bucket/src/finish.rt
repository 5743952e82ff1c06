//! The finish of a resumable upload: its bytes become a version.
ghost use Rattle.std.specs.Prelude.{◌≡◌, ◌<◌, ◌^◌, IfOk, OnErr};
ghost use Rattle.std.specs.Option.{IfSome};
ghost use Rattle.gcs_chunks.specs.Content.{ContentLiesIn};
ghost use Rattle.gcs_index.specs.Looks.{AreLooks};
ghost use Rattle.gcs_meaning.specs.Aging.{aged};
ghost use Rattle.gcs_meaning.specs.Contents.{HashedLiesIn, SlotLiesIn};
ghost use Rattle.gcs_meaning.specs.Finish.{digested_of, done_state, finish_step, is_total};
ghost use Rattle.gcs_meaning.specs.Moment.{effective_moment};
ghost use Rattle.gcs_meaning.specs.Uploads.{IsCompleteIf, kept_of, upload_of};
ghost use Rattle.gcs_bucket.specs.Alive.{CanPut, CanRetire, on_bucket};
ghost use Rattle.gcs_bucket.specs.Finish.{IsFinishing, decided_finish};
ghost use Rattle.gcs_bucket.specs.Slot.{row_count, value_of, IsReady};

use crate::ended::ended;
use crate::put::Prepared;
use crate::slot::Slot;
use gcs_chunks::Chunks;
use gcs_meaning::{Answer, Copied, Hashed, Reason, Row, Upload, effective};
use gcs_versions::Steps;
use std::alloc::AllocError;
use std::sync::ledger::Ledger;

/// What the finish of an upload makes: the version as in a put, and its copy for the upload.
#[derive(Drop)]
pub struct Finished {
    pub made: Prepared,
    pub kept: Row,
}

impl Slot {
    /// The finish of the upload of a number. It is decided before ageing. At most one search.
    pub fn finish<L: Ledger>(
        &mut self,
        reading: u64,
        number: u64,
        hashed: &Hashed,
        chunks: &Chunks,
        steps: &mut Steps<L>,
    ) -> Result<Answer, AllocError>
        requires ready { IsReady (value_of self.old) }
        requires lies { SlotLiesIn chunks.now (value_of self.old) }
        requires contents { HashedLiesIn chunks.now hashed.now }
        ensures done { IfOk result (λ answer.
            let t = effective_moment self.old.last_moment reading in
            finish_step (aged (value_of self.old) t) t number ≡ (answer, value_of self.new)) }
        ensures err { OnErr result (value_of self.new ≡ value_of self.old) }
        ensures looks { AreLooks 1 (row_count (value_of self.old)) steps.old steps.new }
    {
        let moment = effective(self.last_moment, reading);
        let decision = self.decide_finish(moment, number, hashed, chunks, steps)?;
        match decision {
            Ok(finished) => {
                self.prepare(&finished.kept.name)?;
                self.age(moment);
                Ok(self.complete(moment, number, finished))
            }
            Err(answer) => {
                self.age(moment);
                Ok(answer)
            }
        }
    }

    // What the finish comes to at `moment`: an answer, or this is what it makes. `Err`: no memory. At most one search.
    fn decide_finish<L: Ledger>(
        &self,
        moment: u64,
        number: u64,
        hashed: &Hashed,
        chunks: &Chunks,
        steps: &mut Steps<L>,
    ) -> Result<Result<Finished, Answer>, AllocError>
        requires ready { IsReady (value_of self.now) }
        requires moment { moment < 2 ^ 62 }
        requires lies { SlotLiesIn chunks.now (value_of self.now) }
        requires contents { HashedLiesIn chunks.now hashed.now }
        ensures decided { IfOk result (λ decision.
            finish_step (aged (value_of self.now) moment) moment number ≡ decided_finish decision moment number (aged (value_of self.now) moment)) }
        ensures next { IfOk result (λ decision. IfOk decision (λ finished. IsFinishing finished number (aged (value_of self.now) moment))) }
        ensures looks { AreLooks 1 (row_count (value_of self.now)) steps.old steps.new }
    {
        let Some(state) = &self.alive else {
            return Ok(Err(Answer::Refused(Reason::NoBucket)));
        };
        let Some(upload) = state.uploads.get(number) else {
            return Ok(Err(Answer::Refused(Reason::NoUpload)));
        };
        if let Some(answer) = ended(upload, moment, &state.settings)? {
            return Ok(Err(answer));
        }
        if !is_whole(upload) {
            return Ok(Err(Answer::Kept(upload.content.len())));
        }
        let digested = digest(upload, hashed, chunks)?;
        let decision = self.decide_put(
            moment,
            &upload.name,
            &upload.pre,
            &upload.meta,
            &digested,
            None,
            &upload.expect,
            steps,
        )?;
        match decision {
            Ok(made) => {
                let kept = made.shown.copy()?;
                Ok(Ok(Finished { made, kept }))
            }
            Err(reason) => Ok(Err(Answer::Refused(reason))),
        }
    }

    // Adds the version, and makes the upload of that number done with it.
    fn complete(&mut self, moment: u64, number: u64, finished: Finished) -> Answer
        requires ready { IsReady (value_of self.old) }
        requires moment { moment < 2 ^ 62 }
        requires put { CanPut finished.kept.name self.old.alive }
        requires retire { CanRetire finished.kept.name self.old.alive }
        requires next { IsFinishing finished number (value_of self.old) }
        ensures { (result, value_of self.new) ≡ decided_finish (Ok finished) moment number (value_of self.old) }
    {
        let Finished { made, kept } = finished;
        let answer = self.add(moment, &kept.name, made);
        self.mark_done(number, kept);
        answer
    }

    // Makes the upload of a number, which is complete, one that is done with this version.
    fn mark_done(&mut self, number: u64, row: Row)
        requires { IfSome (value_of self.old).alive (λ s. IsCompleteIf (upload_of number s.uploads)) }
        ensures { value_of self.new ≡ on_bucket (λ s. done_state s number row) (value_of self.old) }
    {
        if let Some(state) = &mut self.alive {
            state.uploads.done(number, row);
        }
    }
}

// The upload keeps as many bytes as its total says.
fn is_whole(upload: &Upload) -> bool
    ensures { result ≡ is_total upload.now.total (kept_of upload.now) }
{
    upload.total == Some(upload.content.len())
}

// The upload's content with its digests: those that were handed in, where they are of the same bytes, or else computed
// here. `Err`: no memory.
fn digest(upload: &Upload, handed: &Hashed, chunks: &Chunks) -> Result<Hashed, AllocError>
    requires kept { ContentLiesIn chunks.now upload.now.content }
    requires handed { HashedLiesIn chunks.now handed.now }
    ensures { IfOk result (λ made. made ≡ digested_of upload.now) }
{
    let content = upload.content.copy()?;
    if handed.md5().is_some() && handed.content().same_spans(&content, chunks) {
        Ok(handed.over(content))
    } else {
        Ok(Hashed::of(content, chunks))
    }
}
