//! What becomes of one upload.
ghost use Rattle.std.specs.Prelude.{◌≡◌, ◌<◌, ◌≤◌, ◌+◌, ◌^◌, length, nat_le, IfErr, IfOk, None, OnErr, OnOk};
ghost use Rattle.std.specs.Option.{ForSome};
ghost use Rattle.gcs_chunks.specs.Content.{bytes_of};
ghost use Rattle.gcs_meaning.specs.Uploads.{aged_upload, answers, in_state, is_running, kept_of, upload_time};
ghost use Rattle.gcs_meaning.specs.Append.{appended, grown, grown_upload, piece_refusal, progress_of};
ghost use Rattle.gcs_meaning.specs.Cancel.{cancelled};
ghost use Rattle.gcs_uploads.specs.Calls.{IsEndOf, IsPieceRefusedBy, IsRefusedBy, late};
ghost use Rattle.gcs_uploads.specs.Earliest.{begun};

use crate::fault::UploadFault;
use crate::piece::refusal;
use gcs_chunks::Content;
use gcs_meaning::{Copied, Progress, Reason, Row, Upload, UploadState};
use std::alloc::AllocError;

/// How long an upload runs before it expires, in microseconds: a week.
const UPLOAD_TIME: u64 = 604_800_000_000;

/// Adds a piece to an upload. `Err`: the upload stays as it was.
#[tactic(auto, unfolding(gcs_meaning::specs::Append::appended))]
pub fn append(
    upload: &mut Upload,
    offset: Option<u64>,
    given: Option<u64>,
    piece: &Content,
) -> Result<Progress, UploadFault>
    ensures done { IfOk result (λ progress. appended upload.old offset given piece.now ≡ (answers progress, upload.new)) }
    ensures refused { IfErr result (λ fault. IsRefusedBy fault (appended upload.old offset given piece.now).0) }
    ensures unchanged { OnErr result (upload.new ≡ upload.old) }
{
    let ended = end_of(&upload.state)?;
    match ended {
        Some(row) => Ok(Progress::Done(row)),
        None => append_running(upload, offset, given, piece),
    }
}

// The version of an upload that is done, and none while it runs.
fn end_of(state: &UploadState) -> Result<Option<Row>, UploadFault>
    ensures { IsEndOf state.now result }
{
    match state {
        UploadState::Running => Ok(None),
        UploadState::Done(row) => Ok(Some(row.copy()?)),
        UploadState::Cancelled => Err(UploadFault::Refused(Reason::Gone { expired: false })),
        UploadState::Expired => Err(UploadFault::Refused(Reason::Gone { expired: true })),
    }
}

// Adds a piece to an upload that runs.
fn append_running(
    upload: &mut Upload,
    offset: Option<u64>,
    given: Option<u64>,
    piece: &Content,
) -> Result<Progress, UploadFault>
    ensures done { IfOk result (λ progress. (piece_refusal upload.old offset given piece.now ≡ None) × (upload.new ≡ grown_upload upload.old offset given piece.now) × (progress ≡ progress_of upload.new.total upload.new.content)) }
    ensures refused { IfErr result (λ fault. IsPieceRefusedBy fault (piece_refusal upload.old offset given piece.now)) }
    ensures unchanged { OnErr result (upload.new ≡ upload.old) }
{
    if let Some(reason) = refusal(upload, offset, given, piece) {
        return Err(UploadFault::Refused(reason));
    }
    Ok(grow(upload, offset, given, piece)?)
}

// Keeps the bytes of a piece that was accepted.
#[tactic(auto, unfolding(gcs_meaning::specs::Append::grown_upload))]
fn grow(
    upload: &mut Upload,
    offset: Option<u64>,
    given: Option<u64>,
    piece: &Content,
) -> Result<Progress, AllocError>
    requires accepted { piece_refusal upload.old offset given piece.now ≡ None }
    ensures upload { OnOk result (upload.new ≡ grown_upload upload.old offset given piece.now) }
    ensures progress { IfOk result (λ progress. progress ≡ progress_of upload.new.total upload.new.content) }
    ensures unchanged { OnErr result (upload.new ≡ upload.old) }
{
    let known = upload.total.or(given);
    if known == Some(length_after(upload, offset, piece)) {
        // The copy is made first: a call that fails for memory changes nothing.
        let mut whole = upload.content.copy()?;
        extend(&mut whole, offset, piece)?;
        extend(&mut upload.content, offset, piece)?;
        upload.total = known;
        Ok(Progress::Complete(whole))
    } else {
        extend(&mut upload.content, offset, piece)?;
        upload.total = known;
        Ok(Progress::Kept(upload.content.len()))
    }
}

// How many bytes are kept after a piece.
fn length_after(upload: &Upload, offset: Option<u64>, piece: &Content) -> u64
    requires fits { ForSome offset (λ place. (place ≤ kept_of upload.now) × (place + length (bytes_of piece.now) < 2 ^ 63)) }
    ensures { result ≡ length (bytes_of (grown upload.now.content (kept_of upload.now) offset piece.now)) }
{
    let kept = upload.content.len();
    match offset {
        Some(place) => kept.max(place + piece.len()),
        None => kept,
    }
}

// Adds the bytes of a piece that aren't kept yet.
fn extend(content: &mut Content, offset: Option<u64>, piece: &Content) -> Result<(), AllocError>
    requires fits { ForSome offset (λ place. (place ≤ length (bytes_of content.old)) × (place + length (bytes_of piece.now) < 2 ^ 63)) }
    ensures grown { OnOk result (content.new ≡ grown content.old (length (bytes_of content.old)) offset piece.now) }
    ensures unchanged { OnErr result (content.new ≡ content.old) }
{
    let Some(place) = offset else {
        return Ok(());
    };
    let known = content.len() - place;
    if known < piece.len() {
        content.join(piece, known)?;
    }
    Ok(())
}

/// Cancels an upload. `Err`: the upload stays as it was.
#[tactic(auto, unfolding(gcs_meaning::specs::Cancel::cancelled))]
pub fn cancel(upload: &mut Upload) -> Result<Progress, UploadFault>
    ensures done { IfOk result (λ progress. cancelled upload.old ≡ (answers progress, upload.new)) }
    ensures refused { IfErr result (λ fault. IsRefusedBy fault (cancelled upload.old).0) }
    ensures unchanged { OnErr result (upload.new ≡ upload.old) }
{
    let ended = end_of(&upload.state)?;
    match ended {
        Some(row) => Ok(Progress::Done(row)),
        None => {
            set_state(upload, UploadState::Cancelled);
            Ok(Progress::Stopped)
        }
    }
}

pub fn set_state(upload: &mut Upload, state: UploadState)
    ensures { upload.new ≡ in_state state upload.old }
{
    upload.state = state;
}

/// Marks an upload as expired where it runs and its week has passed.
pub fn age(upload: &mut Upload, moment: u64)
    ensures { upload.new ≡ aged_upload moment upload.old }
{
    if is_late(upload, moment) {
        set_state(upload, UploadState::Expired);
    }
}

/// Whether an upload runs though its week has passed at `moment`: ageing marks it as expired.
pub fn is_late(upload: &Upload, moment: u64) -> bool
    ensures { result ≡ late moment upload.now }
{
    is_running(&upload.state) && has_passed(upload.start, moment)
}

fn is_running(state: &UploadState) -> bool
    ensures { result ≡ is_running state.now }
{
    matches!(state, UploadState::Running)
}

/// When an upload that runs began. One that doesn't run never expires: it has the last moment of a clock.
pub fn begun(upload: &Upload) -> u64
    ensures { result ≡ begun upload.now }
{
    if is_running(&upload.state) {
        upload.start
    } else {
        u64::MAX
    }
}

/// Whether the week of an upload that began at `start` has passed, on clocks of any reading.
pub fn has_passed(start: u64, moment: u64) -> bool
    ensures { result ≡ nat_le (start + upload_time) moment }
{
    moment >= UPLOAD_TIME && start <= moment - UPLOAD_TIME
}
