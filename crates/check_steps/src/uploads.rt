//! Uploads in pieces.
ghost use Rattle.gcs_meaning.specs.Contents.{CommandLiesIn};

use crate::contents::bytes_of;
use crate::kept::{Body, Bucket, Progress, Slot, Stop, Upload, Wanted};
use gcs_chunks::Chunks;
use gcs_meaning::{Command, Copied, LARGEST_OBJECT, Reason};

/// A piece that doesn't end an upload has a multiple of so many bytes.
pub const PIECE_STEP: u64 = 262_144;

impl Slot {
    /// Begins an upload.
    pub fn start(&mut self, moment: u64, command: &Command) -> Result<Wanted, Stop> {
        let Command::Start {
            name,
            pre,
            meta,
            expect,
            total,
            ..
        } = command
        else {
            return Err(Stop::Refused(Reason::NoUpload));
        };
        let number = self.last_upload.saturating_add(1);
        let body = Body {
            name: name.copy()?,
            bytes: Vec::new(self.alloc),
            has_md5: true,
            components: None,
            meta: meta.copy()?,
        };
        self.alive()?.uploads.push(Upload {
            number,
            body,
            pre: *pre,
            expect: *expect,
            total: *total,
            start: moment,
            progress: Progress::Running,
        })?;
        self.last_upload = number;
        Ok(Wanted::Started(number))
    }

    /// Makes the version of an upload, of which all bytes have come.
    pub fn finish(&mut self, moment: u64, number: u64) -> Result<Wanted, Stop> {
        let upload = self.alive()?.upload(number)?;
        if let Some(ended) = upload.ended()? {
            return Ok(ended);
        }
        let kept = upload.body.bytes.len() as u64;
        if upload.total != Some(kept) {
            return Ok(Wanted::Kept(kept));
        }
        let (body, pre, expect) = (upload.body.copy()?, upload.pre, upload.expect);
        let wanted = self.put(moment, body, &pre, &expect)?;
        if let Wanted::Object(version) = &wanted {
            let version = version.copy()?;
            self.alive()?.upload(number)?.progress = Progress::Done(version);
        }
        Ok(wanted)
    }
}

impl Bucket {
    fn upload(&mut self, number: u64) -> Result<&mut Upload, Stop> {
        self.uploads
            .iter_mut()
            .find(|upload| upload.number == number)
            .ok_or(Stop::Refused(Reason::NoUpload))
    }

    /// Adds a piece to an upload.
    pub fn append(&mut self, command: &Command, chunks: &Chunks) -> Result<Wanted, Stop>
        requires { CommandLiesIn chunks.now command.now }
    {
        let Command::Append {
            upload,
            offset,
            total,
            content,
            ..
        } = command
        else {
            return Err(Stop::Refused(Reason::NoUpload));
        };
        let alloc = *self.uploads.allocator();
        let upload = self.upload(*upload)?;
        if let Some(ended) = upload.ended()? {
            return Ok(ended);
        }
        let kept = upload.body.bytes.len() as u64;
        // Without an offset it is a question, and the content beside it is passed over.
        let (offset, piece) = match offset {
            Some(offset) => (*offset, bytes_of(alloc, chunks, content)?),
            None => (kept, Vec::new(alloc)),
        };
        upload.check_total(*total)?;
        upload.check_piece(offset, piece.len() as u64, *total)?;
        if upload.total.is_none() {
            upload.total = *total;
        }
        let seen = kept.saturating_sub(offset) as usize;
        if let Some(rest) = piece.get(seen..) {
            upload.body.bytes.extend_from_slice(rest)?;
        }
        upload.progress()
    }

    /// Ends an upload, or tells its version where it is done.
    pub fn cancel(&mut self, number: u64) -> Result<Wanted, Stop> {
        let upload = self.upload(number)?;
        if let Some(ended) = upload.ended()? {
            return Ok(ended);
        }
        upload.progress = Progress::Cancelled;
        Ok(Wanted::Cancelled)
    }
}

impl Upload {
    // What an upload that ended answers to everything.
    fn ended(&self) -> Result<Option<Wanted>, Stop> {
        match &self.progress {
            Progress::Running => Ok(None),
            Progress::Done(version) => Ok(Some(Wanted::Object(version.copy()?))),
            Progress::Cancelled => Err(Stop::Refused(Reason::Gone { expired: false })),
            Progress::Expired => Err(Stop::Refused(Reason::Gone { expired: true })),
        }
    }

    // A total is the one that was given first, and not below what is kept.
    fn check_total(&self, total: Option<u64>) -> Result<(), Stop> {
        let Some(given) = total else {
            return Ok(());
        };
        let kept = self.body.bytes.len() as u64;
        let is_known = self.total.is_none_or(|known| known == given);
        if !is_known || given < kept {
            return Err(Stop::Refused(Reason::TotalDiffers {
                given,
                known: self.total.unwrap_or(kept),
            }));
        }
        if given > LARGEST_OBJECT {
            return Err(Stop::Refused(Reason::TooLarge { size: given }));
        }
        Ok(())
    }

    fn check_piece(&self, offset: u64, length: u64, total: Option<u64>) -> Result<(), Stop> {
        let kept = self.body.bytes.len() as u64;
        if offset > kept {
            return Err(Stop::Refused(Reason::Beyond { offset, kept }));
        }
        let end = offset.saturating_add(length);
        if end > LARGEST_OBJECT {
            return Err(Stop::Refused(Reason::TooLarge { size: end }));
        }
        let total = self.total.or(total);
        if let Some(known) = total
            && end > known
        {
            return Err(Stop::Refused(Reason::TotalDiffers { given: end, known }));
        }
        if total != Some(end) && length % PIECE_STEP != 0 {
            return Err(Stop::Refused(Reason::BadStep { length }));
        }
        Ok(())
    }

    fn progress(&self) -> Result<Wanted, Stop> {
        let kept = self.body.bytes.len() as u64;
        if self.total == Some(kept) {
            return Ok(Wanted::Complete(self.body.bytes.clone()?));
        }
        Ok(Wanted::Kept(kept))
    }
}
