//! The uploads of a bucket.
ghost use Rattle.std.specs.Prelude.{◌≡◌, [], IfErr, IfOk, None, OnErr, OnOk};
ghost use Rattle.std.specs.Option.{option_copied};
ghost use Rattle.std.specs.Ordering.{nat_cmp};
ghost use Rattle.std.specs.BTreeMap.{insert_entry};
ghost use Rattle.gcs_meaning.specs.Uploads.{aged_uploads, answers, done_at, IsCompleteIf, upload_of};
ghost use Rattle.gcs_meaning.specs.Append.{append_at};
ghost use Rattle.gcs_meaning.specs.Cancel.{cancel_at};
ghost use Rattle.gcs_uploads.specs.Calls.{IsRefusedBy};
ghost use Rattle.gcs_uploads.specs.Earliest.{earliest_start};

use crate::fault::UploadFault;
use crate::running;
use gcs_chunks::Content;
use gcs_meaning::{Copied, Progress, Reason, Row, Upload, UploadState};
use std::alloc::{AllocError, Global};
use std::collections::BTreeMap;
use std::marker::Model;

/// Uploads by number, seen as the list of numbers and uploads, rising by number.
///
/// start 1   append 1 at 0, 262144 bytes      262144 are kept
///           append 1 at 0, 262144 bytes      262144 are kept, and none twice
///           append 1 at 262144, of 262146    complete: done makes the version
#[derive(Drop)]
pub struct Uploads {
    alloc: Global,
    by_number: BTreeMap<u64, Upload>,
    // No upload that runs began before this moment, so that until a week after it none expires.
    earliest: u64,
}

impl Model for Uploads {
    ghost use Rattle.std.specs.Prelude.{◌≤◌};
    ghost use Rattle.gcs_meaning.specs.Uploads.{UploadMap};
    ghost use Rattle.gcs_uploads.specs.Earliest.{earliest_start};

    ghost Value = { UploadMap };

    ghost view = { λ u. u.by_number.entries };

    ghost invariant = { λ u. u.earliest ≤ earliest_start u.by_number.entries };
}

impl Uploads {
    /// No uploads.
    pub fn new(alloc: Global) -> Uploads
        ensures { result ≡ [] }
    {
        Uploads {
            alloc,
            by_number: BTreeMap::new(alloc),
            earliest: u64::MAX,
        }
    }

    /// The upload of a number.
    pub fn get(&self, number: u64) -> Option<&Upload>
        ensures { option_copied result ≡ upload_of number self.now }
    {
        self.by_number.get(&number)
    }

    /// Adds an upload under a number of its own. `Err`: no memory, and nothing is added.
    pub fn start(&mut self, number: u64, upload: Upload) -> Result<(), AllocError>
        requires free { upload_of number self.old ≡ None }
        ensures started { OnOk result (self.new ≡ insert_entry nat_cmp self.old number upload) }
        ensures unchanged { OnErr result (self.new ≡ self.old) }
    {
        let begun = running::begun(&upload);
        add(&mut self.by_number, number, upload)?;
        self.earliest = self.earliest.min(begun);
        Ok(())
    }

    /// Adds a piece to the upload of a number. The bytes that are kept already are passed over.
    ///
    /// `offset` is where the piece begins in the object; without it the piece counts as empty. `total` is how many bytes
    /// the object has, where the call gives it. `Err`: every upload stays as it was.
    #[tactic(auto, unfolding(gcs_meaning::specs::Append::append_at))]
    pub fn append(
        &mut self,
        number: u64,
        offset: Option<u64>,
        total: Option<u64>,
        content: &Content,
    ) -> Result<Progress, UploadFault>
        ensures done { IfOk result (λ progress. append_at number offset total content.now self.old ≡ (answers progress, self.new)) }
        ensures refused { IfErr result (λ fault. IsRefusedBy fault (append_at number offset total content.now self.old).0) }
        ensures unchanged { OnErr result (self.new ≡ self.old) }
    {
        let Some(upload) = self.by_number.get_mut(&number) else {
            return Err(UploadFault::Refused(Reason::NoUpload));
        };
        running::append(upload, offset, total, content)
    }

    /// Cancels the upload of a number. `Err`: every upload stays as it was.
    #[tactic(auto, unfolding(gcs_meaning::specs::Cancel::cancel_at))]
    pub fn cancel(&mut self, number: u64) -> Result<Progress, UploadFault>
        ensures done { IfOk result (λ progress. cancel_at number self.old ≡ (answers progress, self.new)) }
        ensures refused { IfErr result (λ fault. IsRefusedBy fault (cancel_at number self.old).0) }
        ensures unchanged { OnErr result (self.new ≡ self.old) }
    {
        let Some(upload) = self.by_number.get_mut(&number) else {
            return Err(UploadFault::Refused(Reason::NoUpload));
        };
        running::cancel(upload)
    }

    /// Makes the upload of a number one that is done, with the version that it made. It takes no memory.
    pub fn done(&mut self, number: u64, row: Row)
        requires complete { IsCompleteIf (upload_of number self.old) }
        ensures { self.new ≡ done_at number row self.old }
    {
        let Some(upload) = self.by_number.get_mut(&number) else {
            unreachable!()
        };
        running::set_state(upload, UploadState::Done(row));
    }

    /// Marks the running uploads whose week has passed at `moment` as expired. It takes no memory.
    pub fn age(&mut self, moment: u64)
        ensures { self.new ≡ aged_uploads moment self.old }
    {
        if !running::has_passed(self.earliest, moment) {
            return;
        }
        age_each(&mut self.by_number, moment);
        self.earliest = earliest_start(&self.by_number);
    }

    /// Drops all uploads. It takes no memory.
    pub fn clear(&mut self)
        ensures { self.new ≡ [] }
    {
        self.by_number = BTreeMap::new(self.alloc);
        self.earliest = u64::MAX;
    }

    /// The same uploads. `Err`: no memory.
    pub fn copy(&self) -> Result<Uploads, AllocError>
        ensures { IfOk result (λ made. made ≡ self.now) }
    {
        Ok(Uploads {
            alloc: self.alloc,
            by_number: copy_each(self.alloc, &self.by_number)?,
            earliest: self.earliest,
        })
    }
}

fn add(uploads: &mut BTreeMap<u64, Upload>, number: u64, upload: Upload) -> Result<(), AllocError>
    ensures added { OnOk result (uploads.new.entries ≡ insert_entry nat_cmp uploads.old.entries number upload) }
    ensures unchanged { OnErr result (uploads.new.entries ≡ uploads.old.entries) }
{
    match uploads.insert(number, upload) {
        Ok(replaced) => {
            drop(replaced);
            Ok(())
        }
        Err(refused) => {
            drop(refused);
            Err(AllocError)
        }
    }
}

#[tactic(auto, unfolding(gcs_meaning::specs::Uploads::aged_uploads))]
fn age_each(uploads: &mut BTreeMap<u64, Upload>, moment: u64)
    ensures { uploads.new.entries ≡ aged_uploads moment uploads.old.entries }
{
    // Every upload is kept: `retain` is the walk whose contract tells what is written.
    uploads.retain(|_, upload| {
        running::age(upload, moment);
        true
    });
}

// The earliest start of the uploads that run; where none does, the last moment of a clock.
fn earliest_start(uploads: &BTreeMap<u64, Upload>) -> u64
    ensures { result ≡ earliest_start uploads.now.entries }
{
    let mut earliest = u64::MAX;
    for (_, upload) in uploads.iter() {
        earliest = earliest.min(running::begun(upload));
    }
    earliest
}

fn copy_each(
    alloc: Global,
    uploads: &BTreeMap<u64, Upload>,
) -> Result<BTreeMap<u64, Upload>, AllocError>
    ensures { IfOk result (λ made. made.entries ≡ uploads.now.entries) }
{
    let mut made = BTreeMap::new(alloc);
    for (number, upload) in uploads.iter() {
        add(&mut made, *number, upload.copy()?)?;
    }
    Ok(made)
}
