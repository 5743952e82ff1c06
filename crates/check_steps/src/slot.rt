//! One command on the plain store.
ghost use Rattle.gcs_meaning.specs.Contents.{CommandLiesIn};

use crate::kept::{Bucket, Progress, Slot, Stop, Wanted};
use crate::puts::check_metageneration;
use gcs_chunks::Chunks;
use gcs_meaning::{Command, Kind, LAST_READING, Reason};
use std::alloc::{AllocError, Global};

/// After so many microseconds an upload that still runs expires: 7 days.
pub const UPLOAD_LIFE: u64 = 604_800_000_000;

impl Slot {
    /// The slot of a name without a bucket.
    pub fn new(alloc: Global) -> Slot {
        Slot {
            alloc,
            is_known: false,
            alive: None,
            graves: Vec::new(alloc),
            last_moment: 0,
            last_object: 0,
            last_bucket: 0,
            last_upload: 0,
        }
    }

    /// What the command answers at this reading of the clock (microseconds since 1970). `Err`: no memory.
    pub fn apply(
        &mut self,
        reading: u64,
        command: &Command,
        chunks: &Chunks,
    ) -> Result<Wanted, AllocError>
        requires { CommandLiesIn chunks.now command.now }
    {
        match self.step(reading, command, chunks) {
            Ok(wanted) => Ok(wanted),
            Err(Stop::Refused(reason)) => Ok(Wanted::Refused(reason)),
            Err(Stop::NoMemory) => Err(AllocError),
        }
    }

    fn step(&mut self, reading: u64, command: &Command, chunks: &Chunks) -> Result<Wanted, Stop>
        requires { CommandLiesIn chunks.now command.now }
    {
        if !self.is_known {
            self.know(command)?;
        }
        let moment = self.last_moment.max(reading.min(LAST_READING));
        self.last_moment = moment;
        self.age(moment);
        match command {
            Command::BucketInsert { settings, .. } => self.insert(moment, settings),
            Command::BucketRestore { generation, .. } => self.restore_bucket(moment, *generation),
            Command::BucketDelete { pre, .. } => self.delete_bucket(moment, pre),
            Command::Put { .. } => self.put_command(moment, command, chunks),
            Command::Compose {
                name,
                pre,
                meta,
                parts,
                ..
            } => self.compose(moment, (name, meta), pre, parts.as_slice()),
            Command::Restore {
                name,
                generation,
                pre,
                ..
            } => self.restore(moment, name, *generation, pre),
            Command::Start { .. } => self.start(moment, command),
            Command::Finish { upload, .. } => self.finish(moment, *upload),
            _ => self.alive()?.step(moment, command, chunks),
        }
    }

    // A name has no slot until its first insert.
    fn know(&mut self, command: &Command) -> Result<(), Stop> {
        match command {
            Command::BucketInsert { .. } => self.is_known = true,
            Command::BucketRestore { .. } => return Err(Stop::Refused(Reason::NoGrave)),
            _ => return Err(Stop::Refused(Reason::NoBucket)),
        }
        Ok(())
    }

    /// The bucket, which must be alive.
    pub fn alive(&mut self) -> Result<&mut Bucket, Stop> {
        self.alive.as_mut().ok_or(Stop::Refused(Reason::NoBucket))
    }

    // Takes away whose hard time has come, and ends the uploads that are too old.
    fn age(&mut self, moment: u64) {
        self.graves.retain(|grave| grave.hard > moment);
        for grave in self.graves.iter_mut() {
            grave.bucket.age(moment);
        }
        if let Some(bucket) = &mut self.alive {
            bucket.age(moment);
        }
    }
}

impl Bucket {
    // The commands that need nothing of the slot but its bucket.
    fn step(&mut self, moment: u64, command: &Command, chunks: &Chunks) -> Result<Wanted, Stop>
        requires { CommandLiesIn chunks.now command.now }
    {
        match command {
            Command::BucketGet { pre, .. } => {
                check_metageneration(pre, self.metageneration)?;
                Ok(Wanted::Bucket)
            }
            Command::BucketChange {
                pre,
                change,
                whole,
                ..
            } => self.change_bucket(moment, pre, change, *whole),
            Command::BucketLock { pre, .. } => self.lock(moment, pre),
            Command::List { query, .. } => self.list(query),
            Command::Get {
                name,
                generation,
                soft,
                pre,
                ..
            } => self.get(name, *generation, *soft, pre),
            Command::Change {
                name,
                generation,
                pre,
                change,
                whole,
                ..
            } => self.change(moment, (name, *generation), pre, change, *whole),
            Command::Delete {
                name,
                generation,
                pre,
                ..
            } => self.delete(moment, name, *generation, pre),
            Command::Append { .. } => self.append(command, chunks),
            Command::Cancel { upload, .. } => self.cancel(*upload),
            _ => Err(Stop::Refused(Reason::NoBucket)),
        }
    }

    fn age(&mut self, moment: u64) {
        self.versions.retain(|version| match version.kind {
            Kind::Soft { hard, .. } => hard > moment,
            Kind::Live | Kind::Noncurrent { .. } => true,
        });
        for upload in self.uploads.iter_mut() {
            let is_old = upload.start.saturating_add(UPLOAD_LIFE) <= moment;
            if let Progress::Running = upload.progress
                && is_old
            {
                upload.progress = Progress::Expired;
            }
        }
    }
}
