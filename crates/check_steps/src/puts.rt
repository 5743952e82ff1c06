//! Preconditions, and the rule of whatever makes a version.
ghost use Rattle.gcs_meaning.specs.Contents.{CommandLiesIn};

use crate::contents::{bytes_of, digests_of};
use crate::kept::{Body, Bucket, Slot, Stop, Version, Wanted};
use gcs_chunks::Chunks;
use gcs_meaning::{Command, Copied, Digest, Expect, Key, Kind, LARGEST_OBJECT, Name, Pre, Reason};

/// Tests the four preconditions in their order against the numbers of a version.
pub fn check_pre(pre: &Pre, generation: u64, metageneration: u64) -> Result<(), Stop> {
    check_number(Key::IfGenerationMatch, pre.generation_is, generation, true)?;
    check_number(
        Key::IfGenerationNotMatch,
        pre.generation_not,
        generation,
        false,
    )?;
    check_metageneration(pre, metageneration)
}

/// Tests the two on the metageneration, which are all that a bucket has.
pub fn check_metageneration(pre: &Pre, found: u64) -> Result<(), Stop> {
    check_number(
        Key::IfMetagenerationMatch,
        pre.metageneration_is,
        found,
        true,
    )?;
    check_number(
        Key::IfMetagenerationNotMatch,
        pre.metageneration_not,
        found,
        false,
    )
}

fn check_number(which: Key, wanted: Option<u64>, found: u64, is_match: bool) -> Result<(), Stop> {
    if let Some(wanted) = wanted
        && (wanted == found) != is_match
    {
        return Err(Stop::Refused(Reason::Condition {
            which,
            wanted,
            found,
        }));
    }
    Ok(())
}

// The CRC is tested before the MD5, which composed bytes don't have.
fn check_digests(body: &Body, expect: &Expect) -> Result<(), Stop> {
    let (crc, md5) = digests_of(&body.bytes);
    if let Some(given) = expect.crc
        && given != crc
    {
        return Err(Stop::Refused(Reason::HashDiffers {
            given: Digest::Crc(given),
            found: Digest::Crc(crc),
        }));
    }
    if let Some(given) = expect.md5
        && body.has_md5
        && given != md5
    {
        return Err(Stop::Refused(Reason::HashDiffers {
            given: Digest::Md5(given),
            found: Digest::Md5(md5),
        }));
    }
    Ok(())
}

impl Slot {
    /// A put of the command's bytes.
    pub fn put_command(
        &mut self,
        moment: u64,
        command: &Command,
        chunks: &Chunks,
    ) -> Result<Wanted, Stop>
        requires { CommandLiesIn chunks.now command.now }
    {
        let Command::Put {
            name,
            pre,
            meta,
            hashed,
            components,
            expect,
            ..
        } = command
        else {
            return Err(Stop::Refused(Reason::NoObject));
        };
        let body = Body {
            name: name.copy()?,
            bytes: bytes_of(self.alloc, chunks, hashed.content())?,
            has_md5: hashed.md5().is_some(),
            components: *components,
            meta: meta.copy()?,
        };
        self.put(moment, body, pre, expect)
    }

    /// Makes a live version of the body, in the place of the one that is live.
    pub fn put(
        &mut self,
        moment: u64,
        body: Body,
        pre: &Pre,
        expect: &Expect,
    ) -> Result<Wanted, Stop> {
        let generation = moment.max(self.last_object.saturating_add(1));
        let bucket = self.alive()?;
        bucket.check_put(moment, &body, pre, expect)?;
        if let Ok(place) = bucket.chosen(&body.name, None) {
            bucket.retire(place, moment, bucket.settings.versioned);
        }
        let version = bucket.version_of(moment, generation, body)?;
        let made = version.copy()?;
        bucket.versions.push(version)?;
        self.last_object = generation;
        Ok(Wanted::Object(made))
    }
}

impl Bucket {
    /// The live version of a name.
    pub fn live(&self, name: &Name) -> Option<&Version> {
        self.versions.iter().find(|version| version.kind == Kind::Live && version.is_of(name))
    }

    fn check_put(&self, moment: u64, body: &Body, pre: &Pre, expect: &Expect) -> Result<(), Stop> {
        match self.live(&body.name) {
            Some(live) => {
                check_pre(pre, live.generation, live.metageneration)?;
                if !self.settings.versioned {
                    self.check_cover(live, moment)?;
                }
            }
            None => check_pre(pre, 0, 0)?,
        }
        check_digests(body, expect)?;
        let size = body.bytes.len() as u64;
        if size > LARGEST_OBJECT {
            return Err(Stop::Refused(Reason::TooLarge { size }));
        }
        Ok(())
    }

    fn version_of(&self, moment: u64, generation: u64, mut body: Body) -> Result<Version, Stop> {
        if body.meta.event_hold.is_none() {
            body.meta.event_hold = Some(self.settings.default_event_hold);
        }
        if body.meta.storage_class.is_none() {
            body.meta.storage_class = Some(self.settings.storage_class.copy()?);
        }
        Ok(Version {
            body,
            generation,
            metageneration: 1,
            created: moment,
            updated: moment,
            retention_start: moment,
            kind: Kind::Live,
        })
    }
}
