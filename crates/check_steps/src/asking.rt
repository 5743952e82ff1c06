//! The commands of a run.
ghost use Rattle.std.specs.Prelude.{◌≤◌, IfOk, length, vec_len};
ghost use Rattle.check_steps.specs.Commands.{IsAskable};

use crate::contents::{content_of, digests_of};
use crate::kept::{Slot, Upload};
use crate::maker::{Maker, Target};
use crate::restores::ANY_DIGEST;
use crate::themes::Verb;
use crate::uploads::PIECE_STEP;
use gcs_meaning::{
    Command, Expect, Hashed, LARGEST_OBJECT, List, PageQuery, Part, Text, Unit, View,
};
use std::alloc::AllocError;

impl Maker<'_> {
    /// The next command, of which the first one is an insert. `Err`: no memory.
    pub fn command(&mut self, slot: &Slot) -> Result<Command, AllocError>
        ensures { IfOk result IsAskable }
    {
        let verb = match self.dice.any_of(self.theme.verbs) {
            Some(verb) if slot.is_known => *verb,
            _ => Verb::BucketInsert,
        };
        match verb {
            Verb::BucketInsert => self.insert(),
            Verb::BucketChange => self.change_bucket(slot),
            Verb::BucketGet | Verb::BucketDelete | Verb::BucketLock | Verb::BucketRestore => {
                self.ask_bucket(verb, slot)
            }
            Verb::List => self.list(slot),
            Verb::Get | Verb::Change | Verb::Delete => self.ask_version(verb, slot),
            Verb::Put => self.put(slot),
            Verb::Compose => self.compose(slot),
            Verb::Restore => self.restore(slot),
            Verb::Start => self.start(slot),
            Verb::Append => self.append(slot),
            Verb::Finish | Verb::Cancel => self.end_upload(verb, slot),
        }
    }

    fn ask_bucket(&mut self, verb: Verb, slot: &Slot) -> Result<Command, AllocError>
        ensures { IfOk result IsAskable }
    {
        let bucket = self.tub()?;
        let pre = self.bucket_pre(slot);
        let generation = match self.dice.any_of(&slot.graves) {
            Some(grave) => grave.bucket.generation,
            None => slot.last_bucket,
        };
        match verb {
            Verb::BucketDelete => Ok(Command::BucketDelete { bucket, pre }),
            Verb::BucketLock => Ok(Command::BucketLock { bucket, pre }),
            Verb::BucketRestore => Ok(Command::BucketRestore { bucket, generation }),
            _ => Ok(Command::BucketGet { bucket, pre }),
        }
    }

    fn ask_version(&mut self, verb: Verb, slot: &Slot) -> Result<Command, AllocError>
        ensures { IfOk result IsAskable }
    {
        let bucket = self.tub()?;
        let flag = self.dice.once_in(4);
        let is_soft = flag && matches!(verb, Verb::Get);
        let Target {
            name,
            generation,
            pre,
        } = self.target(slot, is_soft)?;
        match verb {
            Verb::Change => Ok(Command::Change {
                bucket,
                name,
                generation,
                pre,
                change: self.meta_change()?,
                whole: flag,
            }),
            Verb::Delete => Ok(Command::Delete {
                bucket,
                name,
                generation,
                pre,
            }),
            _ => Ok(Command::Get {
                bucket,
                name,
                generation,
                soft: flag,
                pre,
            }),
        }
    }

    fn put(&mut self, slot: &Slot) -> Result<Command, AllocError>
        ensures { IfOk result IsAskable }
    {
        let name = self.name()?;
        let bytes = self.few_bytes();
        let components = match self.dice.below(16) {
            0 => Some(3),
            1 => Some(2_147_483_647),
            _ => None,
        };
        Ok(Command::Put {
            bucket: self.tub()?,
            pre: self.live_pre(slot, &name),
            name,
            meta: self.meta()?,
            hashed: Hashed::of(content_of(self.alloc, bytes)?, self.chunks),
            components,
            expect: self.expect(bytes),
        })
    }

    fn few_bytes(&mut self) -> &'static [u8]
        ensures { length result.now ≤ 9 }
    {
        match self.dice.below(4) {
            0 => b"",
            1 => b"1",
            2 => b"hello",
            _ => b"123456789",
        }
    }

    // The digests that are told of bytes: mostly none, else right ones or wrong ones.
    fn expect(&mut self, bytes: &[u8]) -> Expect {
        let (crc, md5) = digests_of(bytes);
        let (crc, md5) = match self.dice.below(16) {
            0 => (crc, md5),
            1 => (1, md5),
            2 => (crc, [1; 16]),
            _ => return ANY_DIGEST,
        };
        Expect {
            crc: Some(crc),
            md5: Some(md5),
        }
    }

    fn restore(&mut self, slot: &Slot) -> Result<Command, AllocError>
        ensures { IfOk result IsAskable }
    {
        let target = self.target(slot, true)?;
        Ok(Command::Restore {
            bucket: self.tub()?,
            generation: target.generation.unwrap_or(0),
            pre: self.live_pre(slot, &target.name),
            name: target.name,
        })
    }

    fn compose(&mut self, slot: &Slot) -> Result<Command, AllocError>
        ensures { IfOk result IsAskable }
    {
        let name = self.name()?;
        let mut parts = List::new(self.alloc);
        parts.push(self.part(slot)?)?;
        if !self.dice.once_in(4) {
            parts.push(self.part(slot)?)?;
        }
        Ok(Command::Compose {
            bucket: self.tub()?,
            pre: self.live_pre(slot, &name),
            name,
            meta: self.meta()?,
            parts,
        })
    }

    fn part(&mut self, slot: &Slot) -> Result<Part, AllocError> {
        let target = self.target(slot, false)?;
        Ok(Part {
            name: target.name,
            generation: target.generation,
            generation_is: target.pre.generation_is,
        })
    }

    fn list(&mut self, slot: &Slot) -> Result<Command, AllocError>
        ensures { IfOk result IsAskable }
    {
        let view = match self.dice.below(3) {
            0 => View::Live,
            1 => View::Versions,
            _ => View::Soft,
        };
        let mut query = whole_list(self.text("")?, view)?;
        query.prefix = self.some_text("a")?.unwrap_or(self.text("")?);
        query.start = self.some_text("a/")?;
        query.end = self.some_text("b")?;
        query.trailing = self.dice.once_in(2);
        if self.dice.once_in(2) {
            query.delimiter = self.text("/")?;
        }
        if self.dice.once_in(2) {
            query.most = 1 + self.dice.below(4) as u32;
        }
        if self.dice.once_in(3) {
            let target = self.target(slot, view == View::Soft)?;
            query.after = Some(Unit {
                text: target.name.into_text(),
                number: target.generation.unwrap_or(self.dice.below(2)),
            });
        }
        Ok(Command::List {
            bucket: self.tub()?,
            query,
        })
    }

    fn start(&mut self, slot: &Slot) -> Result<Command, AllocError>
        ensures { IfOk result IsAskable }
    {
        let name = self.name()?;
        Ok(Command::Start {
            bucket: self.tub()?,
            pre: self.live_pre(slot, &name),
            name,
            meta: self.meta()?,
            expect: self.expect(b"55555"),
            total: if self.dice.once_in(4) { Some(5) } else { None },
        })
    }

    fn append(&mut self, slot: &Slot) -> Result<Command, AllocError>
        ensures { IfOk result IsAskable }
    {
        let upload = self.any_upload(slot);
        let (kept, known) = match upload {
            Some(upload) => (upload.body.bytes.len() as u64, upload.total),
            None => (0, None),
        };
        let piece = self.piece()?;
        let offset = match self.dice.below(16) {
            0 => None,
            1 => Some(0),
            2 => Some(kept.saturating_sub(3)),
            3 => Some(kept.saturating_add(1)),
            _ => Some(kept),
        };
        let end = offset.unwrap_or(kept).saturating_add(piece.len() as u64);
        Ok(Command::Append {
            bucket: self.tub()?,
            upload: self.number(slot, upload),
            offset,
            total: self.total(known, end),
            content: content_of(self.alloc, &piece)?,
        })
    }

    // Five bytes or some other number, or a piece of the full length or of one byte more.
    fn piece(&mut self) -> Result<Vec<u8>, AllocError>
        ensures { IfOk result (λ bytes. vec_len bytes ≤ 1048576) }
    {
        let length = if self.has_long_pieces && self.dice.once_in(2) {
            PIECE_STEP + self.dice.below(16) / 15
        } else if self.dice.once_in(4) {
            self.dice.below(9)
        } else {
            5
        };
        Ok(vec![in self.alloc; b'5'; length as usize]?)
    }

    // The total that is told with a piece: mostly none, what is known, or the piece's end.
    fn total(&mut self, known: Option<u64>, end: u64) -> Option<u64> {
        match self.dice.below(16) {
            0..=5 => None,
            6..=9 => known,
            10 => Some(end.saturating_add(PIECE_STEP)),
            11 => Some(end.saturating_sub(1)),
            12 => Some(LARGEST_OBJECT + self.dice.below(2)),
            _ => Some(end),
        }
    }

    fn number(&mut self, slot: &Slot, upload: Option<&Upload>) -> u64 {
        match upload {
            Some(upload) if !self.dice.once_in(32) => upload.number,
            _ => slot.last_upload.saturating_add(self.dice.below(2)),
        }
    }

    // A finish comes with the digests of five bytes, which are mostly not those of the upload.
    fn end_upload(&mut self, verb: Verb, slot: &Slot) -> Result<Command, AllocError>
        ensures { IfOk result IsAskable }
    {
        let bucket = self.tub()?;
        let upload = self.any_upload(slot);
        let upload = self.number(slot, upload);
        match verb {
            Verb::Finish => Ok(Command::Finish {
                bucket,
                upload,
                hashed: Hashed::of(content_of(self.alloc, b"55555")?, self.chunks),
            }),
            _ => Ok(Command::Cancel { bucket, upload }),
        }
    }
}

/// The query for all versions of a view on one page. The text is empty. `Err`: no memory.
pub fn whole_list(empty: Text, view: View) -> Result<PageQuery, AllocError> {
    Ok(PageQuery {
        view,
        prefix: empty.another("")?,
        delimiter: empty,
        start: None,
        end: None,
        trailing: false,
        most: 1_000,
        after: None,
    })
}
