//! What the commands of a run are made of: moments, names, versions that are there, and numbers around theirs.
use crate::dice::Dice;
use crate::kept::{Bucket, Progress, Slot, Upload};
use crate::slot::UPLOAD_LIFE;
use crate::themes::Theme;
use gcs_chunks::Chunks;
use gcs_meaning::{BucketName, Copied, Kind, MICROSECONDS_PER_SECOND, Name, Pre, Text};
use std::alloc::{AllocError, Global};

/// The moment of the first command.
const FIRST_MOMENT: u64 = 1_700_000_000_000_000;

const ANY: Pre = Pre {
    generation_is: None,
    generation_not: None,
    metageneration_is: None,
    metageneration_not: None,
};

/// Makes the commands of a run. It looks at what is kept, so that most of them find something.
#[derive(Drop)]
pub struct Maker<'c> {
    pub alloc: Global,
    pub chunks: &'c Chunks,
    pub dice: Dice,
    pub theme: &'static Theme,
    /// Whether uploads come in pieces of the full length.
    pub has_long_pieces: bool,
}

/// The version that a command is made for, with preconditions on it.
#[derive(Drop)]
pub struct Target {
    pub name: Name,
    pub generation: Option<u64>,
    pub pre: Pre,
}

impl<'c> Maker<'c> {
    /// The maker of the run of that number.
    pub fn new(alloc: Global, chunks: &'c Chunks, theme: &'static Theme, run: u64) -> Maker<'c> {
        Maker {
            alloc,
            chunks,
            dice: Dice::new(run),
            theme,
            has_long_pieces: run % 8 == 0,
        }
    }

    /// The next reading of the clock: the last moment, a little later or earlier, or an end that comes. `Err`: no memory.
    pub fn moment(&mut self, slot: &Slot) -> Result<u64, AllocError> {
        let last = slot.last_moment.max(FIRST_MOMENT);
        Ok(match self.dice.below(16) {
            0..=5 => last,
            6..=9 => last.saturating_add(self.dice.below(3)),
            10 => last.saturating_sub(self.dice.below(1_000_000)),
            11 => last.saturating_add(MICROSECONDS_PER_SECOND),
            12 if self.dice.once_in(64) => u64::MAX,
            _ => self.end(slot)?.unwrap_or(last),
        })
    }

    // At one of the nearest ends or right before it: of a deleted bucket, of a version or of an upload.
    fn end(&mut self, slot: &Slot) -> Result<Option<u64>, AllocError> {
        let mut ends = Vec::new(self.alloc);
        for grave in &slot.graves {
            ends.push(grave.hard)?;
        }
        if let Some(bucket) = &slot.alive {
            add_ends(&mut ends, bucket)?;
        }
        ends.retain(|end| *end > slot.last_moment);
        ends.sort()?;
        ends.truncate(3);
        let end = self.dice.any_of(&ends).copied();
        Ok(end.map(|end| end.saturating_sub(self.dice.below(2))))
    }

    pub fn text(&self, text: &str) -> Result<Text, AllocError> {
        Text::from_str(self.alloc, text)
    }

    /// The text, once in four times. `Err`: no memory.
    pub fn some_text(&mut self, text: &str) -> Result<Option<Text>, AllocError> {
        Ok(if self.dice.once_in(4) {
            Some(self.text(text)?)
        } else {
            None
        })
    }

    /// The bucket. `Err`: no memory.
    pub fn tub(&self) -> Result<BucketName, AllocError> {
        Ok(BucketName::new(self.text("tub")?))
    }

    /// One of the theme's names. `Err`: no memory.
    pub fn name(&mut self) -> Result<Name, AllocError> {
        let name = self.dice.any_of(self.theme.names).copied().unwrap_or("a");
        Ok(Name::new(self.text(name)?))
    }

    /// A version, soft-deleted or not, and seldom one that isn't there. `Err`: no memory.
    pub fn target(&mut self, slot: &Slot, is_soft: bool) -> Result<Target, AllocError> {
        let mut fitting = Vec::new(self.alloc);
        if let Some(bucket) = &slot.alive
            && !self.dice.once_in(16)
        {
            for version in &bucket.versions {
                if version.is_soft() == is_soft {
                    fitting.push(version)?;
                }
            }
        }
        let Some(version) = self.dice.any_of(&fitting) else {
            return Ok(Target {
                name: self.name()?,
                generation: self.around(slot.last_object, 4),
                pre: ANY,
            });
        };
        let is_unnamed = version.kind == Kind::Live && self.dice.once_in(2);
        Ok(Target {
            name: version.body.name.copy()?,
            generation: if is_unnamed {
                None
            } else {
                Some(version.generation)
            },
            pre: self.pre(version.generation, version.metageneration),
        })
    }

    /// One of the uploads, mostly the last.
    pub fn any_upload<'s>(&mut self, slot: &'s Slot) -> Option<&'s Upload> {
        let bucket = slot.alive.as_ref()?;
        if self.dice.once_in(2) {
            return bucket.uploads.last();
        }
        self.dice.any_of(&bucket.uploads)
    }

    /// Preconditions, if any, around these numbers.
    pub fn pre(&mut self, generation: u64, metageneration: u64) -> Pre {
        if !self.dice.once_in(4) {
            return ANY;
        }
        Pre {
            generation_is: self.around(generation, 6),
            generation_not: self.around(generation, 2),
            metageneration_is: self.around(metageneration, 6),
            metageneration_not: self.around(metageneration, 2),
        }
    }

    /// Preconditions around the numbers of the live version of a name.
    pub fn live_pre(&mut self, slot: &Slot, name: &Name) -> Pre {
        if let Some(bucket) = &slot.alive
            && let Some(live) = bucket.live(name)
        {
            return self.pre(live.generation, live.metageneration);
        }
        self.pre(0, 0)
    }

    // In half of the cases none, else the number, so many times of eight, or the next one.
    fn around(&mut self, number: u64, hits: u64) -> Option<u64> {
        if self.dice.once_in(2) {
            return None;
        }
        let is_hit = self.dice.below(8) < hits;
        Some(number.saturating_add(u64::from(!is_hit)))
    }
}

fn add_ends(ends: &mut Vec<u64>, bucket: &Bucket) -> Result<(), AllocError> {
    for version in &bucket.versions {
        ends.push(match version.kind {
            Kind::Soft { hard, .. } => hard,
            Kind::Live | Kind::Noncurrent { .. } => bucket.retained_until(version),
        })?;
    }
    for upload in &bucket.uploads {
        if let Progress::Running = upload.progress {
            ends.push(upload.start.saturating_add(UPLOAD_LIFE))?;
        }
    }
    Ok(())
}
