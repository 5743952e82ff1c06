//! The metadata and the settings that commands bring, and the changes of both.
ghost use Rattle.std.specs.Prelude.{IfOk};
ghost use Rattle.std.specs.Option.{ForSome};
ghost use Rattle.gcs_meaning.specs.Changes.{IfSet};
ghost use Rattle.gcs_meaning.specs.Policy.{IsDuration, IsPeriod};
ghost use Rattle.check_steps.specs.Commands.{IsAskable};

use crate::kept::Slot;
use crate::maker::Maker;
use gcs_meaning::{
    Command, DEFAULT_CLASS, DEFAULT_SOFT_SECONDS, List, Meta, MetaChange, Pairs, Pre, Retention,
    Set, Settings, SettingsChange, Text,
};
use std::alloc::AllocError;

impl Maker<'_> {
    pub fn insert(&mut self) -> Result<Command, AllocError>
        ensures { IfOk result IsAskable }
    {
        let settings = Settings {
            location: self.text("US")?,
            storage_class: self.text(DEFAULT_CLASS)?,
            labels: Pairs::new(self.alloc),
            lifecycle: self.some_text("rule")?,
            versioned: self.dice.below(8) < self.theme.versioned,
            default_event_hold: self.dice.once_in(8),
            retention: self.policy(),
            soft_seconds: if self.dice.below(8) < self.theme.soft {
                DEFAULT_SOFT_SECONDS
            } else {
                0
            },
            soft_since: 7,
        };
        Ok(Command::BucketInsert {
            bucket: self.tub()?,
            settings,
        })
    }

    fn policy(&mut self) -> Option<Retention>
        ensures { ForSome result (λ policy. IsPeriod policy.period) }
    {
        if self.dice.below(8) >= self.theme.retained {
            return None;
        }
        Some(Retention {
            period: self.period(),
            since: 7,
            locked: self.dice.once_in(8),
        })
    }

    fn period(&mut self) -> u64
        ensures { IsPeriod result }
    {
        match self.dice.below(8) {
            0 => 3_155_760_000,
            1 => 1,
            2 => 9,
            3 => 11,
            _ => 10,
        }
    }

    fn duration(&mut self) -> u64
        ensures { IsDuration result }
    {
        match self.dice.below(4) {
            0 => 0,
            1 => 604_801,
            2 => 7_776_000,
            _ => DEFAULT_SOFT_SECONDS,
        }
    }

    /// Preconditions around the metageneration of the bucket; the other two are passed over.
    pub fn bucket_pre(&mut self, slot: &Slot) -> Pre {
        match &slot.alive {
            Some(bucket) => self.pre(bucket.generation, bucket.metageneration),
            None => self.pre(0, 0),
        }
    }

    pub fn change_bucket(&mut self, slot: &Slot) -> Result<Command, AllocError>
        ensures { IfOk result IsAskable }
    {
        let change = SettingsChange {
            labels: self.set_pairs()?,
            lifecycle: self.set_text("other rule")?,
            versioned: self.set_flag(),
            default_event_hold: self.set_flag(),
            retention_period: self.set_period(),
            soft_seconds: self.set_duration(),
            storage_class: self.set_text("COLDLINE")?,
        };
        Ok(Command::BucketChange {
            bucket: self.tub()?,
            pre: self.bucket_pre(slot),
            change,
            whole: self.dice.once_in(8),
        })
    }

    fn set_period(&mut self) -> Set<u64>
        ensures { IfSet result IsPeriod }
    {
        match self.dice.below(8) {
            0 => Set::Clear,
            1 | 2 => Set::To(self.period()),
            _ => Set::Keep,
        }
    }

    fn set_duration(&mut self) -> Set<u64>
        ensures { IfSet result IsDuration }
    {
        match self.dice.below(8) {
            0 => Set::Clear,
            1 | 2 => Set::To(self.duration()),
            _ => Set::Keep,
        }
    }

    pub fn meta(&mut self) -> Result<Meta, AllocError> {
        let mut custom = Pairs::new(self.alloc);
        if self.dice.once_in(4) {
            custom.set(&self.text("k")?, &Some(self.text("value")?))?;
        }
        Ok(Meta {
            content_type: self.text("text/plain")?,
            cache_control: self.some_text("no-store")?,
            content_disposition: self.some_text("inline")?,
            content_encoding: None,
            content_language: None,
            storage_class: self.some_text("NEARLINE")?,
            custom_time: if self.dice.once_in(4) { Some(5) } else { None },
            temporary_hold: self.dice.once_in(16),
            event_hold: match self.dice.below(16) {
                0 => Some(true),
                1 => Some(false),
                _ => None,
            },
            custom,
        })
    }

    pub fn meta_change(&mut self) -> Result<MetaChange, AllocError> {
        Ok(MetaChange {
            content_type: self.set_text("text/html")?,
            cache_control: self.set_text("private")?,
            content_disposition: self.set_text("attachment")?,
            content_encoding: self.set_text("gzip")?,
            content_language: self.set_text("de")?,
            custom_time: match self.dice.below(8) {
                0 => Set::Clear,
                1 | 2 => Set::To(self.dice.below(10)),
                _ => Set::Keep,
            },
            temporary_hold: self.set_flag(),
            event_hold: self.set_flag(),
            custom: self.set_pairs()?,
        })
    }

    fn set_text(&mut self, text: &str) -> Result<Set<Text>, AllocError> {
        Ok(match self.dice.below(8) {
            0 => Set::Clear,
            1 | 2 => Set::To(self.text(text)?),
            _ => Set::Keep,
        })
    }

    fn set_flag(&mut self) -> Set<bool> {
        match self.dice.below(8) {
            0 => Set::Clear,
            1 => Set::To(true),
            2 => Set::To(false),
            _ => Set::Keep,
        }
    }

    fn set_pairs(&mut self) -> Result<Set<List<(Text, Option<Text>)>>, AllocError> {
        match self.dice.below(8) {
            0 => return Ok(Set::Clear),
            1..=3 => {}
            _ => return Ok(Set::Keep),
        }
        let mut pairs = List::new(self.alloc);
        for _ in 0..self.dice.below(4) {
            let key = if self.dice.once_in(2) { "k" } else { "l" };
            let value = match self.dice.below(16) {
                0..=3 => None,
                4 => Some(self.long_text()?),
                _ => Some(self.text("other")?),
            };
            pairs.push((self.text(key)?, value))?;
        }
        Ok(Set::To(pairs))
    }

    // With a key of one byte it fills custom metadata up to the limit, or one byte behind it.
    fn long_text(&mut self) -> Result<Text, AllocError> {
        let mut text = String::new(self.alloc);
        for _ in 0..8_190 + self.dice.below(3) {
            text.push('x')?;
        }
        Ok(Text::from_string(text))
    }
}
