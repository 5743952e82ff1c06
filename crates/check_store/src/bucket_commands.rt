//! The commands on the bucket itself, by their words.
ghost use Rattle.std.specs.Prelude.{IfOk};
ghost use Rattle.std.specs.Option.{ForSome, IfSome};
ghost use Rattle.gcs_meaning.specs.Changes.{IfSet};
ghost use Rattle.gcs_meaning.specs.Policy.{AreInLimits, IsDuration, IsPeriod};
ghost use Rattle.check_store.specs.Commands.{IsAskable};

use crate::commands::{ANY, tub};
use gcs_meaning::{
    BucketName, Command, DEFAULT_CLASS, DEFAULT_SOFT_SECONDS, Pairs, Pre, Retention, Set, Settings,
    SettingsChange, Text,
};
use std::alloc::{AllocError, Global};

// How a bucket is inserted: with soft deletion, a retention period of ten seconds, which may be locked, and a default hold.
#[derive(Clone, Copy)]
struct Terms {
    soft: bool,
    retained: bool,
    locked: bool,
    held: bool,
}

const USUAL: Terms = Terms {
    soft: true,
    retained: false,
    locked: false,
    held: false,
};

const RETAINED: Terms = Terms {
    retained: true,
    ..USUAL
};

/// The command of this word on the bucket, if it is one. A number is the metageneration that is wanted, or the generation of a
/// deleted bucket. `Err`: no memory.
pub fn bucket_command(
    alloc: Global,
    word: &str,
    number: Option<u64>,
) -> Result<Option<Command>, AllocError>
    ensures { IfOk result (λ command. IfSome command IsAskable) }
{
    let bucket = tub(alloc)?;
    let pre = Pre {
        metageneration_is: number,
        ..ANY
    };
    Ok(match word {
        "get-bucket" => Some(Command::BucketGet { bucket, pre }),
        "delete-bucket" => Some(Command::BucketDelete { bucket, pre }),
        "lock" => Some(Command::BucketLock { bucket, pre }),
        "restore-bucket" => Some(Command::BucketRestore {
            bucket,
            generation: number.unwrap_or(0),
        }),
        "list-buckets" => Some(Command::BucketList {
            shard: 11,
            prefix: Text::new(alloc),
            after: Text::new(alloc),
            most: 10,
        }),
        _ => match terms_of(word) {
            Some(terms) => Some(insert(alloc, bucket, terms)?),
            None => change_command(bucket, word),
        },
    })
}

fn terms_of(word: &str) -> Option<Terms> {
    match word {
        "insert" => Some(USUAL),
        "insert-hasty" => Some(Terms {
            soft: false,
            ..USUAL
        }),
        "insert-retained" => Some(RETAINED),
        "insert-locked" => Some(Terms {
            locked: true,
            ..RETAINED
        }),
        "insert-held" => Some(Terms {
            held: true,
            ..RETAINED
        }),
        _ => None,
    }
}

fn insert(alloc: Global, bucket: BucketName, terms: Terms) -> Result<Command, AllocError>
    ensures { IfOk result IsAskable }
{
    let settings = settings_of(alloc, terms)?;
    Ok(Command::BucketInsert { bucket, settings })
}

/// Settings with soft deletion, and nothing else. `Err`: no memory.
pub fn plain_settings(alloc: Global) -> Result<Settings, AllocError>
    ensures { IfOk result AreInLimits }
{
    settings_of(alloc, USUAL)
}

fn settings_of(alloc: Global, terms: Terms) -> Result<Settings, AllocError>
    ensures { IfOk result AreInLimits }
{
    Ok(Settings {
        location: Text::from_str(alloc, "US")?,
        storage_class: Text::from_str(alloc, DEFAULT_CLASS)?,
        labels: Pairs::new(alloc),
        lifecycle: None,
        versioned: false,
        default_event_hold: terms.held,
        retention: policy(terms),
        soft_seconds: duration(terms),
        soft_since: 0,
    })
}

fn policy(terms: Terms) -> Option<Retention>
    ensures { ForSome result (λ policy. IsPeriod policy.period) }
{
    if !terms.retained {
        return None;
    }
    Some(Retention {
        period: 10,
        since: 0,
        locked: terms.locked,
    })
}

fn duration(terms: Terms) -> u64
    ensures { IsDuration result }
{
    if terms.soft { DEFAULT_SOFT_SECONDS } else { 0 }
}

fn change_command(bucket: BucketName, word: &str) -> Option<Command>
    ensures { IfSome result IsAskable }
{
    Some(match word {
        "versioning-on" => change_bucket(bucket, Set::To(true), Set::Keep, Set::Keep, false),
        "versioning-off" => change_bucket(bucket, Set::To(false), Set::Keep, Set::Keep, false),
        "retain-nine" => change_bucket(bucket, Set::Keep, Set::To(9), Set::Keep, false),
        "retain-eleven" => change_bucket(bucket, Set::Keep, Set::To(11), Set::Keep, false),
        "retain-nothing" => change_bucket(bucket, Set::Keep, Set::Clear, Set::Keep, false),
        "keep-nothing" => change_bucket(bucket, Set::Keep, Set::Keep, Set::To(0), false),
        "set-all" => change_bucket(bucket, Set::To(true), Set::Keep, Set::Keep, true),
        _ => return None,
    })
}

// A `whole` change sets all that it doesn't name to its default.
fn change_bucket(
    bucket: BucketName,
    versioned: Set<bool>,
    retention_period: Set<u64>,
    soft_seconds: Set<u64>,
    whole: bool,
) -> Command
    requires period { IfSet retention_period IsPeriod }
    requires duration { IfSet soft_seconds IsDuration }
    ensures { IsAskable result }
{
    let change = SettingsChange {
        labels: Set::Keep,
        lifecycle: Set::Keep,
        versioned,
        default_event_hold: Set::Keep,
        retention_period,
        soft_seconds,
        storage_class: Set::Keep,
    };
    Command::BucketChange {
        bucket,
        pre: ANY,
        change,
        whole,
    }
}
