//! The store of a row: the bucket `tub` with the usual settings, in which nothing is.
ghost use Rattle.std.specs.Prelude.{◌≡◌, ◌<◌, IfOk, Some};
ghost use Rattle.gcs_chunks.specs.Content.{ChunksValue};
ghost use Rattle.gcs_meaning.specs.Contents.{CommandLiesIn};
ghost use Rattle.gcs_meaning.specs.Desk.{IsOf};
ghost use Rattle.gcs_meaning.specs.History.{bucket_of};
ghost use Rattle.gcs_meaning.specs.Policy.{AreInLimits};
ghost use Rattle.gcs_meaning.specs.Step.{IsInRange};

use gcs_chunks::Chunks;
use gcs_meaning::{BucketName, Command, Desk, Pairs, Settings, Text, shard_of};
use gcs_store::PlainDesk;
use std::alloc::{AllocError, Global};

/// When the bucket is made, and what a clock gives for which nothing is said: 2023-11-14T22:13:20.000Z.
pub const START: u64 = 1_700_000_000_000_000;

/// The name of the bucket.
pub const TUB: &str = "tub";

/// A desk whose histories have the insert of the bucket alone.
pub fn tub_desk<'c>(alloc: Global, chunks: &'c Chunks) -> Result<PlainDesk<'c>, AllocError>
    ensures { IfOk result (λ desk. desk.chunks ≡ chunks.now) }
{
    let mut desk = PlainDesk::new(alloc, chunks)?;
    insert_tub(alloc, &mut desk)?;
    Ok(desk)
}

/// How many entries the histories have together.
pub fn entries_of(desk: &PlainDesk<'_>) -> usize {
    let mut count: usize = 0;
    for number in 0..16u8 {
        count = count.saturating_add(desk.shard(number).history().len());
    }
    count
}

fn insert_tub(alloc: Global, desk: &mut PlainDesk<'_>) -> Result<(), AllocError>
    ensures { desk.new.chunks ≡ desk.old.chunks }
{
    let bucket = BucketName::new(Text::from_str(alloc, TUB)?);
    let shard = shard_of(bucket.as_bytes());
    let command = insert_command(alloc, bucket)?;
    call(desk, shard, command)
}

fn insert_command(alloc: Global, bucket: BucketName) -> Result<Command, AllocError>
    ensures in_range { IfOk result IsInRange }
    ensures bucket { IfOk result (λ command. bucket_of command ≡ Some bucket) }
    ensures lies { IfOk result (λ command. (chunks : ChunksValue) → CommandLiesIn chunks command) }
{
    let location = Text::from_str(alloc, "US")?;
    let storage_class = Text::from_str(alloc, "STANDARD")?;
    let settings = usual_settings(alloc, location, storage_class);
    Ok(Command::BucketInsert { bucket, settings })
}

fn usual_settings(alloc: Global, location: Text, storage_class: Text) -> Settings
    ensures { AreInLimits result }
{
    Settings {
        location,
        storage_class,
        labels: Pairs::new(alloc),
        lifecycle: None,
        versioned: false,
        default_event_hold: false,
        retention: None,
        soft_seconds: 604_800,
        soft_since: 0,
    }
}

fn call(desk: &mut PlainDesk<'_>, shard: u8, command: Command) -> Result<(), AllocError>
    requires shard { shard < 16 }
    requires belongs { IsOf shard command }
    requires in_range { IsInRange command }
    requires contents { CommandLiesIn desk.old.chunks command }
    ensures { desk.new.chunks ≡ desk.old.chunks }
{
    match desk.call(shard, START, command) {
        Ok(answer) => {
            drop(answer);
            Ok(())
        }
        Err(unheld) => {
            drop(unheld);
            Err(AllocError)
        }
    }
}
