//! Three callers at a store, on one thread.
ghost use Rattle.std.specs.Prelude.{◌≡◌, ◌<◌, IfOk, codes, length};
ghost use Rattle.gcs_store.specs.Passes.{AreAllPassesOf};
ghost use Rattle.check_store.specs.Commands.{IsAskedOfTub};

use crate::bucket_commands::plain_settings;
use crate::commands::ANY;
use crate::version_commands::{ANY_DIGEST, object, plain_meta};
use gcs_chunks::{Chunks, Content};
use gcs_io::QuietGate;
use gcs_meaning::{BucketName, Command, Desk, Entry, Hashed, Text, shard_of};
use gcs_store::{Passes, SharedStore};
use std::alloc::{AllocError, Global};
use std::mem;
use std::sync::Wait;

/// What the clock shows: 2023-11-14T22:13:20.000Z, in microseconds since 1970.
const MOMENT: u64 = 1_700_000_000_000_000;

/// Which entries the shard of `tub` has once caller 1 inserted it, caller 2 put an object, and caller 1 read it: a caller and
/// its number with each. `Err`: no memory.
pub fn entries_in_turns<R: Wait>(rt: &R, alloc: Global) -> Result<String, AllocError> {
    let chunks = Chunks::new(alloc)?;
    let (store, mut passes) = SharedStore::new(alloc, &chunks, 3)?;
    call(rt, alloc, &store, &mut passes, 1, insert(alloc)?)?;
    call(rt, alloc, &store, &mut passes, 2, put(alloc, &chunks)?)?;
    call(rt, alloc, &store, &mut passes, 1, get(alloc)?)?;
    let Ok(shards) = store.finish(passes) else {
        return Err(AllocError);
    };
    let mut line = String::new(alloc);
    if let Some(shard) = shards.get(usize::from(shard_of(b"tub"))) {
        for entry in shard.history() {
            line.push_str(entry_text(alloc, entry)?.as_str())?;
        }
    }
    Ok(line)
}

// One call by the passes of that caller.
fn call<'c, R: Wait>(
    rt: &R,
    alloc: Global,
    store: &SharedStore<'c>,
    passes: &mut Vec<Passes<'c>>,
    caller: usize,
    command: Command,
) -> Result<(), AllocError>
    requires passes { AreAllPassesOf store.now passes.old.items }
    requires caller { caller < length passes.old.items }
    requires command { IsAskedOfTub command }
    ensures passes { AreAllPassesOf store.now passes.new.items }
{
    let own = mem::replace(&mut passes[caller], Passes::none(alloc));
    let mut desk = store.desk(rt, &QuietGate, 0, own);
    let made = desk.call(shard_of(b"tub"), MOMENT, command);
    passes[caller] = desk.leave();
    match made {
        Ok(answer) => {
            drop(answer);
            Ok(())
        }
        Err(unheld) => {
            drop(unheld);
            Err(AllocError)
        }
    }
}

fn insert(alloc: Global) -> Result<Command, AllocError>
    ensures { IfOk result IsAskedOfTub }
{
    Ok(Command::BucketInsert {
        bucket: tub(alloc)?,
        settings: plain_settings(alloc)?,
    })
}

fn put(alloc: Global, chunks: &Chunks) -> Result<Command, AllocError>
    ensures { IfOk result IsAskedOfTub }
{
    Ok(Command::Put {
        bucket: tub(alloc)?,
        name: object(alloc)?,
        pre: ANY,
        meta: plain_meta(alloc)?,
        hashed: Hashed::of(Content::empty(alloc), chunks),
        components: None,
        expect: ANY_DIGEST,
    })
}

fn get(alloc: Global) -> Result<Command, AllocError>
    ensures { IfOk result IsAskedOfTub }
{
    Ok(Command::Get {
        bucket: tub(alloc)?,
        name: object(alloc)?,
        generation: None,
        soft: false,
        pre: ANY,
    })
}

fn tub(alloc: Global) -> Result<BucketName, AllocError>
    ensures { IfOk result (λ bucket. bucket ≡ codes "tub") }
{
    Ok(BucketName::new(Text::from_str(alloc, "tub")?))
}

fn entry_text(alloc: Global, entry: &Entry) -> Result<String, AllocError> {
    let verb = match &entry.command {
        Command::BucketInsert { .. } => "insert",
        Command::Put { .. } => "put",
        Command::Get { .. } => "get",
        _ => "other",
    };
    Ok(format!(in alloc; "{}.{} {verb}; ", entry.caller, entry.number)?)
}
