//! What the lock of a retention policy asks the store, and the restores of what was deleted.
ghost use Rattle.std.specs.Prelude.{◌≡◌, IfOk, IsSome};
ghost use Rattle.gcs_route.specs.OfCall.{NamesBucket, NamesObject};
ghost use Rattle.gcs_rewrite.specs.Commands.{bucket_restore_move, generation_named, lock_move, restore_move};

use crate::moves::{Move, ask};
use gcs_meaning::{Command, Copied};
use gcs_route::Call;
use std::alloc::AllocError;

/// The lock of a bucket's retention policy. `Err`: no memory.
pub fn ask_lock(call: &Call) -> Result<Move, AllocError>
    requires { NamesBucket call.now }
    ensures { IfOk result (λ next. next ≡ lock_move call.now) }
{
    let name = call.bucket();
    let bucket = name.copy()?;
    Ok(ask(
        name,
        Command::BucketLock {
            bucket,
            pre: call.pre,
        },
    ))
}

/// The restore of a deleted bucket. `Err`: no memory.
pub fn ask_bucket_restore(call: &Call) -> Result<Move, AllocError>
    requires bucket { NamesBucket call.now }
    requires generation { IsSome call.now.generation }
    ensures { IfOk result (λ next. next ≡ bucket_restore_move call.now) }
{
    let name = call.bucket();
    let bucket = name.copy()?;
    let generation = generation_named(call);
    Ok(ask(name, Command::BucketRestore { bucket, generation }))
}

/// The restore of a soft-deleted version. `Err`: no memory.
pub fn ask_restore(call: &Call) -> Result<Move, AllocError>
    requires object { NamesObject call.now }
    requires generation { IsSome call.now.generation }
    ensures { IfOk result (λ next. next ≡ restore_move call.now) }
{
    let place = call.bucket();
    let bucket = place.copy()?;
    let name = call.object().copy()?;
    let generation = generation_named(call);
    Ok(ask(
        place,
        Command::Restore {
            bucket,
            name,
            generation,
            pre: call.pre,
        },
    ))
}

// The generation that the call must name.
fn generation_named(call: &Call) -> u64
    requires { IsSome call.now.generation }
    ensures { result ≡ generation_named call.now }
{
    match call.generation {
        Some(generation) => generation,
        None => unreachable!(),
    }
}
