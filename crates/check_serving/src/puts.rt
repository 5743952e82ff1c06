//! Workers who put one object over and over, beside each other.
ghost use Rattle.std.specs.Prelude.{◌≤◌};

use crate::listener::{MOMENT, listener};
use crate::report::tell;
use gcs_chunks::Chunks;
use gcs_http_in::Limits;
use gcs_io::QuietGate;
use gcs_meaning::{Answer, BucketName, Command, Name, Pre, Text, shard_of};
use gcs_store::{Shard, SharedStore};
use gcs_workers::{ListListen, serve_all};
use std::alloc::{AllocError, Global};
use std::io;
use std::sync::Wait;
use std::thread::Threads;

/// Makes the bucket `box`, in which a version that is replaced is gone at once.
const INSERT: &str = "POST /storage/v1/b?project=p HTTP/1.1\r\nContent-Length: 66\r\n\r\n\
    {\"name\":\"box\",\"softDeletePolicy\":{\"retentionDurationSeconds\":\"0\"}}";

/// Puts the object `a` once.
const PUT: &str = "POST /upload/storage/v1/b/box/o?uploadType=media&name=a&fields=size HTTP/1.1\r\n\
    Content-Length: 1\r\n\r\nx";

/// No precondition.
const ANY: Pre = Pre {
    generation_is: None,
    generation_not: None,
    metageneration_is: None,
    metageneration_not: None,
};

/// How often each worker puts it.
const TIMES: usize = 1_000;

/// The first put has the moment as its generation, and each further one the next number.
pub fn try_puts<R>(rt: &R) -> io::Result<bool>
where
    R: Threads + Wait + Sync + Print + AllocGlobal,
{
    let alloc = rt.alloc();
    let came = put_beside(rt, alloc, 2)?;
    let mut all_ok = tell(
        rt,
        "two workers put one object 1,000 times each",
        came.as_str(),
        "2001 entries, the live version is number 2000",
    )?;
    let came = put_beside(rt, alloc, 64)?;
    all_ok &= tell(
        rt,
        "64 workers put one object 1,000 times each",
        came.as_str(),
        "64001 entries, the live version is number 64000",
    )?;
    Ok(all_ok)
}

// How many entries the shard has, and which of all puts the live version is, from 1.
fn put_beside<R: Threads + Wait + Sync>(
    rt: &R,
    alloc: Global,
    workers: u32,
) -> Result<String, AllocError>
    requires { (1 ≤ workers) × (workers ≤ 64) }
{
    let chunks = Chunks::new(alloc)?;
    let (store, passes) = SharedStore::new(alloc, &chunks, workers)?;
    let limits = Limits::usual();
    let made = listener(alloc, &[INSERT], &[])?;
    let (_, passes, made) = serve_all(
        rt, alloc, &store, &chunks, made, &QuietGate, passes, &limits,
    );
    let putting = putting(alloc, workers)?;
    let (_, passes, putting) = serve_all(
        rt, alloc, &store, &chunks, putting, &QuietGate, passes, &limits,
    );
    let Ok(mut shards) = store.finish(passes) else {
        return Err(AllocError);
    };
    match shards.get_mut(usize::from(shard_of(b"box"))) {
        Some(shard) => told(alloc, shard),
        None => String::from_str(alloc, "no shard"),
    }
}

// A connection for each worker, which puts the object over and over.
fn putting(alloc: Global, workers: u32) -> Result<ListListen, AllocError> {
    let text = PUT.repeat(alloc, TIMES)?;
    let texts = vec![in alloc; text.as_str(); workers as usize]?;
    listener(alloc, &texts, &[])
}

fn told(alloc: Global, shard: &mut Shard<'_>) -> Result<String, AllocError> {
    let entries = shard.history().len();
    let command = Command::Get {
        bucket: BucketName::new(Text::from_str(alloc, "box")?),
        name: Name::new(Text::from_str(alloc, "a")?),
        generation: None,
        soft: false,
        pre: ANY,
    };
    match shard.apply(0, 0, MOMENT, command) {
        Ok(Answer::Object(row, _)) => format!(in alloc;
            "{entries} entries, the live version is number {}",
            row.generation.saturating_sub(MOMENT).saturating_add(1)
        ),
        _ => format!(in alloc; "{entries} entries, no live version"),
    }
}
