//! The commands of a row, by their words, on the bucket `tub` and its object `a`.
ghost use Rattle.std.specs.Prelude.{IfOk};
ghost use Rattle.std.specs.Option.{IfSome};
ghost use Rattle.check_store.specs.Commands.{IsAskable};

use crate::bucket_commands::bucket_command;
use crate::upload_commands::upload_command;
use crate::version_commands::version_command;
use gcs_chunks::Chunks;
use gcs_meaning::{BucketName, Command, Pre, Text};
use std::alloc::{AllocError, Global};

pub const ANY: Pre = Pre {
    generation_is: None,
    generation_not: None,
    metageneration_is: None,
    metageneration_not: None,
};

/// The command of these words: its name, and for most a number. `None`: there is no such command. `Err`: no memory.
pub fn command_of(
    alloc: Global,
    chunks: &Chunks,
    words: &str,
) -> Result<Option<Command>, AllocError>
    ensures { IfOk result (λ command. IfSome command IsAskable) }
{
    let (word, numbers) = words.split_once(" ").unwrap_or((words, ""));
    let number = numbers.parse::<u64>().ok();
    if let Some(command) = bucket_command(alloc, word, number)? {
        return Ok(Some(command));
    }
    if let Some(command) = upload_command(alloc, chunks, word, numbers)? {
        return Ok(Some(command));
    }
    version_command(alloc, chunks, word, number)
}

/// The bucket. `Err`: no memory.
pub fn tub(alloc: Global) -> Result<BucketName, AllocError> {
    Ok(BucketName::new(Text::from_str(alloc, "tub")?))
}
