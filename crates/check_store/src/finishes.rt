//! An upload of three pieces of zeros, whose finish is handed the digests of the first of them.
ghost use Rattle.std.specs.Prelude.{◌≡◌, IfOk};
ghost use Rattle.gcs_meaning.specs.Contents.{AnswerLiesIn};
ghost use Rattle.check_store.specs.Commands.{IsAskable};

use crate::commands::{command_of, tub};
use crate::upload_commands::zeros;
use gcs_chunks::Chunks;
use gcs_meaning::{Answer, Command, Hashed};
use gcs_store::Shard;
use std::alloc::{AllocError, Global};

const MOMENT: u64 = 1_700_000_000_000_000;

const FIRST: u64 = 1_048_576;

const ALL: u64 = 3_145_728;

/// Whether the version has both digests of all its bytes. The MD5 is what `md5sum` prints, and the CRC what CRC-32/ISCSI gives
/// bit by bit. `Err`: no memory.
pub fn has_digests_of_all(alloc: Global, chunks: &Chunks) -> Result<bool, AllocError> {
    let md5 = [
        0xD1, 0xDD, 0x21, 0x0D, 0x6B, 0x13, 0x12, 0xCB, 0x34, 0x2B, 0x56, 0xD0, 0x2B, 0xD5, 0xE6,
        0x51,
    ];
    let answer = finish(alloc, chunks)?;
    Ok(match &answer {
        Answer::Object(row, _) => row.hashed.crc() == 0xDD28_F52B && row.hashed.md5() == Some(md5),
        _ => false,
    })
}

/// Whether the version's content and its copy have the same bytes. `Err`: no memory.
pub fn is_copied_whole(alloc: Global, chunks: &Chunks) -> Result<bool, AllocError> {
    let answer = finish(alloc, chunks)?;
    Ok(match &answer {
        Answer::Object(row, _) => {
            let copy = row.hashed.content().copy()?;
            copy.len() == ALL && copy.same_spans(row.hashed.content(), chunks)
        }
        _ => false,
    })
}

fn finish(alloc: Global, chunks: &Chunks) -> Result<Answer, AllocError>
    ensures { IfOk result (λ answer. AnswerLiesIn chunks.now answer) }
{
    let mut shard = Shard::new(alloc, chunks);
    for words in [
        "insert",
        "start",
        "append 1 0 1048576 -",
        "append 1 1048576 1048576 -",
        "append 1 2097152 1048576 3145728",
    ] {
        let Some(command) = command_of(alloc, chunks, words)? else {
            return Ok(Answer::Empty);
        };
        ask(&mut shard, command)?;
    }
    let command = Command::Finish {
        bucket: tub(alloc)?,
        upload: 1,
        hashed: Hashed::of(zeros(alloc, FIRST)?, chunks),
    };
    ask(&mut shard, command)
}

fn ask(shard: &mut Shard<'_>, command: Command) -> Result<Answer, AllocError>
    requires { IsAskable command }
    ensures chunks { shard.new.chunks ≡ shard.old.chunks }
    ensures lies { IfOk result (λ answer. AnswerLiesIn shard.old.chunks answer) }
{
    match shard.apply(0, 0, MOMENT, command) {
        Ok(answer) => Ok(answer),
        Err(command) => {
            drop(command);
            Err(AllocError)
        }
    }
}
