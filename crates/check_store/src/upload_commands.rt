//! The commands on resumable uploads of the bucket's object `a`, by their words. All bytes are zeros.
ghost use Rattle.std.specs.Prelude.{IfOk};
ghost use Rattle.std.specs.Option.{IfSome};
ghost use Rattle.gcs_chunks.specs.Content.{ChunksValue, ContentLiesIn};
ghost use Rattle.check_store.specs.Commands.{IsAskable};

use crate::commands::{ANY, tub};
use crate::version_commands::{ANY_DIGEST, object, plain_meta};
use gcs_chunks::{Chunks, Content, LONGEST_PIECE, Piece};
use gcs_meaning::{Command, Expect, Hashed, Pre};
use std::alloc::{AllocError, Global};

/// The command of this word on an upload, if it is one. Numbers stand in the order of the command's fields, and another
/// word in the place of one that is absent. What a finish is handed is the content without bytes. `Err`: no memory.
pub fn upload_command(
    alloc: Global,
    chunks: &Chunks,
    word: &str,
    numbers: &str,
) -> Result<Option<Command>, AllocError>
    ensures { IfOk result (λ command. IfSome command IsAskable) }
{
    let new = Pre {
        generation_is: Some(0),
        ..ANY
    };
    // The CRC of `123456789`.
    let wrong = Expect {
        crc: Some(0xE306_9283),
        ..ANY_DIGEST
    };
    let (first, rest) = next_number(numbers);
    Ok(Some(match word {
        "start" => start(alloc, ANY, ANY_DIGEST, first)?,
        "start-new" => start(alloc, new, ANY_DIGEST, first)?,
        "start-wrong-crc" => start(alloc, ANY, wrong, first)?,
        "append" => append(alloc, first.unwrap_or(0), rest)?,
        "finish" => Command::Finish {
            bucket: tub(alloc)?,
            upload: first.unwrap_or(0),
            hashed: Hashed::of(Content::empty(alloc), chunks),
        },
        "cancel" => Command::Cancel {
            bucket: tub(alloc)?,
            upload: first.unwrap_or(0),
        },
        _ => return Ok(None),
    }))
}

fn start(alloc: Global, pre: Pre, expect: Expect, total: Option<u64>) -> Result<Command, AllocError>
    ensures { IfOk result IsAskable }
{
    Ok(Command::Start {
        bucket: tub(alloc)?,
        name: object(alloc)?,
        pre,
        meta: plain_meta(alloc)?,
        expect,
        total,
    })
}

// Of the numbers: the offset, how many bytes, and the total.
fn append(alloc: Global, upload: u64, numbers: &str) -> Result<Command, AllocError>
    ensures { IfOk result IsAskable }
{
    let (offset, rest) = next_number(numbers);
    let (size, rest) = next_number(rest);
    let (total, _) = next_number(rest);
    Ok(Command::Append {
        bucket: tub(alloc)?,
        upload,
        offset,
        total,
        content: zeros(alloc, size.unwrap_or(0))?,
    })
}

fn next_number(numbers: &str) -> (Option<u64>, &str) {
    let (first, rest) = numbers.split_once(" ").unwrap_or((numbers, ""));
    (first.parse::<u64>().ok(), rest)
}

/// So many zeros, and none where they are too many for one piece. `Err`: no memory.
#[tactic(auto, unfolding(gcs_chunks::specs::Content::bytes_of, gcs_chunks::specs::Content::no_content))]
pub fn zeros(alloc: Global, size: u64) -> Result<Content, AllocError>
    ensures { IfOk result (λ made. (chunks : ChunksValue) → ContentLiesIn chunks made) }
{
    let mut content = Content::empty(alloc);
    if size > 0 && size <= LONGEST_PIECE as u64 {
        let size = size as usize;
        let piece = Piece::own(alloc, vec![in alloc; 0u8; size]?)?;
        content.append(&piece, 0, size)?;
    }
    Ok(content)
}
