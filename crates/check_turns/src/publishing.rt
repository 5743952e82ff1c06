//! Pieces that threads publish.
ghost use Rattle.std.specs.Prelude.{IfOk};
ghost use Rattle.std.specs.Arc.{arc_value};
ghost use Rattle.gcs_chunks.specs.Content.{ChunksValue, ContentLiesIn, PieceLiesIn};

use gcs_chunks::{Chunks, Content, Piece};
use std::alloc::{AllocError, Global};
use std::sync::{Arc, Wait};
use std::thread::{Threads, join};

/// What a content reads whose two pieces two threads published, `aa` and `bb`.
pub fn pieces_of_two_threads<R: Threads + Wait + Sync>(
    rt: &R,
    alloc: Global,
) -> Result<String, AllocError> {
    let chunks = Chunks::new(alloc)?;
    let (first, second) = publish_both(rt, alloc, &chunks)?;
    let mut content = Content::empty(alloc);
    add(&mut content, &first)?;
    add(&mut content, &second)?;
    let mut bytes = [0u8; 8];
    let count = content.read(&chunks, 0, &mut bytes);
    String::from_str(alloc, str::from_utf8(&bytes[..count]).unwrap_or("no text"))
}

// Two pieces, each published by a thread of its own.
fn publish_both<R: Threads + Wait + Sync>(
    rt: &R,
    alloc: Global,
    chunks: &Chunks,
) -> Result<(Arc<Piece>, Arc<Piece>), AllocError>
    ensures { IfOk result (λ pieces. PieceLiesIn chunks.now (arc_value pieces.0) × PieceLiesIn chunks.now (arc_value pieces.1)) }
{
    let (first, second) = join(
        rt,
        || publish_twice(rt, alloc, chunks, b'a'),
        || publish_twice(rt, alloc, chunks, b'b'),
    );
    Ok((first?, second?))
}

// A published piece of a byte, twice.
fn publish_twice<R: Wait>(
    rt: &R,
    alloc: Global,
    chunks: &Chunks,
    byte: u8,
) -> Result<Arc<Piece>, AllocError>
    ensures { IfOk result (λ piece. PieceLiesIn chunks.now (arc_value piece)) }
{
    let mut bytes = Vec::new(alloc);
    bytes.push(byte)?;
    bytes.push(byte)?;
    chunks.publish(rt, bytes)
}

// Adds a piece to a short content.
fn add(content: &mut Content, piece: &Arc<Piece>) -> Result<(), AllocError>
    ensures { (chunks : ChunksValue) → ContentLiesIn chunks content.old → PieceLiesIn chunks (arc_value piece.now) → ContentLiesIn chunks content.new }
{
    if content.len() <= 100 {
        content.append(piece, 0, piece.len())?;
    }
    Ok(())
}
