//! Contents that are joined or cut otherwise with their digests, and what else the store's data give away.
ghost use Rattle.std.specs.Prelude.{◌≡◌, ◌≤◌, [], length, IfOk};
ghost use Rattle.gcs_chunks.specs.Content.{bytes_of, ChunksValue, ContentLiesIn};
ghost use Rattle.gcs_meaning.specs.Contents.{HashedLiesIn};

use gcs_chunks::{Chunks, Content, Piece};
use gcs_meaning::{BucketName, Copied, Hashed, Name, Part, Text};
use std::alloc::{AllocError, Global};

/// Whether the digits, joined of two contents, have their CRC without an MD5; and cut in two, both digests that they have as one.
#[tactic(auto, using(gcs_chunks::proofs::Words::lies_nothing))]
pub fn are_joined(alloc: Global, chunks: &Chunks) -> Result<bool, AllocError> {
    let mut joined = Hashed::none(alloc);
    let empty = joined.crc() == 0 && joined.md5().is_none();
    let front = Hashed::of(content_of(alloc, b"1234")?, chunks);
    let back = Hashed::of(content_of(alloc, b"56789")?, chunks);
    let done = join(&mut joined, &front)? && join(&mut joined, &back)?;
    let whole = Hashed::of(content_of(alloc, b"123456789")?, chunks);
    Ok(
        empty
            && done
            && joined.md5().is_none()
            && joined.crc() == 0xE306_9283
            && joined.content().same_spans(whole.content(), chunks)
            && is_over(&whole, &joined, chunks)?,
    )
}

// Both are short, so that the joined length is.
#[tactic(auto, using(gcs_chunks::proofs::Words::lies_joined, gcs_chunks::proofs::Words::lies_rest))]
fn join(whole: &mut Hashed, part: &Hashed) -> Result<bool, AllocError>
    ensures { (chunks : ChunksValue) → HashedLiesIn chunks whole.old → HashedLiesIn chunks part.now → HashedLiesIn chunks whole.new }
{
    if whole.content().len() > 9 || part.content().len() > 9 {
        return Ok(false);
    }
    whole.join(part)?;
    Ok(true)
}

fn is_over(whole: &Hashed, joined: &Hashed, chunks: &Chunks) -> Result<bool, AllocError>
    requires whole { HashedLiesIn chunks.now whole.now }
    requires joined { HashedLiesIn chunks.now joined.now }
{
    let content = joined.content().copy()?;
    Ok(if content.same_spans(whole.content(), chunks) {
        let over = whole.over(content);
        over.crc() == whole.crc() && over.md5() == whole.md5()
    } else {
        false
    })
}

fn content_of(alloc: Global, bytes: &[u8]) -> Result<Content, AllocError>
    requires least { 1 ≤ length bytes.now }
    requires most { length bytes.now ≤ 9 }
    ensures { IfOk result (λ made. (chunks : ChunksValue) → ContentLiesIn chunks made) }
{
    let mut content = no_bytes(alloc);
    let bytes = Vec::from_slice(alloc, bytes)?;
    let piece = Piece::own(alloc, bytes)?;
    let size = piece.len();
    content.append(&piece, 0, size)?;
    Ok(content)
}

/// Whether names give their text away, and a source of a compose is copied.
pub fn are_given(alloc: Global) -> Result<bool, AllocError> {
    let name = Name::new(Text::from_str(alloc, "a")?);
    let bucket = BucketName::new(Text::from_str(alloc, "tub")?);
    let part = Part {
        name: name.copy()?,
        generation: Some(7),
        generation_is: None,
    };
    let copied = part.copy()?;
    Ok(
        copied.name.as_str() == "a"
            && copied.generation == Some(7)
            && copied.generation_is.is_none()
            && name.into_text().as_str() == "a"
            && bucket.into_text().as_str() == "tub",
    )
}

/// A content without bytes.
#[tactic(auto, unfolding(gcs_chunks::specs::Content::bytes_of, gcs_chunks::specs::Content::no_content))]
pub fn no_bytes(alloc: Global) -> Content
    ensures bytes { bytes_of result ≡ [] }
    ensures lies { (chunks : ChunksValue) → ContentLiesIn chunks result }
{
    Content::empty(alloc)
}
