//! Contents, their bytes, and the digests of these.
ghost use Rattle.std.specs.Prelude.{◌≤◌, length, IfOk};
ghost use Rattle.gcs_chunks.specs.Content.{ChunksValue, ContentLiesIn};

use gcs_chunks::{Chunks, Content, Piece};
use gcs_crc::Digests;
use std::alloc::{AllocError, Global};

/// All bytes of a content. `Err`: no memory.
pub fn bytes_of(alloc: Global, chunks: &Chunks, content: &Content) -> Result<Vec<u8>, AllocError>
    requires { ContentLiesIn chunks.now content.now }
{
    let mut bytes = vec![in alloc; 0u8; content.len() as usize]?;
    content.read(chunks, 0, &mut bytes);
    Ok(bytes)
}

/// A content of these bytes, which fit into one piece. `Err`: no memory.
#[tactic(auto, unfolding(gcs_chunks::specs::Content::bytes_of, gcs_chunks::specs::Content::no_content))]
pub fn content_of(alloc: Global, bytes: &[u8]) -> Result<Content, AllocError>
    requires { length bytes.now ≤ 1048576 }
    ensures { IfOk result (λ made. (chunks : ChunksValue) → ContentLiesIn chunks made) }
{
    let mut content = Content::empty(alloc);
    let size = bytes.len();
    if size > 0 {
        let piece = Piece::own(alloc, Vec::from_slice(alloc, bytes)?)?;
        content.append(&piece, 0, size)?;
    }
    Ok(content)
}

/// The CRC32C and the MD5 of bytes.
pub fn digests_of(bytes: &[u8]) -> (u32, [u8; 16]) {
    let mut digests = Digests::new();
    digests.update(bytes);
    digests.finish()
}
