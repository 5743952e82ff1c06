//! Copies of blocks, in memory of their own.
ghost use Rattle.std.specs.Prelude.{◌≡◌, ◌≤◌, vec_capacity, IfOk};
ghost use Rattle.gcs_index.specs.Blocks.{AreCopies};

use crate::blocks::{Block, Entry};
use std::alloc::{AllocError, Global};

// Copies of the blocks, each with room for the most entries. `Err`: no memory.
pub(crate) fn copy_blocks<K: Clone, V: Clone>(
    alloc: Global,
    blocks: &Vec<Block<K, V>>,
) -> Result<Vec<Block<K, V>>, AllocError>
    requires keys { (k l : K) → K.is_clone k l → l ≡ k }
    requires values { (v w : V) → V.is_clone v w → w ≡ v }
    ensures { IfOk result (λ made. AreCopies made.items blocks.now.items) }
{
    let mut copies = Vec::new(alloc);
    for block in blocks {
        copies.push(copy_block(alloc, block)?)?;
    }
    Ok(copies)
}

fn copy_block<K: Clone, V: Clone>(
    alloc: Global,
    block: &Block<K, V>,
) -> Result<Block<K, V>, AllocError>
    requires keys { (k l : K) → K.is_clone k l → l ≡ k }
    requires values { (v w : V) → V.is_clone v w → w ≡ v }
    ensures entries { IfOk result (λ made. made.entries.items ≡ block.now.entries.items) }
    ensures room { IfOk result (λ made. 512 ≤ vec_capacity made.entries) }
{
    let mut copy = Block::new(alloc)?;
    for entry in &block.entries {
        let key = entry.key.clone()?;
        let value = entry.value.clone()?;
        copy.entries.push(Entry { key, value })?;
    }
    Ok(copy)
}
