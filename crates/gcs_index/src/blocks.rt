//! Entries, the blocks that they stand in, and places among them.
ghost use Rattle.std.specs.Prelude.{◌≡◌, ◌≤◌, [], vec_capacity, IfOk};

use std::alloc::{AllocError, Global};

/// The most entries of a block, for which each block has room from the start.
pub(crate) const LARGEST_BLOCK: usize = 512;

/// Where a full block is split. Two neighbours have more entries together: with so many or fewer they become one block.
pub(crate) const HALF_BLOCK: usize = LARGEST_BLOCK / 2;

/// A key and its value.
#[derive(Drop)]
pub struct Entry<K, V> {
    pub key: K,
    pub value: V,
}

// Entries that stand side by side: 1 to `LARGEST_BLOCK` of them in an index, and none in a block that stands ready.
#[derive(Drop)]
pub(crate) struct Block<K, V> {
    pub(crate) entries: Vec<Entry<K, V>>,
}

impl<K: Drop, V: Drop> Block<K, V> {
    // A block without entries, that has room for the most. `Err`: no memory.
    pub(crate) fn new(alloc: Global) -> Result<Block<K, V>, AllocError>
        ensures empty { IfOk result (λ made. made.entries.items ≡ []) }
        ensures room { IfOk result (λ made. 512 ≤ vec_capacity made.entries) }
    {
        let entries = Vec::with_capacity(alloc, LARGEST_BLOCK)?;
        Ok(Block { entries })
    }
}

/// Where an entry stands in an index: its block, and its number in that block. It is good until the index changes.
#[derive(Clone, Copy, Drop)]
pub struct Place {
    pub(crate) block: usize,
    pub(crate) at: usize,
}
