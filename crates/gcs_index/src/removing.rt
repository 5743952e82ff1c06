//! An entry taken out of blocks, which takes no memory: neighbours that have few entries become one block.
ghost use Rattle.std.specs.Prelude.{◌≡◌, ◌<◌, ◌≤◌, ◌+◌, ◌++◌, [], length, suc, true, false, vec_capacity, vec_len};
ghost use Rattle.std.specs.List.{remove, AllByRecursion};
ghost use Rattle.gcs_index.specs.Blocks.{entries_of, entries_at, entries_before, AreBlocks, AreSpare, HaveRoom, IsJoined, IsRemoved, IsShort, IsTaken};

use crate::blocks::{Block, Entry, HALF_BLOCK};
use crate::editing::keep;

// Takes the entry at a place out, and puts the blocks in order again.
pub(crate) fn remove_at<K: Drop, V: Drop>(
    blocks: &mut Vec<Block<K, V>>,
    spare: &mut Vec<Block<K, V>>,
    block: usize,
    at: usize,
) -> Entry<K, V>
    requires blocks { AreBlocks blocks.old.items }
    requires room { HaveRoom blocks.old.items }
    requires spares { AreSpare spare.old.items }
    requires fits { vec_len blocks.old + vec_len spare.old ≤ vec_capacity spare.old }
    requires block { block < vec_len blocks.old }
    requires within { at < length (entries_at block blocks.old.items) }
    ensures removed { IsRemoved blocks.old.items blocks.new.items (entries_before block blocks.old.items + at) result }
    ensures spares { AreSpare spare.new.items }
    ensures kept { vec_len spare.old ≤ vec_len spare.new }
    ensures fits { vec_len blocks.new + vec_len spare.new ≡ vec_len blocks.old + vec_len spare.old }
    ensures capacity { vec_capacity blocks.new ≡ vec_capacity blocks.old }
    ensures spare_capacity { vec_capacity spare.old ≤ vec_capacity spare.new }
{
    let entry = take_at(blocks, block, at);
    mend(blocks, spare, block);
    entry
}

// Takes an entry out of the block at an index.
fn take_at<K: Drop, V: Drop>(blocks: &mut Vec<Block<K, V>>, block: usize, at: usize) -> Entry<K, V>
    requires room { HaveRoom blocks.old.items }
    requires block { block < vec_len blocks.old }
    requires within { at < length (entries_at block blocks.old.items) }
    ensures taken { IsTaken blocks.old.items blocks.new.items block at result }
    ensures len { vec_len blocks.new ≡ vec_len blocks.old }
    ensures capacity { vec_capacity blocks.new ≡ vec_capacity blocks.old }
{
    blocks[block].entries.remove(at)
}

// Puts blocks in order after an entry left the one at an index: where that one is empty it goes,
// and where it has few entries with a neighbour the two become one.
fn mend<K: Drop, V: Drop>(blocks: &mut Vec<Block<K, V>>, spare: &mut Vec<Block<K, V>>, block: usize)
    requires short { IsShort block blocks.old.items }
    requires room { HaveRoom blocks.old.items }
    requires spares { AreSpare spare.old.items }
    requires fits { vec_len blocks.old + vec_len spare.old ≤ vec_capacity spare.old }
    ensures entries { entries_of blocks.new.items ≡ entries_of blocks.old.items }
    ensures blocks { AreBlocks blocks.new.items }
    ensures room { HaveRoom blocks.new.items }
    ensures spares { AreSpare spare.new.items }
    ensures kept { vec_len spare.old ≤ vec_len spare.new }
    ensures fits { vec_len blocks.new + vec_len spare.new ≡ vec_len blocks.old + vec_len spare.old }
    ensures capacity { vec_capacity blocks.new ≡ vec_capacity blocks.old }
    ensures spare_capacity { vec_capacity spare.old ≤ vec_capacity spare.new }
{
    if blocks[block].entries.is_empty() {
        free(blocks, spare, block);
    } else if is_small_pair(blocks.as_slice(), block) {
        join(blocks, spare, block);
    } else if block > 0 && is_small_pair(blocks.as_slice(), block - 1) {
        join(blocks, spare, block - 1);
    }
}

// There is a block behind the one at an index, and the two have at most `HALF_BLOCK` entries together.
fn is_small_pair<K, V>(blocks: &[Block<K, V>], left: usize) -> bool
    requires sizes { AllByRecursion (λ b. length b.entries.items ≤ 512) blocks.now }
    requires within { left < length blocks.now }
    ensures small { result ≡ true → left + 1 < length blocks.now }
    ensures few { result ≡ true → length (entries_at left blocks.now) + length (entries_at (suc left) blocks.now) ≤ 256 }
    ensures many { result ≡ false → left + 1 < length blocks.now → 257 ≤ length (entries_at left blocks.now) + length (entries_at (suc left) blocks.now) }
{
    let right = left + 1;
    if right < blocks.len() {
        blocks[left].entries.len() + blocks[right].entries.len() <= HALF_BLOCK
    } else {
        false
    }
}

// Moves a block without entries to the spare ones.
fn free<K: Drop, V: Drop>(blocks: &mut Vec<Block<K, V>>, spare: &mut Vec<Block<K, V>>, block: usize)
    requires block { block < vec_len blocks.old }
    requires empty { entries_at block blocks.old.items ≡ [] }
    requires room { HaveRoom blocks.old.items }
    requires spares { AreSpare spare.old.items }
    requires fits { vec_len spare.old < vec_capacity spare.old }
    ensures items { blocks.new.items ≡ remove blocks.old.items block }
    ensures len { vec_len blocks.new + 1 ≡ vec_len blocks.old }
    ensures capacity { vec_capacity blocks.new ≡ vec_capacity blocks.old }
    ensures spares { AreSpare spare.new.items }
    ensures spare_len { vec_len spare.new ≡ vec_len spare.old + 1 }
    ensures spare_capacity { vec_capacity spare.old ≤ vec_capacity spare.new }
{
    let freed = blocks.remove(block);
    keep(spare, freed);
}

// Moves the entries of the block behind an index to the end of the block at it, and the emptied
// block to the spare ones.
fn join<K: Drop, V: Drop>(blocks: &mut Vec<Block<K, V>>, spare: &mut Vec<Block<K, V>>, left: usize)
    requires within { left + 1 < vec_len blocks.old }
    requires few { length (entries_at left blocks.old.items) + length (entries_at (suc left) blocks.old.items) ≤ 256 }
    requires room { HaveRoom blocks.old.items }
    requires spares { AreSpare spare.old.items }
    requires fits { vec_len spare.old < vec_capacity spare.old }
    ensures joined { IsJoined blocks.old.items blocks.new.items left }
    ensures len { vec_len blocks.new + 1 ≡ vec_len blocks.old }
    ensures capacity { vec_capacity blocks.new ≡ vec_capacity blocks.old }
    ensures spares { AreSpare spare.new.items }
    ensures spare_len { vec_len spare.new ≡ vec_len spare.old + 1 }
    ensures spare_capacity { vec_capacity spare.old ≤ vec_capacity spare.new }
{
    let mut right = blocks.remove(left + 1);
    pour(&mut blocks[left], &mut right);
    keep(spare, right);
}

// Moves all entries of a block to the end of another, which has room for them.
fn pour<K: Drop, V: Drop>(into: &mut Block<K, V>, from: &mut Block<K, V>)
    requires room { length into.old.entries.items + length from.old.entries.items ≤ vec_capacity into.old.entries }
    ensures entries { into.new.entries.items ≡ into.old.entries.items ++ from.old.entries.items }
    ensures emptied { from.new.entries.items ≡ [] }
    ensures capacity { vec_capacity into.old.entries ≤ vec_capacity into.new.entries }
    ensures from_capacity { vec_capacity from.new.entries ≡ vec_capacity from.old.entries }
{
    match into.entries.append(&mut from.entries) {
        Ok(()) => {}
        Err(_) => unreachable!(),
    }
}
