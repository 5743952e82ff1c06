//! An entry put into blocks, which takes no memory: room is there before.
ghost use Rattle.std.specs.Prelude.{◌≡◌, ◌<◌, ◌≤◌, ◌+◌, ◌++◌, ◌-◌, [], length, insert, reverse, vec_capacity, vec_len, ◌∷◌};
ghost use Rattle.gcs_index.specs.Blocks.{entries_of, entries_at, entries_before, AreBlocks, HaveRoom, IsHalved, IsInserted, AreSpare, IsPlace};

use crate::blocks::{Block, Entry, HALF_BLOCK, LARGEST_BLOCK};

// Puts an entry into a block that has room.
pub(crate) fn put<K: Drop, V: Drop>(block: &mut Block<K, V>, at: usize, entry: Entry<K, V>)
    requires within { at ≤ length block.old.entries.items }
    requires room { length block.old.entries.items < vec_capacity block.old.entries }
    ensures entries { block.new.entries.items ≡ insert block.old.entries.items at entry }
    ensures capacity { vec_capacity block.old.entries ≤ vec_capacity block.new.entries }
{
    match block.entries.insert(at, entry) {
        Ok(()) => {}
        Err(_) => unreachable!(),
    }
}

// Puts an entry at the end of a block that has room.
fn add<K: Drop, V: Drop>(block: &mut Block<K, V>, entry: Entry<K, V>)
    requires room { length block.old.entries.items < vec_capacity block.old.entries }
    ensures entries { block.new.entries.items ≡ block.old.entries.items ++ entry ∷ [] }
    ensures capacity { vec_capacity block.old.entries ≤ vec_capacity block.new.entries }
{
    match block.entries.push(entry) {
        Ok(()) => {}
        Err(_) => unreachable!(),
    }
}

// Moves the second half of a full block into an empty one.
pub(crate) fn halve<K: Drop, V: Drop>(full: &mut Block<K, V>, empty: &mut Block<K, V>)
    requires full { length full.old.entries.items ≡ 512 }
    requires empty { empty.old.entries.items ≡ [] }
    requires room { 512 ≤ vec_capacity empty.old.entries }
    ensures entries { full.new.entries.items ++ empty.new.entries.items ≡ full.old.entries.items }
    ensures half { length empty.new.entries.items ≡ 256 }
    ensures capacity { vec_capacity full.new.entries ≡ vec_capacity full.old.entries }
    ensures empty_capacity { vec_capacity empty.old.entries ≤ vec_capacity empty.new.entries }
{
    for _ in 0..HALF_BLOCK {
        if let Some(entry) = full.entries.pop() {
            add(empty, entry);
        }
    }
    empty.entries.reverse();
}

// Puts an entry into the block at an index, which isn't full.
pub(crate) fn put_at<K: Drop, V: Drop>(
    blocks: &mut Vec<Block<K, V>>,
    block: usize,
    at: usize,
    entry: Entry<K, V>,
)
    requires blocks { AreBlocks blocks.old.items }
    requires room { HaveRoom blocks.old.items }
    requires block { block < vec_len blocks.old }
    requires within { at ≤ length (entries_at block blocks.old.items) }
    requires free { length (entries_at block blocks.old.items) < 512 }
    ensures entries { entries_of blocks.new.items ≡ insert (entries_of blocks.old.items) (entries_before block blocks.old.items + at) entry }
    ensures blocks { AreBlocks blocks.new.items }
    ensures room { HaveRoom blocks.new.items }
    ensures len { vec_len blocks.new ≡ vec_len blocks.old }
    ensures capacity { vec_capacity blocks.new ≡ vec_capacity blocks.old }
{
    put(&mut blocks[block], at, entry)
}

fn insert_block<K: Drop, V: Drop>(blocks: &mut Vec<Block<K, V>>, at: usize, block: Block<K, V>)
    requires within { at ≤ vec_len blocks.old }
    requires room { vec_len blocks.old < vec_capacity blocks.old }
    ensures items { blocks.new.items ≡ insert blocks.old.items at block }
    ensures len { vec_len blocks.new ≡ vec_len blocks.old + 1 }
    ensures capacity { vec_capacity blocks.old ≤ vec_capacity blocks.new }
{
    match blocks.insert(at, block) {
        Ok(()) => {}
        Err(_) => unreachable!(),
    }
}

// Splits a full block with the help of a spare one.
pub(crate) fn split_at<K: Drop, V: Drop>(
    blocks: &mut Vec<Block<K, V>>,
    half: Block<K, V>,
    block: usize,
)
    requires blocks { AreBlocks blocks.old.items }
    requires room { HaveRoom blocks.old.items }
    requires block { block < vec_len blocks.old }
    requires full { length (entries_at block blocks.old.items) ≡ 512 }
    requires empty { half.entries.items ≡ [] }
    requires half { 512 ≤ vec_capacity half.entries }
    requires free { vec_len blocks.old < vec_capacity blocks.old }
    ensures halved { IsHalved blocks.old.items blocks.new.items block }
    ensures blocks { AreBlocks blocks.new.items }
    ensures room { HaveRoom blocks.new.items }
    ensures len { vec_len blocks.new ≡ vec_len blocks.old + 1 }
    ensures capacity { vec_capacity blocks.old ≤ vec_capacity blocks.new }
{
    let mut half = half;
    halve(&mut blocks[block], &mut half);
    insert_block(blocks, block + 1, half);
}

// Puts an entry into a full block, with the help of a spare one.
fn put_in_full<K: Drop, V: Drop>(
    blocks: &mut Vec<Block<K, V>>,
    half: Block<K, V>,
    block: usize,
    at: usize,
    entry: Entry<K, V>,
)
    requires blocks { AreBlocks blocks.old.items }
    requires room { HaveRoom blocks.old.items }
    requires block { block < vec_len blocks.old }
    requires within { at ≤ length (entries_at block blocks.old.items) }
    requires full { length (entries_at block blocks.old.items) ≡ 512 }
    requires empty { half.entries.items ≡ [] }
    requires half { 512 ≤ vec_capacity half.entries }
    requires free { vec_len blocks.old < vec_capacity blocks.old }
    ensures inserted { IsInserted blocks.old.items blocks.new.items (entries_before block blocks.old.items + at) entry }
    ensures len { vec_len blocks.new ≡ vec_len blocks.old + 1 }
    ensures capacity { vec_capacity blocks.old ≤ vec_capacity blocks.new }
{
    split_at(blocks, half, block);
    if at <= HALF_BLOCK {
        put_at(blocks, block, at, entry);
    } else {
        put_at(blocks, block + 1, at - HALF_BLOCK, entry);
    }
}

// Puts the first entry into a spare block, which becomes the only one.
fn put_first<K: Drop, V: Drop>(
    blocks: &mut Vec<Block<K, V>>,
    first: Block<K, V>,
    entry: Entry<K, V>,
)
    requires none { blocks.old.items ≡ [] }
    requires empty { first.entries.items ≡ [] }
    requires first { 512 ≤ vec_capacity first.entries }
    requires free { vec_len blocks.old < vec_capacity blocks.old }
    ensures inserted { IsInserted blocks.old.items blocks.new.items 0 entry }
    ensures len { vec_len blocks.new ≡ vec_len blocks.old + 1 }
    ensures capacity { vec_capacity blocks.old ≤ vec_capacity blocks.new }
{
    let mut first = first;
    put(&mut first, 0, entry);
    insert_block(blocks, 0, first);
}

// Puts an entry in at a place, with a spare block where its block is full or there is none.
pub(crate) fn insert_at<K: Drop, V: Drop>(
    blocks: &mut Vec<Block<K, V>>,
    spare: &mut Vec<Block<K, V>>,
    block: usize,
    at: usize,
    entry: Entry<K, V>,
)
    requires blocks { AreBlocks blocks.old.items }
    requires room { HaveRoom blocks.old.items }
    requires spares { AreSpare spare.old.items }
    requires ready { 1 ≤ vec_len spare.old }
    requires free { vec_len blocks.old + vec_len spare.old ≤ vec_capacity blocks.old }
    requires place { IsPlace blocks.old.items block at }
    ensures inserted { IsInserted blocks.old.items blocks.new.items (entries_before block blocks.old.items + at) entry }
    ensures spares { AreSpare spare.new.items }
    ensures used { vec_len spare.old ≤ vec_len spare.new + 1 }
    ensures fits { vec_len blocks.new + vec_len spare.new ≡ vec_len blocks.old + vec_len spare.old }
    ensures capacity { vec_capacity blocks.old ≤ vec_capacity blocks.new }
    ensures spare_capacity { vec_capacity spare.new ≡ vec_capacity spare.old }
{
    if blocks.is_empty() {
        put_first(blocks, take_spare(spare), entry);
    } else if blocks[block].entries.len() < LARGEST_BLOCK {
        put_at(blocks, block, at, entry);
    } else {
        put_in_full(blocks, take_spare(spare), block, at, entry);
    }
}

// One of the spare blocks.
fn take_spare<K: Drop, V: Drop>(spare: &mut Vec<Block<K, V>>) -> Block<K, V>
    requires spares { AreSpare spare.old.items }
    requires ready { 1 ≤ vec_len spare.old }
    ensures empty { result.entries.items ≡ [] }
    ensures room { 512 ≤ vec_capacity result.entries }
    ensures spares { AreSpare spare.new.items }
    ensures len { vec_len spare.new + 1 ≡ vec_len spare.old }
    ensures capacity { vec_capacity spare.new ≡ vec_capacity spare.old }
{
    match spare.pop() {
        Some(block) => block,
        None => unreachable!(),
    }
}

// Keeps a block ready in a list that has room.
pub(crate) fn keep<K: Drop, V: Drop>(spare: &mut Vec<Block<K, V>>, block: Block<K, V>)
    requires room { vec_len spare.old < vec_capacity spare.old }
    ensures items { spare.new.items ≡ spare.old.items ++ block ∷ [] }
    ensures len { vec_len spare.new ≡ vec_len spare.old + 1 }
    ensures capacity { vec_capacity spare.old ≤ vec_capacity spare.new }
{
    match spare.push(block) {
        Ok(()) => {}
        Err(_) => unreachable!(),
    }
}
