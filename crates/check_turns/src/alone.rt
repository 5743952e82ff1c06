//! Callers on one thread.
ghost use Rattle.std.specs.Prelude.{◌≡◌, ◌<◌, ◌≤◌, length};
ghost use Rattle.gcs_turn.specs.Passes.{AreAllOf};

use crate::tally::Tally;
use gcs_turn::{Pass, Turn};
use std::alloc::{AllocError, Global};
use std::sync::Wait;

/// What three callers are answered, and the history at the end.
pub fn on_one_thread<R: Wait>(rt: &R, alloc: Global) -> Result<String, AllocError> {
    let (turn, mut passes) = Turn::new(alloc, Tally::new(alloc, 10), 3)?;
    let first = add(rt, &turn, &mut passes, 1, 10, 5).unwrap_or(0);
    let second = add(rt, &turn, &mut passes, 2, 20, 7).unwrap_or(0);
    let third = add(rt, &turn, &mut passes, 1, 30, 11).unwrap_or(0);
    let history = turn.finish(passes).unwrap().text(alloc)?;
    format!(in alloc; "{first} {second} {third} of {history}")
}

/// What a caller is answered where there is room for one entry, and the history at the end.
pub fn without_room<R: Wait>(rt: &R, alloc: Global) -> Result<String, AllocError> {
    let (turn, mut passes) = Turn::new(alloc, Tally::new(alloc, 1), 2)?;
    let first = add(rt, &turn, &mut passes, 1, 10, 5).unwrap_or(0);
    let back = add(rt, &turn, &mut passes, 1, 20, 7).err().unwrap_or(0);
    let history = turn.finish(passes).unwrap().text(alloc)?;
    format!(in alloc; "{first} and {back} back of {history}")
}

/// One call by the pass of that caller: the sum, or the number that comes back.
pub fn add<R: Wait>(
    rt: &R,
    turn: &Turn<Tally>,
    passes: &mut Vec<Pass<Tally>>,
    caller: usize,
    moment: u64,
    number: u64,
) -> Result<u64, u64>
    requires passes { AreAllOf (λ _. tt) turn.now passes.old.items }
    requires caller { caller < length passes.old.items }
    ensures { AreAllOf (λ _. tt) turn.now passes.new.items }
{
    turn.call(rt, &mut passes[caller], moment, number)
}
