//! The passes of callers, and the seats that they are made of.
ghost use Rattle.std.specs.Prelude.{◌≡◌, ℕ, ◌+◌, ◌<◌, ◌≤◌, ◌∷◌, false, [], List, length, IfOk, OnOk};
ghost use mathlib.Core.Option.{some};
ghost use lib.ListN.{get_elem?};
ghost use Rattle.gcs_turn.specs.Turning.{one_more, next_seat, newcomer};
ghost use Rattle.gcs_turn.specs.Seating.{IsAt, IsIdle};

use crate::object::Object;
use crate::steps::{TurnSeat, TurnTable, open_seat};
use std::alloc::{AllocError, Global};

/// A caller's right to take turns. It carries what the caller has seen of the history, and which entries are its own.
#[derive(Drop)]
pub struct Pass<O: Object> {
    pub(crate) seat: TurnSeat<O>,
    pub(crate) caller: u32,
    pub(crate) calls: u64,
    ghost idle: { seat.me.0.stage ≡ 0 },
    ghost live: { seat.me.0.spent ≡ false },
    ghost bare: { seat.me.1 ≡ [] },
    ghost caller_is: { caller ≡ seat.me.0.caller },
    ghost calls_are: { calls ≡ length seat.me.0.mine },
}

// A seat more, for the caller of this number.
fn next_pass<O: Object>(table: &TurnTable<O>, first: &mut TurnSeat<O>, caller: u32) -> Pass<O>
    requires own { IsAt table.now.table_id first.old }
    requires maker { (0 < caller) × (first.old.me.0.made ≡ caller) × (caller < 65) × (first.old.me.0.spent ≡ false) }
    ensures kept { (first.new.table_id ≡ first.old.table_id) × (first.new.me ≡ (one_more first.old.me.0, first.old.me.1)) }
    ensures given { (result.seat.table_id ≡ first.old.table_id) × (result.seat.me ≡ (next_seat first.old.me.0, [])) × (result.caller ≡ caller) }
{
    let seat = open_seat(table, first);
    Pass {
        seat,
        caller,
        calls: 0,
    }
}

/// The passes of the callers from 1 on. `Err`: no memory.
pub fn other_passes<O: Object>(
    alloc: Global,
    table: &TurnTable<O>,
    first: &mut TurnSeat<O>,
    callers: u32,
) -> Result<Vec<Pass<O>>, AllocError>
    requires own { IsAt table.now.table_id first.old }
    requires maker { (first.old.me.0.made ≡ 1) × (first.old.me.0.spent ≡ false) }
    requires callers { (0 < callers) × (callers ≤ 65) }
    ensures first { OnOk result ((first.new.table_id ≡ first.old.table_id) × (first.new.me ≡ (record first.old.me.0 { made = callers }, first.old.me.1))) }
    ensures count { IfOk result (λ v. length v.items + 1 ≡ callers) }
    ensures each { IfOk result (λ v. (i : ℕ) (p : _) → get_elem? v.items i ≡ some p → (p.seat.table_id ≡ table.now.table_id) × (p.seat.me.0 ≡ newcomer (i + 1) first.old.me.0.home first.old.me.0.seen)) }
{
    let mut passes = Vec::new(alloc);
    for caller in 1..callers {
        passes.push(next_pass(table, first, caller))?;
    }
    Ok(passes)
}

/// The pass of the caller 0.
pub fn first_pass<O: Object>(seat: TurnSeat<O>) -> Pass<O>
    requires idle { IsIdle seat }
    requires fresh { (seat.me.0.caller ≡ 0) × (seat.me.0.mine ≡ []) }
    ensures { (result.seat ≡ seat) × (result.caller ≡ 0) }
{
    Pass {
        seat,
        caller: 0,
        calls: 0,
    }
}

/// The passes with this one before them. `Err`: no memory.
pub fn with_first<O: Object>(
    passes: Vec<Pass<O>>,
    first: Pass<O>,
) -> Result<Vec<Pass<O>>, AllocError>
    ensures { IfOk result (λ v. v.items ≡ first ∷ passes.items) }
{
    let mut passes = passes;
    passes.insert(0, first)?;
    Ok(passes)
}

/// The first pass and the others.
pub fn split_first<O: Object>(passes: Vec<Pass<O>>) -> (Pass<O>, Vec<Pass<O>>)
    requires { 0 < length passes.items }
    ensures { passes.items ≡ result.0 ∷ result.1.items }
{
    let mut passes = passes;
    let first = passes.remove(0);
    (first, passes)
}
