//! How the passes of a new store come to its callers.
ghost use Rattle.std.specs.Prelude.{◌≡◌, ℕ, [], ◌∷◌, ◌++◌, IfOk, OnOk, length};
ghost use mathlib.Core.Option.{some};
ghost use lib.ListN.{get_elem?};

use crate::passes::Passes;
use crate::shard::Shard;
use gcs_turn::Pass;
use std::alloc::{AllocError, Global};

/// The passes of so many callers from 0 on, of no turn yet. `Err`: no memory.
pub fn empty_passes<'c>(alloc: Global, callers: u32) -> Result<Vec<Passes<'c>>, AllocError>
    ensures count { IfOk result (λ all. length all.items ≡ callers) }
    ensures each { IfOk result (λ all. (i : ℕ) (p : _) → get_elem? all.items i ≡ some p → (p.caller ≡ i) × (p.seats.items ≡ [])) }
{
    let mut all = Vec::new(alloc);
    for caller in 0..callers {
        all.push(Passes {
            caller,
            seats: Vec::new(alloc),
        })?;
    }
    Ok(all)
}

/// Gives each caller its pass for one more turn. `Err`: no memory.
pub fn add_seats<'c>(
    all: &mut Vec<Passes<'c>>,
    seats: Vec<Pass<Shard<'c>>>,
) -> Result<(), AllocError>
    requires { length seats.items ≡ length all.old.items }
    ensures count { OnOk result (length all.new.items ≡ length all.old.items) }
    ensures each { OnOk result ((i : ℕ) (p : _) → get_elem? all.new.items i ≡ some p → (o : _) × (seat : _) × (get_elem? all.old.items i ≡ some o) × (get_elem? seats.entry.items i ≡ some seat) × (p.caller ≡ o.caller) × (p.seats.items ≡ o.seats.items ++ seat ∷ [])) }
{
    let mut seats = seats;
    while let Some(seat) = seats.pop() {
        let passes = &mut all[seats.len()];
        passes.seats.push(seat)?;
    }
    Ok(())
}
