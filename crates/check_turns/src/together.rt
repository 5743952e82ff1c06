//! Callers on threads of their own.
ghost use Rattle.std.specs.Prelude.{◌≡◌, ◌<◌, ◌≤◌, length};
ghost use Rattle.gcs_turn.specs.Passes.{AreAllOf, IsPassOf, caller_of};

use crate::alone::add;
use crate::tally::Tally;
use gcs_turn::{Pass, Turn};
use std::alloc::{AllocError, Global};
use std::sync::Wait;
use std::thread::{Threads, for_each_mut};

/// How many calls each thread makes.
const CALLS: u64 = 1_000;

/// Caller 0 adds 1, and then both callers add 1 on a thread of their own, 1,000 times each.
pub fn on_two_threads<R: Threads + Wait + Sync>(
    rt: &R,
    alloc: Global,
) -> Result<String, AllocError> {
    let (turn, mut passes) = Turn::new(alloc, Tally::new(alloc, 10_000), 2)?;
    let _first = add(rt, &turn, &mut passes, 0, 0, 1);
    add_on_threads(rt, &turn, &mut passes);
    turn.finish(passes).unwrap().counts(alloc)
}

// Each caller adds ones on a thread of its own.
fn add_on_threads<R: Threads + Wait + Sync>(rt: &R, turn: &Turn<Tally>, passes: &mut [Pass<Tally>])
    requires { AreAllOf (λ _. tt) turn.now passes.old }
    ensures { AreAllOf (λ _. tt) turn.now passes.new }
{
    for_each_mut(
        rt,
        passes,
        2,
        &|_, pass: &mut Pass<Tally>|
            requires { IsPassOf (λ _. tt) turn.now pass.old }
            ensures { IsPassOf (λ _. tt) turn.entry.now pass.new × (caller_of pass.new ≡ caller_of pass.old) }
        { add_ones(rt, turn, pass) },
    );
}

fn add_ones<R: Wait>(rt: &R, turn: &Turn<Tally>, pass: &mut Pass<Tally>)
    requires { IsPassOf (λ _. tt) turn.now pass.old }
    ensures { IsPassOf (λ _. tt) turn.now pass.new × (caller_of pass.new ≡ caller_of pass.old) }
{
    for moment in 1..=CALLS {
        let _ = turn.call(rt, pass, moment, 1);
    }
}
