//! A store that is closed by the passes of all its callers.
ghost use Rattle.std.specs.Prelude.{◌≡◌, ◌≤◌, ℕ, [], ◌∷◌, ◌++◌, IfErr, IfOk, length, vec_capacity};
ghost use mathlib.Core.Option.{some};
ghost use lib.ListN.{get_elem?};
ghost use Rattle.gcs_turn.specs.Passes.{HasAll, IsFirstOf, IsPassOf, mine_of, own_of, taken_of, told};
ghost use Rattle.gcs_store.specs.Closed.{AreClosed, IsClosedAs};
ghost use Rattle.gcs_store.specs.Passes.{AreAllPassesOf, AreAllAt, AreGathered};
ghost use Rattle.gcs_store.specs.Store.{home_of};

use crate::passes::Passes;
use crate::shard::Shard;
use crate::store::SharedStore;
use gcs_turn::{Pass, Turn};
use std::marker::Model;

/// A store with the passes of all its callers, which is to be closed: what is left where there is no memory for the list of
/// its shards. No turn is closed yet, and no entry can be made on it.
#[derive(Drop)]
pub struct Closing<'c> {
    store: SharedStore<'c>,
    passes: Vec<Passes<'c>>,
}

impl<'c> Model for Closing<'c> {
    ghost use Rattle.gcs_store.specs.Closing.{ClosingValue};
    ghost use Rattle.gcs_store.specs.Passes.{AreAllPassesOf};

    ghost Value = { ClosingValue };

    ghost view = { λ c. record { store = c.store; passes = c.passes.items } };

    ghost invariant = { λ c. AreAllPassesOf c.store c.passes.items };
}

impl<'c> Closing<'c> {
    pub(crate) fn new(store: SharedStore<'c>, passes: Vec<Passes<'c>>) -> Closing<'c>
        requires { AreAllPassesOf store passes.items }
        ensures { result ≡ record { store = store.entry; passes = passes.entry.items } }
    {
        Closing { store, passes }
    }

    /// Closes the turns, and gives the shards out. `Err`: no memory, and all is as it was.
    ///
    /// Each shard has one history. It begins with what each caller had seen, its entries of that caller are those that the
    /// caller made, each once, and it has no others.
    pub fn finish(self) -> Result<Vec<Shard<'c>>, Closing<'c>>
        ensures ok { IfOk result (λ shards. AreClosed self.entry.store self.entry.passes shards.items) }
        ensures err { IfErr result (λ closing. closing ≡ self.entry) }
    {
        let Closing { store, passes } = self;
        let Ok(shards) = store.room() else {
            return Err(Closing { store, passes });
        };
        Ok(store.close(passes, shards))
    }
}

/// The passes of the caller 0, which have taken in those of all others. It takes no memory.
pub fn gather<'c>(turns: &[Turn<Shard<'c>>], passes: Vec<Passes<'c>>) -> Vec<Pass<Shard<'c>>>
    requires some { 1 ≤ length passes.items }
    requires each { AreAllAt turns.now passes.items }
    ensures { AreGathered turns.now passes.entry.items result.items }
{
    let mut passes = passes;
    let Passes {
        caller: _,
        seats: mut firsts,
    } = take_first(&mut passes);
    for other in passes {
        let Passes { caller: _, seats } = other;
        take_seats(turns, &mut firsts, seats);
    }
    firsts
}

// Each of the first caller's passes takes in another caller's for the same turn.
fn take_seats<'c>(
    turns: &[Turn<Shard<'c>>],
    firsts: &mut Vec<Pass<Shard<'c>>>,
    seats: Vec<Pass<Shard<'c>>>,
)
    requires as_many { (length seats.items ≡ length turns.now) × (length firsts.old.items ≡ length turns.now) }
    requires first { (s : ℕ) (t : _) (p : _) → get_elem? turns.now s ≡ some t → get_elem? firsts.old.items s ≡ some p → IsFirstOf t p }
    requires other { (s : ℕ) (t : _) (p : _) → get_elem? turns.now s ≡ some t → get_elem? seats.items s ≡ some p → IsPassOf home_of t p }
    ensures as_many { length firsts.new.items ≡ length firsts.old.items }
    ensures each { (s : ℕ) (t : _) (p : _) → get_elem? turns.now s ≡ some t → get_elem? firsts.new.items s ≡ some p → (o : _) × (seat : _) × (get_elem? firsts.old.items s ≡ some o) × (get_elem? seats.entry.items s ≡ some seat) × IsFirstOf t p × (taken_of p ≡ taken_of o ++ told seat ∷ []) × (own_of p ≡ own_of o) × (mine_of p ≡ mine_of o) }
{
    let mut seats = seats;
    while let Some(seat) = seats.pop() {
        let place = seats.len();
        let first = &mut firsts[place];
        turns[place].take_in(first, seat);
    }
}

/// Closes each turn by its first pass. It takes no memory.
pub fn close_turns<'c>(
    turns: Vec<Turn<Shard<'c>>>,
    firsts: Vec<Pass<Shard<'c>>>,
    shards: Vec<Shard<'c>>,
) -> Vec<Shard<'c>>
    requires as_many { length firsts.items ≡ length turns.items }
    requires room { (shards.items ≡ []) × (length turns.items ≤ vec_capacity shards) }
    requires each { (s : ℕ) (t : _) (p : _) → get_elem? turns.items s ≡ some t → get_elem? firsts.items s ≡ some p → IsFirstOf t p × HasAll t p }
    ensures as_many { length result.items ≡ length turns.entry.items }
    ensures each { (s : ℕ) (t : _) (p : _) (shard : _) → get_elem? turns.entry.items s ≡ some t → get_elem? firsts.entry.items s ≡ some p → get_elem? result.items s ≡ some shard → IsClosedAs t p shard }
{
    let (mut firsts, mut shards) = (firsts, shards);
    for turn in turns {
        let first = take_first(&mut firsts);
        let shard = turn.close(first);
        shards.push_reserved(shard);
    }
    shards
}

fn take_first<T>(items: &mut Vec<T>) -> T
    requires { 1 ≤ length items.old.items }
    ensures { items.old.items ≡ result ∷ items.new.items }
{
    items.remove(0)
}
