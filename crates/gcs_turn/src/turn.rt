//! The turn itself: its calls, and how it begins and ends.
ghost use Rattle.std.specs.Prelude.{◌≡◌, ℕ, ◌<◌, ◌≤◌, [], ◌++◌, ◌∷◌, length, map, IfOk, IfErr};
ghost use Rattle.std.specs.Result.{IsOk};
ghost use mathlib.Core.Option.{some};
ghost use lib.ListN.{get_elem?};
ghost use Rattle.gcs_turn.specs.Turning.{Made, calls_by};

use crate::object::Object;
use crate::seats::{Pass, first_pass, other_passes, split_first, with_first};
use crate::steps::{Turns, add_entry, give_back, join_seats, take_turn};
use crate::view::View;
use atomic_table::Table;
use std::alloc::{AllocError, Global};
use std::marker::Brand;
use std::snapshot::Snapshot;
use std::sync::Wait;

/// An object on which callers take turns.
///
/// Two callers, 0 and 1, and what each has seen of the history:
///
/// ```text
/// 0 calls a      history a        0 has seen a        1 has seen nothing
/// 1 calls b      history a b      0 has seen a        1 has seen a b
/// 1 calls c      history a b c    0 has seen a        1 has seen a b c
/// 0 calls d      history a b c d  0 has seen a b c d  1 has seen a b c
/// ```
///
/// The entries have the callers 0, 1, 1, 0 and the numbers 0, 0, 1, 1.
#[derive(Drop)]
pub struct Turn<O: Object> {
    table: Table<Option<O>, View<O::Command, O::Home>, Snapshot<O>, Turns, Global>,
    callers: u32,
    ghost wide: { table.shared.table_id.words ≡ 3 },
    ghost deep: { table.shared.table_id.slots ≡ 1 },
    ghost some: { 0 < callers },
}

impl<O: Object> Turn<O> {
    ghost use Rattle.gcs_turn.specs.Passes.{made_with, callers_of, caller_of, seen_of, mine_of, own_of, taken_of, told, IsPassOf, AreAllOf, IsFirstOf, HasAll, HasCalled};

    /// An object without a call, and a pass for each caller from 0 on, which has seen nothing. `Err`: no memory.
    pub fn new(
        alloc: Global,
        object: O,
        callers: u32,
    ) -> Result<(Turn<O>, Vec<Pass<O>>), AllocError>
        requires callers { (1 ≤ callers) × (callers ≤ 65) }
        requires empty { O.history object ≡ [] }
        ensures turn { IfOk result (λ t. (callers_of t.0 ≡ callers) × (O.home (made_with t.0) ≡ O.home object)) }
        ensures passes { IfOk result (λ t. AreAllOf O.home t.0 t.1.items) }
        ensures fresh { IfOk result (λ t. (i : ℕ) (p : _) → get_elem? t.1.items i ≡ some p → (seen_of p ≡ []) × (mine_of p ≡ [])) }
    {
        let key = Snapshot::of(&object);
        let mut slots = Vec::new(alloc);
        slots.push(Some(object))?;
        let Ok((table, mut first)) = Table::new(alloc, &[0, 0, 0], slots, &key) else {
            return Err(AllocError);
        };
        let others = other_passes(alloc, &table.shared, &mut first, callers)?;
        let passes = with_first(others, first_pass(first))?;
        Ok((Turn { table, callers }, passes))
    }

    /// Waits for its turn, and makes one call. It may wait for good: nothing is said of when a turn comes.
    ///
    /// `Err` is want of memory of the object alone: the command comes back, and the pass has seen no more than before.
    pub fn call<R: Wait>(
        &self,
        rt: &R,
        pass: &mut Pass<O>,
        moment: u64,
        command: O::Command,
    ) -> Result<O::Answer, O::Command>
        requires own { IsPassOf O.home self.now pass.old }
        requires fits { O.fits (O.home (made_with self.now)) command }
        ensures own { IsPassOf O.home self.now pass.new × (caller_of pass.new ≡ caller_of pass.old) }
        ensures ok { IfOk result (λ a. HasCalled O.answer pass.old pass.new record { caller = caller_of pass.old; number = length (mine_of pass.old); moment = moment; command = command } a × O.suits (O.home (made_with self.now)) a) }
        ensures err { IfErr result (λ c. (c ≡ command) × (seen_of pass.new ≡ seen_of pass.old) × (mine_of pass.new ≡ mine_of pass.old)) }
    {
        let table = &self.table.shared;
        let caller = pass.caller;
        let number = pass.calls;
        let seat = &mut pass.seat;
        let mut object = take_turn(rt, table, seat);
        let said = Snapshot::of(&command);
        match object.apply(caller, number, moment, command) {
            Ok(answer) => {
                add_entry::<O, Brand>(table, seat, caller, number, moment, &said);
                give_back(table, seat, object);
                pass.calls = number + 1;
                Ok(answer)
            }
            Err(command) => {
                give_back(table, seat, object);
                Err(command)
            }
        }
    }

    /// Takes another caller's pass in, so that the turn can be closed by the first pass. It takes no memory.
    pub fn take_in(&self, first: &mut Pass<O>, other: Pass<O>)
        requires first { IsFirstOf self.now first.old }
        requires other { IsPassOf O.home self.now other }
        ensures first { IsFirstOf self.now first.new }
        ensures taken { taken_of first.new ≡ taken_of first.old ++ told other ∷ [] }
        ensures kept { (own_of first.new ≡ own_of first.old) × (mine_of first.new ≡ mine_of first.old) }
    {
        let Pass {
            seat,
            caller: _,
            calls: _,
        } = other;
        join_seats(&self.table.shared, &mut first.seat, seat);
    }

    /// Ends the turn by its first pass, which has taken all others in, and gives the object out. It takes no memory.
    pub fn close(self, first: Pass<O>) -> O
        requires first { IsFirstOf self first }
        requires all { HasAll self first }
        ensures home { O.home result ≡ O.home (made_with self) }
        ensures first { Made (O.history result) 0 (own_of first) (mine_of first) }
        ensures taken { (k : ℕ) (x : _) → get_elem? (taken_of first) k ≡ some x → Made (O.history result) x.caller x.seen x.mine }
        ensures all { (c : ℕ) → callers_of self ≤ c → calls_by c (O.history result) ≡ [] }
    {
        let Turn { table, callers: _ } = self;
        let Pass {
            seat,
            caller: _,
            calls: _,
        } = first;
        let mut closed = table.close_with(seat);
        let object = closed.take(0).unwrap();
        closed.free();
        object
    }

    /// Ends the turn by all its passes, and gives the object out. It takes no memory, so it is always `Ok`.
    ///
    /// The history has what each caller saw at its beginning, and of each caller just the entries that its pass tells.
    pub fn finish(self, passes: Vec<Pass<O>>) -> Result<O, (Turn<O>, Vec<Pass<O>>)>
        requires passes { AreAllOf O.home self passes.items }
        ensures ok { IsOk result }
        ensures home { IfOk result (λ o. O.home o ≡ O.home (made_with self)) }
        ensures made { IfOk result (λ o. (i : ℕ) (p : _) → get_elem? passes.items i ≡ some p → Made (O.history o) i (seen_of p) (mine_of p)) }
        ensures all { IfOk result (λ o. (c : ℕ) → callers_of self ≤ c → calls_by c (O.history o) ≡ []) }
    {
        let (mut first, others) = split_first(passes);
        self.take_all(&mut first, others);
        Ok(self.close(first))
    }

    // Takes the passes in, in order.
    fn take_all(&self, first: &mut Pass<O>, others: Vec<Pass<O>>)
        requires first { IsFirstOf self.now first.old }
        requires each { (i : ℕ) (p : _) → get_elem? others.items i ≡ some p → IsPassOf O.home self.now p }
        ensures first { IsFirstOf self.now first.new }
        ensures taken { taken_of first.new ≡ taken_of first.old ++ map told others.items }
        ensures kept { (own_of first.new ≡ own_of first.old) × (mine_of first.new ≡ mine_of first.old) }
    {
        for other in others {
            self.take_in(first, other);
        }
    }
}
