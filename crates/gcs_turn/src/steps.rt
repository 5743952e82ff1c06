//! The steps of a turn: each is one atomic step on the table, or the moves of the object between two of them.
ghost use Rattle.std.specs.Prelude.{◌≡◌, ◌≢◌, ◌<◌, ◌≤◌, ◌^◌, ◌∷◌, false, [], ◌++◌, List, length, Some, None};
ghost use Rattle.gcs_turn.specs.Turning.{drew, looked, added, left, Took, Made, HasTurn, one_more, next_seat, taken_in, spent_view, AllNumbered};
ghost use Rattle.gcs_turn.specs.Seating.{IsAt, IsIdle, IsWaiting, IsServed, MayGive};

use crate::object::Object;
use crate::view::View;
use atomic_table::{Join, Play, Seat, Shared, Split, TableRule};
use std::marker::{Brand, PhantomData};
use std::snapshot::Snapshot;
use std::sync::Wait;
use std::thread;

/// The rule of the table: `TurnRule`. Its key is the object as it was at the start.
pub struct Turns;

impl<O: Object> TableRule<Option<O>, View<O::Command, O::Home>, Snapshot<O>> for Turns {
    ghost use Rattle.std.specs.Prelude.{[], Some};
    ghost use Rattle.gcs_turn.specs.Turning.{TurnRule, newcomer};

    ghost holds = { λ key. TurnRule O.history O.home (O.home key.value) };

    ghost first = { λ key. record (newcomer 0 (Some (O.home key.value)) []) { made = 1 } };
}

/// The words and the slot that the seats share: how many entries the history has, the next ticket, and the ticket that is
/// served; and the object, where no seat has it out.
pub type TurnTable<O> = Shared<
    Option<O>,
    View<<O as Object>::Command, <O as Object>::Home>,
    Snapshot<O>,
    Turns,
>;

/// A place at the table.
pub type TurnSeat<O> = Seat<Option<O>, View<<O as Object>::Command, <O as Object>::Home>>;

struct Draws;

impl<O: Object> Play<Option<O>, View<O::Command, O::Home>> for Draws {
    ghost then = { drew };
}

// Draws a ticket.
fn draw<O: Object>(table: &TurnTable<O>, seat: &mut TurnSeat<O>) -> u64
    requires own { IsAt table.now.table_id seat.old }
    requires idle { IsIdle seat.old }
    ensures own { (seat.new.table_id ≡ seat.old.table_id) × (seat.new.me.1 ≡ []) }
    ensures drew { seat.new.me.0 ≡ record seat.old.me.0 { stage = 1; ticket = result } }
{
    table.fetch_add::<Draws>(seat, 1, 1)
}

struct Looks;

impl<O: Object> Play<Option<O>, View<O::Command, O::Home>> for Looks {
    ghost then = { looked O.history O.home };
}

// Reads which ticket is served. Where it is the seat's own, the object is the seat's until it gives up its turn.
fn look_now<O: Object>(table: &TurnTable<O>, seat: &mut TurnSeat<O>) -> u64
    requires own { IsAt table.now.table_id seat.old }
    requires waits { IsWaiting seat.old }
    ensures own { seat.new.table_id ≡ seat.old.table_id }
    ensures served { result ≡ seat.old.me.0.ticket → Took O.history O.home seat.old.me seat.new.me }
    ensures waits { result ≢ seat.old.me.0.ticket → seat.new.me ≡ seat.old.me }
{
    table.load::<Looks>(seat, 2)
}

/// Names the entry that a step adds, as a list of one: no code reads it, and the proof of a call says which it is.
pub trait Named<C> {
    ghost use Rattle.gcs_turn.specs.declared.object.Entry.{Entry};

    ghost named: { List (Entry C) };
}

impl<C> Named<C> for Brand {
    ghost named = { [] };
}

struct Adds<E> {
    named: PhantomData<E>,
}

impl<O: Object, E: Named<O::Command>> Play<Option<O>, View<O::Command, O::Home>> for Adds<E> {
    ghost then = { added E.named };
}

struct Leaves;

impl<O: Object> Play<Option<O>, View<O::Command, O::Home>> for Leaves {
    ghost then = { left };
}

/// Counts the entry that the call added, and says to all which it is.
pub fn add_entry<O: Object, E: Named<O::Command>>(
    table: &TurnTable<O>,
    seat: &mut TurnSeat<O>,
    caller: u32,
    number: u64,
    moment: u64,
    command: &Snapshot<O::Command>,
)
    requires own { IsAt table.now.table_id seat.old }
    requires served { (seat.old.me.0.stage ≡ 2) × (seat.old.me.0.spent ≡ false) }
    requires entry { E.named ≡ record { caller = caller; number = number; moment = moment; command = command.now.value } ∷ [] }
    requires mine { (caller ≡ seat.old.me.0.caller) × (number ≡ length seat.old.me.0.mine) }
    requires room { length (seat.old.me.0.base ++ E.named) < 2 ^ 59 }
    ensures own { seat.new.table_id ≡ seat.old.table_id }
    ensures added { seat.new.me ≡ (record seat.old.me.0 { stage = 3; seen = seat.old.me.0.base ++ E.named; own = seat.old.me.0.base ++ E.named; mine = seat.old.me.0.mine ++ E.named }, seat.old.me.1) }
{
    let _ = command;
    table.fetch_add::<Adds<E>>(seat, 0, 1);
}

// Gives up the turn: the next ticket is served.
fn leave<O: Object>(table: &TurnTable<O>, seat: &mut TurnSeat<O>)
    requires own { IsAt table.now.table_id seat.old }
    requires served { IsServed seat.old }
    requires holds { (object : O) × (seat.old.me.1 ≡ (0, Some object) ∷ []) × MayGive O.history O.home seat.old object }
    ensures own { seat.new.table_id ≡ seat.old.table_id }
    ensures left { seat.new.me ≡ (record seat.old.me.0 { stage = 0 }, []) }
{
    table.fetch_add::<Leaves>(seat, 2, 1);
}

// Waits until the ticket is served.
fn wait_turn<O: Object, R: Wait>(rt: &R, table: &TurnTable<O>, seat: &mut TurnSeat<O>, ticket: u64)
    requires own { IsAt table.now.table_id seat.old }
    requires waits { IsWaiting seat.old × (ticket ≡ seat.old.me.0.ticket) }
    ensures own { seat.new.table_id ≡ seat.old.table_id }
    ensures took { Took O.history O.home seat.old.me seat.new.me }
{
    for _ in rt.forever() {
        if look_now(table, seat) == ticket {
            return;
        }
        thread::yield_now();
    }
    unreachable!()
}

/// Draws a ticket, waits for it, and takes the object out of the slot.
pub fn take_turn<O: Object, R: Wait>(rt: &R, table: &TurnTable<O>, seat: &mut TurnSeat<O>) -> O
    requires own { IsAt table.now.table_id seat.old }
    requires idle { IsIdle seat.old }
    ensures own { seat.new.table_id ≡ seat.old.table_id }
    ensures took { HasTurn O.history seat.old.me seat.new.me result }
    ensures home { seat.old.me.0.home ≡ Some (O.home result) }
    ensures made { Made (O.history result) seat.old.me.0.caller seat.old.me.0.seen seat.old.me.0.mine }
    ensures fewer { length seat.old.me.0.mine ≤ length (O.history result) }
    ensures numbered { AllNumbered (O.history result) }
{
    let ticket = draw(table, seat);
    wait_turn(rt, table, seat, ticket);
    table.exchange(seat, 0, None).unwrap()
}

/// Puts the object back into the slot, and gives up the turn.
pub fn give_back<O: Object>(table: &TurnTable<O>, seat: &mut TurnSeat<O>, object: O)
    requires own { IsAt table.now.table_id seat.old }
    requires served { IsServed seat.old }
    requires holds { (seat.old.me.1 ≡ (0, None) ∷ []) × MayGive O.history O.home seat.old object }
    ensures own { seat.new.table_id ≡ seat.old.table_id }
    ensures left { seat.new.me ≡ (record seat.old.me.0 { stage = 0 }, []) }
{
    table.exchange(seat, 0, Some(object));
    leave(table, seat);
}

struct Opens;

impl<C, H> Split<View<C, H>> for Opens {
    ghost left = { one_more };

    ghost right = { next_seat };
}

/// A seat more, which knows what the first one has seen.
pub fn open_seat<O: Object>(table: &TurnTable<O>, seat: &mut TurnSeat<O>) -> TurnSeat<O>
    requires own { IsAt table.now.table_id seat.old }
    requires maker { (0 < seat.old.me.0.made) × (seat.old.me.0.made < 65) × (seat.old.me.0.spent ≡ false) }
    ensures kept { (seat.new.table_id ≡ seat.old.table_id) × (seat.new.me ≡ (one_more seat.old.me.0, seat.old.me.1)) }
    ensures given { (result.table_id ≡ seat.old.table_id) × (result.me ≡ (next_seat seat.old.me.0, [])) }
{
    table.split_seat::<Opens>(seat)
}

struct Gathers;

impl<C, H> Join<View<C, H>> for Gathers {
    ghost both = { taken_in };

    ghost spent = { spent_view };
}

/// Joins another caller's seat into the first one.
pub fn join_seats<O: Object>(table: &TurnTable<O>, seat: &mut TurnSeat<O>, other: TurnSeat<O>)
    requires own { IsAt table.now.table_id seat.old × (other.table_id ≡ table.now.table_id) }
    requires maker { (0 < seat.old.me.0.made) × (seat.old.me.0.stage ≡ 0) × (seat.old.me.0.spent ≡ false) }
    requires other { IsIdle other }
    ensures kept { (seat.new.table_id ≡ seat.old.table_id) × (seat.new.me ≡ (taken_in seat.old.me.0 other.me.0, seat.old.me.1)) }
{
    table.join_seat::<Gathers>(seat, other);
}
