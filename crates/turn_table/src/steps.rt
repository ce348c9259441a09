ghost use Rattle.std.specs.Prelude.{◌≡◌, ◌≢◌, ◌≤◌, ◌<◌, ℕ, [], ◌∷◌, IfOk, Some};
ghost use Rattle.turn_table.specs.Passes.{AddsAtMostOne, GoesOnFrom, Has, having_seen, joined_pass, new_passes};
ghost use Rattle.turn_table.specs.Places.{IsAt, IsLeft, TookTurn, Waits, pass_at};
ghost use Rattle.turn_table.specs.Views.{numbers_in};
ghost use Rattle.turn_table.specs.Steps.{first_view, split_left, split_right};
ghost use Rattle.turn_table.specs.declared.view.Stage.TheVariants.{Away, InTurn};

use crate::law::{Begun, Come, Compare, Cut, Draw, End, Gather, Law, Opening};
use crate::pass::Pass;
use crate::standing::Standing;
use crate::view::View;
use atomic_table::{Seat, Shared, Table};
use ssd_geo::Memory;
use std::alloc::Global;
use std::hint::spin_loop;
use std::sync::Wait;
use std::thread::yield_now;

// Indexes of the words.
const NEXT: usize = 0;

const SERVED: usize = 1;

// Rounds of a wait before it lets other threads run.
const SPINS: u32 = 64;

pub type Board<V> = Shared<Option<V>, View, Opening<V>, Law>;

pub type Place<V> = Seat<Option<V>, View>;

/// Draws a ticket.
pub fn draw<V: Standing>(board: &Board<V>, seat: &mut Place<V>) -> u64
    requires words { board.now.table_id.words ≡ 2 }
    requires table { seat.old.table_id ≡ board.now.table_id }
    requires away { IsAt (pass_at seat.old) Away [] seat.old }
    requires number { seat.old.me.0.number ≢ 255 }
    ensures { Waits (pass_at seat.old) result seat.new }
{
    board.fetch_add::<Draw>(seat, NEXT, 1)
}

/// Waits until the seat's ticket is served.
pub fn wait<V: Standing, B: Begun<V::Start>, R: Wait>(
    rt: &R,
    board: &Board<V>,
    seat: &mut Place<V>,
    ticket: u64,
)
    requires words { board.now.table_id.words ≡ 2 }
    requires table { seat.old.table_id ≡ board.now.table_id }
    requires waits { Waits (pass_at seat.old) ticket seat.old }
    requires begun { B.begun ≡ Some (V.start board.now.key.value.value) }
    ensures { TookTurn V.entries V.start B.begun (pass_at seat.old) seat.new }
{
    let mut spins = 0;
    for _ in rt.forever() {
        if board.load::<Come<B>>(seat, SERVED) == ticket {
            return;
        }
        if spins < SPINS {
            spins += 1;
            spin_loop();
        } else {
            yield_now();
        }
    }
    unreachable!()
}

/// Ends a turn.
pub fn end<V: Standing>(board: &Board<V>, seat: &mut Place<V>, value: V)
    requires words { board.now.table_id.words ≡ 2 }
    requires table { seat.old.table_id ≡ board.now.table_id }
    requires in_turn { IsAt (pass_at seat.old) InTurn ((0, None) ∷ []) seat.old }
    requires start { V.start value ≡ V.start board.now.key.value.value }
    requires list { AddsAtMostOne (pass_at seat.old) (V.entries value) }
    ensures { IsAt (having_seen (pass_at seat.old) (V.entries value)) Away [] seat.new }
{
    board.exchange(seat, 0, Some(value));
    board.fetch_add::<End>(seat, SERVED, 1);
}

/// Cuts a new pass off.
pub fn cut<V: Standing>(board: &Board<V>, seat: &mut Place<V>) -> Place<V>
    requires words { board.now.table_id.words ≡ 2 }
    requires table { seat.old.table_id ≡ board.now.table_id }
    requires away { seat.old.me.0.stage ≡ Away }
    ensures first { (seat.new.table_id ≡ seat.old.table_id) × (seat.new.me ≡ (split_left seat.old.me.0, seat.old.me.1)) }
    ensures second { (result.table_id ≡ seat.old.table_id) × (result.me ≡ (split_right seat.old.me.0, [])) }
{
    board.split_seat::<Cut>(seat)
}

/// Takes another pass in.
pub fn gather<V: Standing>(board: &Board<V>, seat: &mut Place<V>, other: Place<V>)
    requires words { board.now.table_id.words ≡ 2 }
    requires tables { (seat.old.table_id ≡ board.now.table_id) × (other.table_id ≡ board.now.table_id) }
    requires first { IsAt (pass_at seat.old) Away [] seat.old }
    requires second { IsAt (pass_at other) Away [] other }
    ensures pass { IsAt (joined_pass (pass_at seat.old) (pass_at other)) Away [] seat.new }
    ensures first { GoesOnFrom (pass_at seat.old) (joined_pass (pass_at seat.old) (pass_at other)).seen }
    ensures second { GoesOnFrom (pass_at other) (joined_pass (pass_at seat.old) (pass_at other)).seen }
{
    board.join_seat::<Gather>(seat, other);
    board.load::<Compare>(seat, NEXT);
}

/// The passes of a new lock.
pub fn deal<V: Standing>(
    alloc: Global,
    board: &Board<V>,
    mut first: Place<V>,
    count: u32,
) -> Result<Vec<Pass>, Memory>
    requires words { board.now.table_id.words ≡ 2 }
    requires some { 1 ≤ count }
    requires table { first.table_id ≡ board.now.table_id }
    requires new { first.me ≡ (first_view count, []) }
    ensures { IfOk result (λ passes. passes.items ≡ new_passes board.now.table_id 0 count) }
{
    let Ok(mut passes) = Vec::with_capacity(alloc, count as usize) else {
        return Err(Memory);
    };
    for _ in 1..count {
        let fresh = cut(board, &mut first);
        let Ok(()) = passes.push(Pass::of(fresh)) else {
            return Err(Memory);
        };
    }
    let Ok(()) = passes.insert(0, Pass::of(first)) else {
        return Err(Memory);
    };
    Ok(passes)
}

/// The value behind a lock of which one pass has all numbers.
pub fn value_left<V: Standing>(
    table: Table<Option<V>, View, Opening<V>, Law, Global>,
    seat: Place<V>,
) -> V
    requires slots { table.shared.table_id.slots ≡ 1 }
    requires table { seat.table_id ≡ table.shared.table_id }
    requires away { seat.me.0.stage ≡ Away }
    requires numbers { (number : ℕ) → number < table.shared.key.passes → Has (numbers_in seat.me.0) number }
    ensures { IsLeft V.entries V.start table.shared.key.passes (V.start table.shared.key.value.value) seat.me.0 result }
{
    let mut closed = table.close_with(seat);
    let value = closed.take(0);
    closed.free();
    value.unwrap()
}
