ghost use Rattle.std.specs.Prelude.{◌≡◌, ◌≢◌, ◌≤◌, ◌<◌, ℕ, [], Some, Ok, IfOk};
ghost use Rattle.std.specs.List.{All};
ghost use Rattle.turn_table.specs.Passes.{AddsAtMostOne, GoesOnFrom, Has, HaveAll, Includes};
ghost use Rattle.turn_table.specs.Passes.{having_seen, joined_pass, nameless, new_passes, numbers_of};

use crate::law::{Begun, Law, Opening};
use crate::pass::Pass;
use crate::standing::Standing;
use crate::steps::{Place, cut, deal, draw, end, gather, value_left, wait};
use crate::turn::Turn;
use crate::view::View;
use atomic_table::Table;
use ssd_geo::Memory;
use std::alloc::Global;
use std::marker::{Brand, Model};
use std::snapshot::Snapshot;
use std::sync::Wait;

/// A lock that hands out turns. Contracts see which lock it is, how many of its passes have a number, and the start for
/// which the value behind it stands.
#[derive(Drop)]
pub struct Turns<V: Standing> {
    table: Table<Option<V>, View, Opening<V>, Law, Global>,
}

impl<V: Standing> Model for Turns<V> {
    ghost use Rattle.std.specs.Prelude.{◌≡◌, ◌≤◌};
    ghost use Rattle.turn_table.specs.Passes.{LockState};

    ghost Value = { LockState V.Start };

    ghost view = { λ t. let key = t.table.shared.key in
        record { lock = t.table.shared.table_id; passes = key.passes; start = V.start key.value.value } };

    ghost invariant = { λ t. let table = t.table.shared in
        (table.table_id.words ≡ 2) × (table.table_id.slots ≡ 1) × (1 ≤ table.key.passes) };
}

impl<V: Standing> Turns<V> {
    /// A lock round a value, and its passes in the order of their numbers.
    pub fn new(alloc: Global, value: V, passes: u32) -> Result<(Turns<V>, Vec<Pass>), Memory>
        requires some { 1 ≤ passes }
        requires few { passes ≤ 32 }
        requires empty { V.entries value ≡ [] }
        ensures lock { IfOk result (λ made. (made.0.passes ≡ passes) × (made.0.start ≡ V.start value)) }
        ensures passes { IfOk result (λ made. made.1.items ≡ new_passes made.0.lock 0 passes) }
    {
        let opening = Opening {
            value: Snapshot::of(&value),
            passes,
        };
        let Ok(mut slots) = Vec::with_capacity(alloc, 1) else {
            return Err(Memory);
        };
        slots.push_reserved(Some(value));
        let Ok((table, first)) = Table::new(alloc, &[0, 0], slots, &opening) else {
            return Err(Memory);
        };
        let dealt = deal(alloc, &table.shared, first, passes)?;
        Ok((Turns { table }, dealt))
    }

    /// Waits for a turn.
    pub fn take<R: Wait>(&self, rt: &R, pass: Pass) -> Turn<V>
        requires lock { pass.lock ≡ self.now.lock }
        requires number { pass.number ≢ 255 }
        ensures pass { result.pass ≡ having_seen pass (V.entries result.value) }
        ensures list { GoesOnFrom pass (V.entries result.value) }
        ensures start { V.start result.value ≡ self.now.start }
    {
        self.take_begun::<Brand, R>(rt, pass)
    }

    fn take_begun<B: Begun<V::Start>, R: Wait>(&self, rt: &R, pass: Pass) -> Turn<V>
        requires lock { pass.lock ≡ self.now.lock }
        requires number { pass.number ≢ 255 }
        requires begun { B.begun ≡ Some self.now.start }
        ensures pass { result.pass ≡ having_seen pass (V.entries result.value) }
        ensures list { GoesOnFrom pass (V.entries result.value) }
        ensures start { V.start result.value ≡ self.now.start }
    {
        let mut seat = pass.into_seat();
        let ticket = draw(&self.table.shared, &mut seat);
        wait::<V, B, R>(rt, &self.table.shared, &mut seat, ticket);
        let value = self.table.shared.exchange(&mut seat, 0, None);
        Turn {
            seat,
            value: value.unwrap(),
        }
    }

    /// Gives a turn back, and with it the value.
    pub fn give(&self, turn: Turn<V>) -> Pass
        requires lock { turn.pass.lock ≡ self.now.lock }
        requires start { V.start turn.value ≡ self.now.start }
        requires list { AddsAtMostOne turn.pass (V.entries turn.value) }
        ensures { result ≡ having_seen turn.pass (V.entries turn.value) }
    {
        let Turn { mut seat, value } = turn;
        end(&self.table.shared, &mut seat, value);
        Pass::of(seat)
    }

    /// The pass, and a new one that has seen as much and has no number. A pass has no bytes, so memory is never wanting.
    pub fn split(&self, pass: Pass) -> Result<(Pass, Pass), Pass>
        requires { pass.lock ≡ self.now.lock }
        ensures { result ≡ Ok (pass, nameless pass) }
    {
        let mut seat: Place<V> = pass.into_seat();
        let second = cut(&self.table.shared, &mut seat);
        Ok((Pass::of(seat), Pass::of(second)))
    }

    /// One pass of two.
    pub fn join(&self, a: Pass, b: Pass) -> Pass
        requires first { a.lock ≡ self.now.lock }
        requires second { b.lock ≡ self.now.lock }
        ensures pass { result ≡ joined_pass a b }
        ensures first { GoesOnFrom a result.seen }
        ensures second { GoesOnFrom b result.seen }
    {
        let mut seat: Place<V> = a.into_seat();
        gather(&self.table.shared, &mut seat, b.into_seat());
        Pass::of(seat)
    }

    // All passes in one.
    fn gathered(&self, mut passes: Vec<Pass>) -> Pass
        requires some { 1 ≤ self.now.passes }
        requires lock { All (λ pass. pass.lock ≡ self.now.lock) passes.items }
        requires numbers { HaveAll self.now.passes passes.items }
        ensures lock { result.lock ≡ self.now.lock }
        ensures numbers { (number : ℕ) → number < self.now.passes → Has (numbers_of result) number }
        ensures passes { All (λ pass. Includes result pass) passes.items }
    {
        let mut whole = passes.pop().unwrap();
        while let Some(pass) = passes.pop() {
            whole = self.join(whole, pass);
        }
        whole
    }

    /// The value, once all passes are back.
    pub fn close(self, passes: Vec<Pass>) -> V
        requires lock { All (λ pass. pass.lock ≡ self.lock) passes.items }
        requires numbers { HaveAll self.passes passes.items }
        ensures start { V.start result ≡ self.start }
        ensures actors { All (λ entry. entry.tag.actor < self.passes) (V.entries result) }
        ensures list { All (λ pass. GoesOnFrom pass (V.entries result)) passes.items }
    {
        let seat = self.gathered(passes).into_seat();
        let Turns { table } = self;
        value_left(table, seat)
    }
}
