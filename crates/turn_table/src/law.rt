use crate::standing::Standing;
use crate::view::View;
use atomic_table::{Join, Play, Split, TableRule};
use std::marker::{Brand, PhantomData};
use std::snapshot::Snapshot;

/// What a lock was made with: the value, and how many passes have a number.
#[derive(Drop)]
pub struct Opening<V> {
    pub value: Snapshot<V>,
    pub passes: u32,
}

/// The rule of a lock.
pub struct Law;

impl<V: Standing> TableRule<Option<V>, View, Opening<V>> for Law {
    ghost use Rattle.turn_table.specs.Kept.{IsKept};
    ghost use Rattle.turn_table.specs.Steps.{first_view};

    ghost holds = { λ key s. IsKept V.entries V.start key.passes (V.start key.value.value) s };

    ghost first = { λ key. first_view key.passes };
}

/// The start of the value behind a lock, for the proof of a step alone. A call picks it.
pub trait Begun<S> {
    ghost use Rattle.std.specs.Prelude.{Option};

    ghost begun: { Option S };
}

impl<S> Begun<S> for Brand {
    ghost use Rattle.std.specs.Prelude.{None};

    ghost begun = { None };
}

/// A ticket is drawn.
pub struct Draw;

impl<V: Standing> Play<Option<V>, View> for Draw {
    ghost use Rattle.turn_table.specs.Steps.{Draws};

    ghost then = { Draws };
}

/// The seat whose ticket is served takes the slot.
pub struct Come<B> {
    of: PhantomData<B>,
}

impl<V: Standing, B: Begun<V::Start>> Play<Option<V>, View> for Come<B> {
    ghost use Rattle.turn_table.specs.Steps.{Comes};

    ghost then = { Comes V.entries V.start B.begun };
}

/// The seat in turn gives the slot back.
pub struct End;

impl<V: Standing> Play<Option<V>, View> for End {
    ghost use Rattle.turn_table.specs.Steps.{Ends};

    ghost then = { Ends V.entries };
}

/// A pass is compared with those that were joined to it.
pub struct Compare;

impl<V: Standing> Play<Option<V>, View> for Compare {
    ghost use Rattle.turn_table.specs.Steps.{Compares};

    ghost then = { Compares };
}

/// A new pass takes over the least number that the first still has to give.
pub struct Cut;

impl Split<View> for Cut {
    ghost use Rattle.turn_table.specs.Steps.{split_left, split_right};

    ghost left = { split_left };

    ghost right = { split_right };
}

/// A pass takes in another.
pub struct Gather;

impl Join<View> for Gather {
    ghost use Rattle.turn_table.specs.Steps.{joined_view, spent_view};

    ghost both = { joined_view };

    ghost spent = { spent_view };
}
