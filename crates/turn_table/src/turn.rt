ghost use Rattle.std.specs.Prelude.{◌≡◌};
ghost use Rattle.std.specs.Borrow.{Lends, sem};
ghost use Rattle.turn_table.specs.Passes.{with_value};
ghost use Rattle.turn_table.specs.contracts.turn.Turn.{the_row};

use crate::view::View;
use atomic_table::Seat;
use std::marker::Model;

/// One holding of the value behind a lock. It has to be given back.
pub struct Turn<V> {
    pub(crate) seat: Seat<Option<V>, View>,
    pub(crate) value: V,
}

impl<V> Model for Turn<V> {
    ghost use Rattle.std.specs.Prelude.{◌≡◌, [], ◌∷◌, None};
    ghost use Rattle.turn_table.specs.Passes.{TurnState};
    ghost use Rattle.turn_table.specs.Views.{pass_of, view_of};
    ghost use Rattle.turn_table.specs.declared.view.Stage.TheVariants.{InTurn};

    ghost Value = { TurnState V };

    ghost view = { λ t. record { pass = pass_of t.seat.table_id t.seat.me.0; value = t.value } };

    ghost invariant = { λ t. t.seat.me ≡ (view_of InTurn (pass_of t.seat.table_id t.seat.me.0), (0, None) ∷ []) };
}

impl<V> Turn<V> {
    /// The value. What is written to it is given back with the turn.
    pub fn value(&mut self) -> &mut V
        ensures* writes_back { sem 𝓛 (Lends (the_row V.row) V.row self.entry result (with_value self.old)) }
        ensures value { result.now ≡ self.old.value }
    {
        &mut self.value
    }
}
