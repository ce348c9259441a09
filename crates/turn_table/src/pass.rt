ghost use Rattle.std.specs.Prelude.{◌≡◌, []};
ghost use Rattle.turn_table.specs.Places.{IsAt, pass_at};
ghost use Rattle.turn_table.specs.declared.view.Stage.TheVariants.{Away};

use crate::view::View;
use atomic_table::{Badge, Seat};
use std::marker::Model;

/// A caller's token of a lock. It has no bytes. Contracts see its lock, its numbers and the list that it has seen.
#[derive(Drop)]
pub struct Pass {
    badge: Badge<View>,
}

impl Model for Pass {
    ghost use Rattle.std.specs.Prelude.{◌≡◌, [], ◌∷◌};
    ghost use Rattle.turn_table.specs.Passes.{PassState};
    ghost use Rattle.turn_table.specs.Views.{pass_in, view_of};
    ghost use Rattle.turn_table.specs.declared.view.Stage.TheVariants.{Away};

    ghost Value = { PassState };

    ghost view = { λ a. pass_in a.badge.table_id a.badge.views };

    ghost invariant = { λ a. a.badge.views ≡ view_of Away (pass_in a.badge.table_id a.badge.views) ∷ [] };
}

impl Pass {
    pub(crate) fn of<V>(seat: Seat<Option<V>, View>) -> Pass
        requires { IsAt (pass_at seat) Away [] seat }
        ensures { result ≡ pass_at seat }
    {
        Pass {
            badge: seat.into_badge(),
        }
    }

    pub(crate) fn into_seat<V>(self) -> Seat<Option<V>, View>
        ensures { IsAt self Away [] result }
    {
        let Pass { badge } = self;
        badge.into_seat()
    }
}
