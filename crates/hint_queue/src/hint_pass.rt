ghost use Rattle.std.specs.Prelude.{◌≡◌};
ghost use Rattle.hint_queue.specs.Places.{IsSeated, pass_at};

use crate::counts::Tally;
use crate::view::{Noted, View};
use atomic_table::Seat;
use crossbeam_queue::Pass;
use std::marker::Model;

/// A caller's token of a queue. Contracts see its queue, its number, the pages that it pushed and took, how many of
/// those that it pushed it knows to be taken, and whether it met the queue full.
#[derive(Drop)]
pub struct HintPass {
    seats: Seats,
}

/// The seats of a pass, at the queue and at the counts.
#[derive(Drop)]
pub struct Seats {
    pub number: u8,
    /// How many pages it pushed.
    pub pushes: u64,
    pub place: Pass<Noted, View>,
    pub teller: Seat<u64, Tally>,
}

impl Model for HintPass {
    ghost use Rattle.hint_queue.specs.Orders.{HintPassState};
    ghost use Rattle.hint_queue.specs.Places.{IsSeated, pass_at};

    ghost Value = { HintPassState };

    ghost view = { λ a. pass_at a.seats.place a.seats.teller };

    ghost invariant = { λ a. IsSeated a.seats.number a.seats.pushes a.seats.place a.seats.teller };
}

impl HintPass {
    pub(crate) fn of(seats: Seats) -> HintPass
        requires { IsSeated seats.number seats.pushes seats.place seats.teller }
        ensures { result ≡ pass_at seats.place seats.teller }
    {
        HintPass { seats }
    }

    pub(crate) fn into_seats(self) -> Seats
        ensures seated { IsSeated result.number result.pushes result.place result.teller }
        ensures same { self ≡ pass_at result.place result.teller }
    {
        let HintPass { seats } = self;
        seats
    }
}
