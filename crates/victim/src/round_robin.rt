ghost use Rattle.std.specs.Prelude.{◌≡◌, Some};
ghost use Rattle.ssd_histories.specs.Policies.{first_view};
ghost use Rattle.ssd_geo.specs.declared.policy_view.PolicyKind.TheVariants as kind;

use crate::Policy;
use crate::candidates::first_after;
use ssd_geo::SbInfo;
use std::marker::Model;

/// Picks the first candidate after its last answer, going round.
#[derive(Debug, Drop)]
pub struct RoundRobin {
    last: Option<u16>,
}

impl Model for RoundRobin {
    ghost use Rattle.std.specs.Prelude.{ℕ, List, option_to_list};

    ghost Value = { List ℕ };

    ghost view = { λ a. option_to_list a.last };
}

impl RoundRobin {
    /// The policy before its first answer.
    pub fn new() -> RoundRobin
        ensures { ⟦<RoundRobin as Policy>⟧.told result ≡ Some (first_view kind.RoundRobin) }
    {
        RoundRobin { last: None }
    }
}

impl Policy for RoundRobin {
    ghost use Rattle.std.specs.Prelude.{Some};
    ghost use Rattle.ssd_geo.specs.declared.policy_view.PolicyKind.TheVariants as kind;

    ghost told = { λ list. Some (record { kind = kind.RoundRobin; list = list }) };

    fn pick(&mut self, table: &[SbInfo]) -> u16 {
        let next = match first_after(table, self.last) {
            Some(sb) => Some(sb),
            None => first_after(table, None),
        };
        match next {
            Some(sb) => {
                self.last = next;
                sb
            }
            None => u16::MAX,
        }
    }

    fn erased(&mut self, _sb: u16) {}
}
