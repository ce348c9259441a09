ghost use Rattle.std.specs.Prelude.{◌≡◌, Some};
ghost use Rattle.ssd_histories.specs.Policies.{first_view};
ghost use Rattle.ssd_geo.specs.declared.policy_view.PolicyKind.TheVariants as kind;

use crate::{Policy, default_victim};
use ssd_geo::SbInfo;

/// Picks the candidate with the most garbage.
#[derive(Clone, Copy, Debug)]
pub struct Greedy;

impl Greedy {
    /// The policy, which keeps nothing.
    pub fn new() -> Greedy
        ensures { ⟦<Greedy as Policy>⟧.told result ≡ Some (first_view kind.Greedy) }
    {
        Greedy
    }
}

impl Policy for Greedy {
    ghost use Rattle.std.specs.Prelude.{Some};
    ghost use Rattle.ssd_histories.specs.Policies.{first_view};
    ghost use Rattle.ssd_geo.specs.declared.policy_view.PolicyKind.TheVariants as kind;

    ghost told = { λ policy. Some (first_view kind.Greedy) };

    fn pick(&mut self, table: &[SbInfo]) -> u16 {
        default_victim(table).unwrap_or(u16::MAX)
    }

    fn erased(&mut self, _sb: u16) {}
}
