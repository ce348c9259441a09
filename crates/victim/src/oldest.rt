ghost use Rattle.std.specs.Prelude.{◌≡◌, ◌<◌, ◌≤◌, ◌==◌, filter, find, length, not, take, Some};
ghost use Rattle.ssd_histories.specs.Policies as Policies;
ghost use Rattle.ssd_histories.specs.Policies.{first_view};
ghost use Rattle.ssd_geo.specs.declared.policy_view.PolicyKind.TheVariants as kind;

use crate::Policy;
use crate::candidates::{first_unlisted, is_candidate_at};
use ssd_geo::SbInfo;
use std::marker::Model;

/// Picks the candidate whose last erase is longest ago, those that were never erased first.
#[derive(Debug, Drop)]
pub struct Oldest {
    // The superblocks that were erased, the last one at the end, and how many they are.
    order: [u16; 256],
    len: usize,
    // Whether each superblock is among them.
    listed: [bool; 256],
}

impl Model for Oldest {
    ghost use Rattle.std.specs.Prelude.{ℕ, List, take};
    ghost use Rattle.victim.specs.Listed.{AreListed};

    ghost Value = { List ℕ };

    ghost view = { λ a. take a.len a.order };

    ghost invariant = { λ a. AreListed (take a.len a.order) a.len a.listed };
}

impl Oldest {
    /// The policy before the first erase.
    pub fn new() -> Oldest
        ensures { ⟦<Oldest as Policy>⟧.told result ≡ Some (first_view kind.Oldest) }
    {
        Oldest {
            order: [0; 256],
            len: 0,
            listed: [false; 256],
        }
    }
}

impl Policy for Oldest {
    ghost use Rattle.std.specs.Prelude.{Some};
    ghost use Rattle.ssd_geo.specs.declared.policy_view.PolicyKind.TheVariants as kind;

    ghost told = { λ list. Some (record { kind = kind.Oldest; list = list }) };

    fn pick(&mut self, table: &[SbInfo]) -> u16 {
        match first_unlisted(table, &self.listed) {
            Some(sb) => sb,
            None => first_listed(table, &self.order[..self.len]).unwrap_or(u16::MAX),
        }
    }

    fn erased(&mut self, sb: u16) {
        let kept = taken_out(&mut self.order, self.len, sb);
        self.order[kept] = sb;
        self.len = kept + 1;
        self.listed[sb as usize] = true;
    }
}

// The first of these superblocks that is a candidate.
fn first_listed(table: &[SbInfo], list: &[u16]) -> Option<u16>
    ensures { result ≡ find (Policies.is_candidate_at table.now) list.now }
{
    list.iter().copied().find(|sb| is_candidate_at(table, *sb))
}

// Takes a superblock out of the first ones of a list, which keep their order, and answers how many are left.
fn taken_out(list: &mut [u16], len: usize, sb: u16) -> usize
    requires { len ≤ length list.old }
    ensures kept { take result list.new ≡ filter (λ other. not (other == sb)) (take len list.old) }
    ensures fewer { result ≤ len }
{
    let mut kept = 0;
    for i in 0..len {
        let other = list[i];
        if other != sb {
            list[kept] = other;
            kept += 1;
        }
    }
    kept
}
