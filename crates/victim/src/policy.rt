ghost use Rattle.std.specs.Prelude.{◌≡◌, ◌<◌, ◌≤◌, IfSome, length, option_map};
ghost use Rattle.ssd_histories.specs.Policies.{answer_of, view_after_erase, view_after_pick};

use ssd_geo::SbInfo;

/// Picks the superblock that is collected next.
pub trait Policy: Drop {
    ghost use Rattle.std.specs.Prelude.{Option};
    ghost use Rattle.ssd_geo.specs.declared.policy_view.PolicyView.{PolicyView};

    // What the policy goes by, where it tells it. It then tells it from its making on, and any other never does.
    ghost told: { Self → Option PolicyView };

    /// The superblock to collect, from a table of at most 256. Where no view is told any answer may come, also one
    /// that is no candidate.
    fn pick(&mut self, table: &[SbInfo]) -> u16
        requires { length table.now ≤ 256 }
        ensures answer { IfSome (told self.old) (λ view. result ≡ answer_of view table.now) }
        ensures view { told self.new ≡ option_map (λ view. view_after_pick view table.now) (told self.old) };

    /// Is told that the superblock was erased.
    fn erased(&mut self, sb: u16)
        requires { sb < 256 }
        ensures { told self.new ≡ option_map (λ view. view_after_erase view sb) (told self.old) };
}

impl Policy for Box<dyn Policy + Send> {
    ghost told = { λ boxed. (Policy-box boxed).told boxed.value };

    fn pick(&mut self, table: &[SbInfo]) -> u16 {
        (**self).pick(table)
    }

    fn erased(&mut self, sb: u16) {
        (**self).erased(sb);
    }
}
