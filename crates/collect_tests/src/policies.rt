// A policy of a test.
use ssd_geo::SbInfo;
use victim::Policy;

/// A policy that always answers the same superblock, whether that may be picked or not.
#[derive(Drop)]
pub(crate) struct Always {
    pub(crate) sb: u16,
}

impl Policy for Always {
    ghost use Rattle.std.specs.Prelude.{None};

    ghost told = { λ policy. None };

    fn pick(&mut self, _table: &[SbInfo]) -> u16 {
        self.sb
    }

    fn erased(&mut self, _sb: u16) {}
}
