// The ageing of a block.
ghost use Rattle.std.specs.Prelude.{◌≡◌};
ghost use Rattle.ssd_geo.specs.declared.kind.Kind.{Kind};
ghost use Rattle.chan_tables.specs.TablesState.{tables_after, HasSpare};

use super::Tables;
use ssd_geo::{Kind, Tag};

impl Tables {
    /// Records an ageing of a block.
    pub fn aged(&mut self, tag: Tag, die: u8, sb: u16, amount: u16)
        requires { HasSpare self.old }
        ensures { self.new ≡ tables_after self.old tag (Kind.Age die sb amount) }
    {
        self.add(tag, Kind::Age { die, sb, amount });
    }

    /// Records an ageing in which the die failed.
    pub fn fault_aged(&mut self, tag: Tag, die: u8, sb: u16, amount: u16)
        requires { HasSpare self.old }
        ensures { self.new ≡ tables_after self.old tag (Kind.FaultAge die sb amount) }
    {
        self.add(tag, Kind::FaultAge { die, sb, amount });
    }
}
