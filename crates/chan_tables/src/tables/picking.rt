// The superblocks that may be picked, and the pick of one.
ghost use Rattle.std.specs.Prelude.{◌≡◌, ◌<◌, IsTrue, None, length};
ghost use Rattle.ssd_histories.specs.Blocks.{block_at, victim_in};
ghost use Rattle.ssd_histories.specs.States.{is_sealed};
ghost use Rattle.ssd_geo.specs.declared.kind.Kind.{Kind};
ghost use Rattle.chan_tables.specs.Collecting.{IsPickRoom};
ghost use Rattle.chan_tables.specs.TablesState.{tables_after, table_of, HasSpare};
ghost use Rattle.chan_tables.specs.declared.rooms.PickRoom.TheVariants as room;

use super::Tables;
use super::filling::candidate_count;
use crate::PickRoom;
use ssd_geo::{Kind, SbInfo, Tag};

impl Tables {
    /// Whether a superblock may be picked. Where some may be, it fills the table of the superblocks.
    pub fn pick_room(&self, infos: &mut [SbInfo]) -> PickRoom
        requires { length infos.old ≡ self.now.shape.superblocks }
        ensures value { IsPickRoom self.now result }
        ensures table { result ≡ room.Candidates → infos.new ≡ table_of self.now }
    {
        if let Some(sb) = self.blocks.victim() {
            return PickRoom::Busy { sb };
        }
        if self.blocks.free_count() == 0 {
            return PickRoom::ReadOnly;
        }
        self.fill_table(infos);
        if candidate_count(infos) == 0 {
            return PickRoom::NoGarbage;
        }
        PickRoom::Candidates
    }

    /// Makes a superblock the victim.
    pub fn picked(&mut self, tag: Tag, sb: u16)
        requires spare { HasSpare self.old }
        requires in_range { sb < self.old.shape.superblocks }
        requires sealed { IsTrue (is_sealed (block_at self.old.blocks sb).state) }
        requires no_victim { victim_in self.old.blocks ≡ None }
        ensures { self.new ≡ tables_after self.old tag (Kind.Pick sb) }
    {
        self.blocks.mark_victim(sb);
        self.add(tag, Kind::Pick { sb });
    }
}
