// The erase of the victim.
ghost use Rattle.std.specs.Prelude.{◌≡◌, ◌<◌, ◌↔◌, IsTrue, Some, length};
ghost use Rattle.ssd_histories.specs.Blocks.{victim_in};
ghost use Rattle.ssd_geo.specs.declared.kind.Kind.{Kind};
ghost use Rattle.chan_tables.specs.Collecting.{MayErase, IsEraseRoom};
ghost use Rattle.chan_tables.specs.TablesState.{tables_after, HasSpare};
ghost use Rattle.chan_tables.specs.declared.rooms.EraseRoom.TheVariants as erase;

use super::Tables;
use crate::EraseRoom;
use allocator::Blocks;
use block_pins::Pins;
use map_rows::Rows;
use ssd_geo::{Entry, Kind, Tag};

impl Tables {
    /// Whether the superblock may be erased.
    pub fn erase_room(&self, sb: u16) -> EraseRoom
        ensures value { IsEraseRoom self.now.blocks self.now.rows self.now.looks sb result }
        ensures in_range { result ≡ erase.May → sb < self.now.shape.superblocks }
    {
        room_to_erase(&self.rows, &self.blocks, &self.looks, sb)
    }

    /// Frees the superblock, which was erased once more.
    pub fn erased(&mut self, tag: Tag, sb: u16)
        requires spare { HasSpare self.old }
        requires may { MayErase self.old.blocks self.old.rows self.old.looks sb }
        ensures { self.new ≡ tables_after self.old tag (Kind.Erase sb) }
    {
        let _ = self.blocks.erased();
        self.history.push(Entry {
            tag,
            kind: Kind::Erase { sb },
        });
    }

    /// Takes the superblock out of use, after its erase failed.
    pub fn bad_erased(&mut self, tag: Tag, sb: u16, die: u8, fault: bool)
        requires spare { HasSpare self.old }
        requires may { MayErase self.old.blocks self.old.rows self.old.looks sb }
        ensures { self.new ≡ tables_after self.old tag (Kind.BadErase sb die fault) }
    {
        self.blocks.retire(sb);
        self.add(tag, Kind::BadErase { sb, die, fault });
    }
}

// Whether the superblock may be erased, by the parts of the tables.
fn room_to_erase(rows: &Rows, blocks: &Blocks, looks: &Pins, sb: u16) -> EraseRoom
    requires { rows.now.superblocks ≡ length blocks.now.blocks }
    ensures value { IsEraseRoom blocks.now.blocks rows.now.rows looks.now sb result }
    ensures in_range { result ≡ erase.May → sb < length blocks.now.blocks }
{
    if !is_victim(blocks, sb) {
        return EraseRoom::NotVictim;
    }
    let live = rows.live(sb);
    if live > 0 {
        return EraseRoom::Live { count: live };
    }
    match looks.count(sb) {
        0 => EraseRoom::May,
        count => EraseRoom::Pinned { count },
    }
}

// Whether the superblock is the victim.
pub(super) fn is_victim(blocks: &Blocks, sb: u16) -> bool
    ensures exact { IsTrue result ↔ victim_in blocks.now.blocks ≡ Some sb }
    ensures in_range { IsTrue result → sb < length blocks.now.blocks }
{
    blocks.victim() == Some(sb)
}
