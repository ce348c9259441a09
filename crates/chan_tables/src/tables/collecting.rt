// The victim's live pages.
ghost use Rattle.std.specs.Prelude.{◌≡◌, ◌+◌, ◌<◌, ◌≤◌, ◌↔◌, IfOk, IfSome, IsNone, None, OnErr, length};
ghost use Rattle.ssd_histories.specs.OpenLooks.{look_at};
ghost use Rattle.ssd_histories.specs.PageMap.{row_at, live_in};
ghost use Rattle.chan_tables.specs.Collecting.{NamesFirstLive, LooksLiveIn};
ghost use Rattle.chan_tables.specs.TablesState.{IsStopped, room_of_look};

use super::erasing::is_victim;
use super::{Tables, look_room, step_room};
use crate::{LiveAnswer, LookAnswer};
use allocator::Blocks;
use block_pins::Pins;
use map_rows::Rows;
use ssd_geo::{Entry, Kind, StepStop, Tag};

impl Tables {
    /// Looks at the live page of least index in the victim.
    pub fn look_live(&mut self, tag: Tag, sb: u16) -> Result<LiveAnswer, StepStop>
        ensures room { IsStopped (length self.old.past + room_of_look self.old.looks ≤ self.old.limit)
            (length self.old.past) result }
        ensures ok { IfOk result (λ answer. LooksLiveIn self.old self.new tag sb answer) }
        ensures is_first { look_at self.old.looks (length self.old.past) ≡ None }
        ensures err { OnErr result (self.new ≡ record self.old { room = self.new.room }) }
    {
        self.history.allow(look_room(&self.looks))?;
        if !is_victim(&self.blocks, sb) {
            return Ok(LiveAnswer::NotVictim);
        }
        let Some(row) = first_live_row(&self.rows, sb) else {
            return Ok(LiveAnswer::NoneLive);
        };
        match self.look(tag, row)? {
            LookAnswer::Found(look) => Ok(LiveAnswer::Found(look)),
            _ => unreachable!(),
        }
    }
}

// The row that names the live slot of least index in the superblock.
fn first_live_row(rows: &Rows, sb: u16) -> Option<u32>
    requires { sb < rows.now.superblocks }
    ensures none { IsNone result ↔ live_in rows.now.rows sb ≡ 0 }
    ensures in_range { IfSome result (λ row. row < length rows.now.rows) }
    ensures named { IfSome result (λ row. NamesFirstLive rows.now.rows sb (row_at rows.now.rows row)) }
{
    let slot = rows.first_live(sb)?;
    rows.owner(slot)
}
