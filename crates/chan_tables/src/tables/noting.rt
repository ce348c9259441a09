// What a note tells.
ghost use Rattle.std.specs.Prelude.{◌≡◌, ◌+◌, ◌<◌, ◌≤◌, IfOk, IfSome, OnErr, length};
ghost use Rattle.ssd_geo.specs.Superblock.{slots_of};
ghost use Rattle.chan_tables.specs.Noting.{pins_in_victim, note_of, kind_of_note};
ghost use Rattle.chan_tables.specs.TablesState.{tables_after, IsStopped, room_of_step};

use super::Tables;
use super::filling::candidate_count;
use super::moving::victim_live;
use crate::Note;
use allocator::Blocks;
use block_pins::Pins;
use ssd_geo::{Kind, SbInfo, StepStop, Tag};

impl Tables {
    /// Tells how full the channel is. It fills the table of the superblocks.
    pub fn noted(&mut self, tag: Tag, infos: &mut [SbInfo]) -> Result<Note, StepStop>
        requires { length infos.old ≡ self.old.shape.superblocks }
        ensures room { IsStopped (length self.old.past + room_of_step self.old.looks ≤ self.old.limit)
            (length self.old.past) result }
        ensures value { IfOk result (λ note. let slots = slots_of self.old.shape.pages self.old.shape.dies in
            note ≡ note_of slots self.old.blocks self.old.rows self.old.looks) }
        ensures in_range { IfOk result (λ note. IfSome note.victim (λ sb. sb < self.old.shape.superblocks)) }
        ensures ok { IfOk result (λ note.
            self.new ≡ tables_after (record self.old { room = self.new.room }) tag (kind_of_note note)) }
        ensures err { OnErr result (self.new ≡ record self.old { room = self.new.room }) }
    {
        self.make_room()?;
        let note = self.note(infos);
        self.add(tag, kind_of(&note));
        Ok(note)
    }

    // What a note tells.
    fn note(&self, infos: &mut [SbInfo]) -> Note
        requires { length infos.old ≡ self.now.shape.superblocks }
        ensures value { let slots = slots_of self.now.shape.pages self.now.shape.dies in
            result ≡ note_of slots self.now.blocks self.now.rows self.now.looks }
        ensures in_range { IfSome result.victim (λ sb. sb < self.now.shape.superblocks) }
    {
        self.fill_table(infos);
        Note {
            free: self.blocks.free_count(),
            victim: self.blocks.victim(),
            live: victim_live(&self.rows, &self.blocks),
            pins: victim_pins(&self.looks, &self.blocks),
            garbage: candidate_count(infos),
        }
    }
}

// How many open looks stand in the victim: 0 without one.
fn victim_pins(looks: &Pins, blocks: &Blocks) -> u32
    ensures { result ≡ pins_in_victim blocks.now.blocks looks.now }
{
    match blocks.victim() {
        Some(sb) => looks.count(sb),
        None => 0,
    }
}

// The entry of a note.
fn kind_of(note: &Note) -> Kind
    ensures { result ≡ kind_of_note note.now }
{
    Kind::Note {
        free: note.free,
        victim: note.victim,
        live: note.live,
        pins: note.pins,
        garbage: note.garbage,
    }
}
