ghost use Rattle.std.specs.Prelude.{◌≡◌, ◌<◌, IfOk, OnErr, OnOk, length, map};
ghost use Rattle.ssd_geo.specs.Cells.{sensed};
ghost use Rattle.ssd_geo.specs.Coding.{word_bytes_in};
ghost use Rattle.ssd_geo.specs.StripeLaws.{IsPlace, IsSlot};

use crate::erasing::erase_dies;
use crate::one_die::{age_block, sense_page};
use crate::programming::{is_open_after, program_dies};
use crate::{EraseEnd, ProgramEnd};
use die_parity::StripeSum;
use onfi_cmd::{Cycle, Die, DieFailed};
use ssd_geo::{Items, Memory, Place, Shape, Slot};
use std::alloc::Global;
use std::marker::Model;

/// The dies of a channel, and the running sum of its open stripe. All memory is taken at the beginning.
#[derive(Drop)]
pub struct Dies<D: Die> {
    shape: Shape,
    dies: Vec<D>,
    sum: StripeSum,
    // The cycles of one operation, with room for those of any.
    cycles: Vec<Cycle>,
}

impl<D: Die> Model for Dies<D> {
    ghost use Rattle.std.specs.Prelude.{◌≤◌, ◌+◌, map, vec_capacity};
    ghost use Rattle.chan_dies.specs.DiesState.{DiesState};
    ghost use Rattle.chan_dies.specs.Kept.{AreKept};

    ghost Value = { DiesState };

    ghost view = { λ a. record { shape = a.shape; dies = map D.state a.dies.items; sum = a.sum } };

    ghost invariant = { λ a. AreKept a.shape (map D.state a.dies.items) a.sum (vec_capacity a.cycles) };
}

impl<D: Die> Dies<D> {
    ghost use Rattle.chan_dies.specs.DiesState.{AreMounted, DiesState, levels_at};
    ghost use Rattle.chan_dies.specs.Erasing.{CanCountErases, ErasesBlocks};
    ghost use Rattle.chan_dies.specs.OneDie.{AgesBlock, ChangesOneDie, FaultsDie, KeepsDie};
    ghost use Rattle.chan_dies.specs.Programming.{HasNextPages, Programs};

    /// The dies of a channel, with the sum of a stripe's words so far. No later call takes memory.
    pub fn new(alloc: Global, dies: Vec<D>, shape: Shape, sum: Vec<u8>) -> Result<Dies<D>, Memory>
        requires mounted { AreMounted shape (map D.state dies.items) }
        requires sum { length sum.items ≡ word_bytes_in shape }
        ensures { IfOk result (λ held. held ≡ record { shape = shape; dies = map D.state dies.items; sum = sum.items }) }
    {
        let Ok(cycles) = Vec::with_capacity(alloc, shape.word_bytes() + 7) else {
            return Err(Memory);
        };
        Ok(Dies {
            shape,
            dies,
            sum: StripeSum::new(sum),
            cycles,
        })
    }

    /// The sizes of the drive.
    pub fn shape(&self) -> &Shape
        ensures shape { result.now ≡ self.now.shape }
        ensures mounted { AreMounted self.now.shape self.now.dies }
        ensures sum { length self.now.sum ≡ word_bytes_in self.now.shape }
    {
        &self.shape
    }

    /// Senses a page at a level.
    pub fn sense(&mut self, place: Place, level: i16, out: &mut [u8]) -> Result<(), DieFailed>
        requires place { IsPlace self.old.shape.dies self.old.shape.superblocks self.old.shape.pages place }
        requires word { length out.old ≡ word_bytes_in self.old.shape }
        ensures ok { OnOk result (ChangesOneDie place.die KeepsDie self.old self.new) }
        ensures bits { OnOk result (out.new ≡ sensed level (levels_at self.old.dies place)) }
        ensures err { OnErr result (ChangesOneDie place.die FaultsDie self.old self.new) }
        ensures out { OnErr result (out.new ≡ out.old) }
    {
        let die = &mut self.dies[place.die as usize];
        sense_page(die, &mut self.cycles, &self.shape, place, level, out)
    }

    /// Programs a word into the page of a slot, and with the last slot of a stripe the sum into the page of its parity.
    pub fn program(&mut self, slot: Slot, word: &[u8]) -> ProgramEnd
        requires slot { IsSlot self.old.shape.dies self.old.shape.superblocks self.old.shape.pages slot }
        requires next { HasNextPages self.old.shape slot self.old.dies }
        requires word { length word.now ≡ word_bytes_in self.old.shape }
        ensures { Programs self.old self.new slot word.now result }
    {
        self.sum.add(word);
        let end = program_dies(
            &mut self.dies,
            &mut self.cycles,
            &self.shape,
            slot,
            word,
            self.sum.bytes(),
        );
        if !is_open_after(&self.shape, slot, end) {
            self.sum.clear();
        }
        end
    }

    /// Erases the blocks of a superblock in the order of the dies, up to one that fails.
    pub fn erase(&mut self, sb: u16) -> EraseEnd
        requires superblock { sb < self.old.shape.superblocks }
        requires erases { CanCountErases self.old.shape.dies sb self.old.dies }
        ensures { ErasesBlocks self.old self.new sb result }
    {
        erase_dies(&mut self.dies, &mut self.cycles, &self.shape, sb)
    }

    /// Ages a block by an amount.
    pub fn age(&mut self, die: u8, sb: u16, amount: u16) -> Result<(), DieFailed>
        requires die { die < self.old.shape.dies }
        requires superblock { sb < self.old.shape.superblocks }
        ensures ok { OnOk result (ChangesOneDie die (AgesBlock sb amount) self.old self.new) }
        ensures err { OnErr result (ChangesOneDie die FaultsDie self.old self.new) }
    {
        let aged = &mut self.dies[die as usize];
        age_block(aged, sb, amount)
    }

    /// Gives the dies and the running sum back.
    pub fn into_parts(self) -> (Vec<D>, Items<u8>)
        ensures dies { map D.state result.0.items ≡ self.dies }
        ensures mounted { AreMounted self.shape self.dies }
        ensures sum { result.1 ≡ self.sum }
        ensures sum_bytes { length self.sum ≡ word_bytes_in self.shape }
    {
        let Dies { dies, sum, .. } = self;
        (dies, Items::new(sum.into_bytes()))
    }
}
