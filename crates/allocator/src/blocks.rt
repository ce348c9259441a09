ghost use Rattle.std.specs.Prelude.{◌≡◌, ◌<◌, ◌-◌, ◌^◌, ◌↔◌, IfSome, IsSome, IsTrue, None, Some, length, slice_set, true};
ghost use Rattle.allocator.specs.Superblocks.{MayBeOne};
ghost use Rattle.ssd_histories.specs.Blocks.{AreSound, block_at, free_blocks_in, frontier_of, is_due_block, is_frontier_block, is_victim_block, has_any_room, blocks_have_room, are_blocks_worn, left_in, next_slot_of, next_superblock, slots_left, victim_in, with_erased, with_next_used, with_retired, with_victim};
ghost use Rattle.ssd_histories.specs.States.{is_sealed};

use crate::room::{free_in, freshest, frontier_in, victim_in};
use crate::states::{
    erased_once, followed, is_free, is_frontier, is_victim, made_victim, recounted, retired,
    used_once,
};
use ssd_geo::{BlockBase, Items, Slot};
use std::marker::Model;

/// The superblocks of a channel. At most one is the frontier and at most one the victim, and each has as many slots
/// used as its state asks.
#[derive(Debug, Drop)]
pub struct Blocks {
    blocks: Vec<BlockBase>,
    slots: u32,
    frontier: Option<u16>,
    victim: Option<u16>,
    free: u16,
}

impl Model for Blocks {
    ghost use Rattle.allocator.specs.Superblocks.{AreKept, Superblocks};

    ghost Value = { Superblocks };

    ghost view = { λ a. record { blocks = a.blocks.items; slots = a.slots } };

    ghost invariant = { λ a. AreKept a.slots a.blocks.items a.frontier a.victim a.free };
}

impl Blocks {
    /// The superblocks of this list, in the order of their numbers, with so many data slots each.
    pub fn new(list: Vec<BlockBase>, slots: u32) -> Blocks
        requires { AreSound slots list.items }
        ensures { result ≡ record { blocks = list.items; slots = slots } }
    {
        let frontier = frontier_in(&list);
        let victim = victim_in(&list);
        let free = free_in(&list);
        Blocks {
            blocks: list,
            slots,
            frontier,
            victim,
            free,
        }
    }

    /// Whether the host may write: there are a frontier and a free superblock, or two free superblocks. Then there is
    /// a next slot, and a superblock stays free for copies.
    pub fn host_room(&self) -> bool
        ensures value { result ≡ blocks_have_room self.now.blocks }
        ensures any_room { IsTrue result → IsTrue (has_any_room self.now.blocks) }
    {
        self.frontier.is_some() && self.free >= 1 || self.free >= 2
    }

    /// Whether there is a next slot.
    pub fn any_room(&self) -> bool
        ensures { result ≡ has_any_room self.now.blocks }
    {
        self.next_superblock().is_some()
    }

    /// Whether no collection can make room, where the victim has so many live pages: no superblock is free, and there
    /// is no victim, or the frontier has fewer slots left.
    pub fn worn(&self, victim_live: u32) -> bool
        ensures { result ≡ are_blocks_worn self.now.slots self.now.blocks victim_live }
    {
        self.free == 0 && (self.victim.is_none() || self.left() < victim_live)
    }

    /// The next slot: the frontier's, or the first one of the free superblock with the least erase count.
    pub fn next_slot(&self) -> Option<Slot>
        ensures slot { result ≡ next_slot_of self.now.blocks }
        ensures any_room { IsSome result ↔ IsTrue (has_any_room self.now.blocks) }
        ensures in_range { IfSome result (λ slot. (slot.sb < length self.now.blocks) × (slot.index < self.now.slots)) }
        ensures sound { AreSound self.now.slots self.now.blocks }
    {
        match self.next_superblock() {
            Some(sb) => Some(Slot {
                sb,
                index: self.blocks[sb as usize].used,
            }),
            None => None,
        }
    }

    /// Uses the next slot. Its superblock is the frontier from then on, or sealed if it was the last slot.
    pub fn take_slot(&mut self) -> Slot
        requires { IsTrue (has_any_room self.old.blocks) }
        ensures slot { Some result ≡ next_slot_of self.old.blocks }
        ensures after { self.new ≡ record self.old { blocks = with_next_used self.old.slots self.old.blocks } }
    {
        let sb = self.next_superblock().unwrap();
        let block = self.blocks[sb as usize];
        self.replace(sb, used_once(block, self.slots));
        Slot {
            sb,
            index: block.used,
        }
    }

    /// Takes the superblock out of use for good, after a program or an erase failed in it. The victim then has no slot
    /// used; any other keeps its used slots, of which the slot that failed is none.
    pub fn retire(&mut self, sb: u16)
        requires { sb < length self.old.blocks }
        ensures { self.new ≡ record self.old { blocks = with_retired self.old.blocks sb } }
    {
        let block = self.blocks[sb as usize];
        self.replace(sb, retired(block));
    }

    /// Makes the superblock the victim.
    pub fn mark_victim(&mut self, sb: u16)
        requires in_range { sb < length self.old.blocks }
        requires sealed { IsTrue (is_sealed (block_at self.old.blocks sb).state) }
        requires no_victim { victim_in self.old.blocks ≡ None }
        ensures { self.new ≡ record self.old { blocks = with_victim self.old.blocks sb } }
    {
        let block = self.blocks[sb as usize];
        self.replace(sb, made_victim(block));
    }

    /// Frees the victim, which was erased once more, and answers it.
    pub fn erased(&mut self) -> u16
        requires victim { IsSome (victim_in self.old.blocks) }
        requires few_erases { IfSome (victim_in self.old.blocks) (λ sb. (block_at self.old.blocks sb).erases < 2 ^ 32 - 1) }
        ensures victim { victim_in self.old.blocks ≡ Some result }
        ensures after { self.new ≡ record self.old { blocks = with_erased self.old.blocks result } }
    {
        let sb = self.victim.unwrap();
        let block = self.blocks[sb as usize];
        self.replace(sb, erased_once(block));
        sb
    }

    /// The superblock with this number.
    pub fn block(&self, sb: u16) -> BlockBase
        requires { sb < length self.now.blocks }
        ensures value { result ≡ block_at self.now.blocks sb }
        ensures sound { AreSound self.now.slots self.now.blocks }
    {
        self.blocks[sb as usize]
    }

    /// The victim.
    pub fn victim(&self) -> Option<u16>
        ensures value { result ≡ victim_in self.now.blocks }
        ensures in_range { IfSome result (λ sb. sb < length self.now.blocks) }
    {
        self.victim
    }

    /// How many superblocks are free.
    pub fn free_count(&self) -> u16
        ensures { result ≡ free_blocks_in self.now.blocks }
    {
        self.free
    }

    /// Gives the superblocks back, in the order of their numbers.
    pub fn into_items(self) -> Items<BlockBase>
        ensures value { result ≡ self.blocks }
        ensures sound { AreSound self.slots self.blocks }
    {
        let Blocks { blocks, .. } = self;
        Items::new(blocks)
    }

    // Puts a superblock in the place of another, and keeps the frontier, the victim and the number of free ones.
    fn replace(&mut self, sb: u16, next: BlockBase)
        requires in_range { sb < length self.old.blocks }
        requires due { IsTrue (is_due_block self.old.slots next) }
        requires one_frontier { MayBeOne (is_frontier_block next) (is_frontier_block (block_at self.old.blocks sb))
            (frontier_of self.old.blocks) }
        requires one_victim { MayBeOne (is_victim_block next) (is_victim_block (block_at self.old.blocks sb))
            (victim_in self.old.blocks) }
        ensures { self.new ≡ record self.old { blocks = slice_set self.old.blocks sb next } }
    {
        let block = self.blocks[sb as usize];
        self.frontier = followed(self.frontier, sb, is_frontier(&block), is_frontier(&next));
        self.victim = followed(self.victim, sb, is_victim(&block), is_victim(&next));
        self.free = recounted(self.free, is_free(&block), is_free(&next));
        self.blocks[sb as usize] = next;
    }

    // The superblock of the next slot.
    fn next_superblock(&self) -> Option<u16>
        ensures value { result ≡ next_superblock self.now.blocks }
        ensures in_range { IfSome result (λ sb. sb < length self.now.blocks) }
        ensures room { IfSome result (λ sb. (block_at self.now.blocks sb).used < self.now.slots) }
        ensures one_frontier { IfSome result (λ sb.
            MayBeOne true (is_frontier_block (block_at self.now.blocks sb)) (frontier_of self.now.blocks)) }
    {
        match self.frontier {
            Some(sb) => Some(sb),
            None => freshest(&self.blocks),
        }
    }

    // How many slots the frontier has left.
    fn left(&self) -> u32
        ensures { result ≡ slots_left self.now.slots self.now.blocks }
    {
        match self.frontier {
            Some(sb) => self.slots - self.blocks[sb as usize].used,
            None => 0,
        }
    }
}
