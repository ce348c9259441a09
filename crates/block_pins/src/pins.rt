ghost use Rattle.std.specs.Prelude.{◌≡◌, [], ◌∷◌, ◌++◌, ◌<◌, ◌^◌, IfOk, if◌then◌else◌, is_ok, length, position};
ghost use Rattle.ssd_histories.specs.OpenLooks.{began_at, look_at, looks_in, without_look};

use ssd_geo::{Look, Memory, Tag};
use std::alloc::Global;
use std::marker::Model;

/// The open looks, each with its call, in the order in which they were pinned. There are fewer than 2^32.
#[derive(Debug, Drop)]
pub struct Pins {
    pins: Vec<(Tag, Look)>,
}

impl Model for Pins {
    ghost use Rattle.std.specs.Prelude.{◌<◌, ◌^◌, List, length};
    ghost use Rattle.ssd_geo.specs.declared.look.Look.{Look};
    ghost use Rattle.ssd_geo.specs.declared.tag.Tag.{Tag};

    ghost Value = { List (Tag × Look) };

    ghost view = { λ a. a.pins.items };

    ghost invariant = { λ a. length a.pins.items < 2 ^ 32 };
}

impl Pins {
    /// No open look, with room for one in each superblock.
    pub fn new(alloc: Global, superblocks: u16) -> Result<Pins, Memory>
        ensures { IfOk result (λ pins. pins ≡ []) }
    {
        match Vec::with_capacity(alloc, superblocks as usize) {
            Ok(pins) => Ok(Pins { pins }),
            Err(_) => Err(Memory),
        }
    }

    /// Opens a look of a call. A look that isn't pinned for want of memory leaves the others as they were.
    pub fn pin(&mut self, tag: Tag, look: Look) -> Result<(), Memory>
        ensures { self.new ≡ (if is_ok result then self.old ++ (tag, look) ∷ [] else self.old) }
    {
        // The number of open looks stays one that `total` can answer.
        if self.pins.len() >= u32::MAX as usize {
            return Err(Memory);
        }
        match self.pins.push((tag, look)) {
            Ok(()) => Ok(()),
            Err(_) => Err(Memory),
        }
    }

    /// The open look that began at the position, with its call.
    pub fn find(&self, at: u32) -> Option<(Tag, Look)>
        ensures { result ≡ look_at self.now at }
    {
        match place_of(&self.pins, at) {
            Some(place) => Some(self.pins[place]),
            None => None,
        }
    }

    /// Closes the look that began at the position, and answers it with its call.
    pub fn unpin(&mut self, at: u32) -> Option<(Tag, Look)>
        ensures value { result ≡ look_at self.old at }
        ensures after { self.new ≡ without_look self.old at }
    {
        match place_of(&self.pins, at) {
            Some(place) => Some(self.pins.remove(place)),
            None => None,
        }
    }

    /// How many open looks stand in the superblock.
    pub fn count(&self, sb: u16) -> u32
        ensures { result ≡ looks_in self.now sb }
    {
        self.pins.iter().filter(|pin| pin.1.slot.sb == sb).count() as u32
    }

    /// The open looks, each with its call.
    pub fn looks(&self) -> &[(Tag, Look)]
        ensures value { result.now ≡ self.now }
        ensures few { length self.now < 2 ^ 32 }
    {
        &self.pins
    }

    /// How many looks are open.
    pub fn total(&self) -> u32
        ensures { result ≡ length self.now }
    {
        self.pins.len() as u32
    }
}

// Where the look that began at the position stands among the open ones.
fn place_of(pins: &[(Tag, Look)], at: u32) -> Option<usize>
    ensures { result ≡ position (began_at at) pins.now }
{
    pins.iter().position(|pin| pin.1.at == at)
}
