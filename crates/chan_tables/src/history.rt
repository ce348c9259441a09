// The history of a channel, with the memory for entries that are to come.
ghost use Rattle.std.specs.Prelude.{◌≡◌, ◌+◌, ◌^◌, ◌<◌, ◌≤◌, ◌∷◌, [], OnOk, length};
ghost use Rattle.ssd_histories.specs.History.{history_of};
ghost use Rattle.chan_tables.specs.TablesState.{IsStopped};

use ssd_geo::{Entry, Items, Memory, StepStop};
use std::alloc::Global;
use std::marker::Model;

/// The entries of a channel, with their limit. Contracts see them newest entry first.
#[derive(Drop)]
pub(crate) struct History {
    entries: Vec<Entry>,
    limit: u32,
}

impl Model for History {
    ghost use Rattle.std.specs.Prelude.{◌≤◌, ◌<◌, ◌^◌, length, vec_capacity};
    ghost use Rattle.ssd_histories.specs.History.{past_of};
    ghost use Rattle.chan_tables.specs.TablesState.{HistoryState};

    ghost Value = { HistoryState };

    ghost view = { λ a. record { past = past_of a.entries.items; limit = a.limit; room = vec_capacity a.entries } };

    ghost invariant = { λ a. (length a.entries.items ≤ a.limit) × (a.limit < 2 ^ 32) };
}

impl History {
    /// No entry.
    pub(crate) fn new(alloc: Global, limit: u32) -> History
        ensures past { result.past ≡ [] }
        ensures limit { result.limit ≡ limit }
    {
        History {
            entries: Vec::new(alloc),
            limit,
        }
    }

    /// How many entries it has.
    pub(crate) fn length(&self) -> u32
        ensures value { result ≡ length self.now.past }
        ensures limit { length self.now.past ≤ self.now.limit }
        ensures bound { self.now.limit < 2 ^ 32 }
    {
        self.entries.len() as u32
    }

    /// Whether the limit allows so many more entries.
    pub(crate) fn allow(&self, needed: u64) -> Result<(), StepStop>
        ensures { IsStopped (length self.now.past + needed ≤ self.now.limit) (length self.now.past) result }
    {
        let length = self.entries.len();
        if needed > self.limit as u64 - length as u64 {
            return Err(StepStop::HistoryFull {
                length: length as u32,
            });
        }
        Ok(())
    }

    /// Takes memory for so many more entries, where the limit allows them.
    pub(crate) fn make_room(&mut self, needed: u64) -> Result<(), StepStop>
        ensures room { IsStopped (length self.old.past + needed ≤ self.old.limit) (length self.old.past) result }
        ensures made { OnOk result (length self.old.past + needed ≤ self.new.room) }
        ensures grows { self.old.room ≤ self.new.room }
        ensures same { self.new ≡ record self.old { room = self.new.room } }
    {
        self.allow(needed)?;
        match self.entries.reserve(needed as usize) {
            Ok(()) => Ok(()),
            Err(_) => Err(StepStop::Memory),
        }
    }

    /// Adds an entry, for which memory was taken.
    pub(crate) fn push(&mut self, entry: Entry)
        requires room { length self.old.past < self.old.room }
        requires limit { length self.old.past < self.old.limit }
        ensures { self.new ≡ record self.old { past = entry ∷ self.old.past } }
    {
        self.entries.push_reserved(entry);
    }

    /// The entries, oldest first.
    pub(crate) fn entries(&self) -> &[Entry]
        ensures { result.now ≡ history_of self.now.past }
    {
        &self.entries
    }

    /// Gives the entries back, oldest first.
    pub(crate) fn into_items(self) -> Items<Entry>
        ensures { result ≡ history_of self.past }
    {
        let History { entries, .. } = self;
        Items::new(entries)
    }
}
