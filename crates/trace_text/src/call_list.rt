// The calls so far, and what their limits are tested by.
ghost use Rattle.std.specs.Prelude.{◌≡◌, ◌+◌, ◌<◌, if◌then◌else◌, [], OnOk, count_by, length};
ghost use Rattle.ssd_formats.specs.TraceText.{is_read_call, is_read_verb, most_calls};
ghost use Rattle.trace_text.specs.CallSteps.{Adds, has_room_for, with_call};

use crate::fault::{LineStop, TraceFault};
use ssd_geo::{Items, Memory, Tag, TraceCall, Verb};
use std::alloc::Global;
use std::marker::Model;

/// The most calls of a trace.
const MOST_CALLS: usize = 1 << 20;

/// The most bytes that the reads of a trace may give.
const MOST_BYTES_READ: u64 = 1 << 30;

/// The calls of a trace so far, of at most 32 actors. Contracts see their list.
#[derive(Drop)]
pub struct CallList {
    calls: Vec<TraceCall>,
    counts: [u32; 32],
    reads: u32,
}

impl Model for CallList {
    ghost use Rattle.std.specs.Prelude.{◌≡◌, ℕ, ◌<◌, ◌≤◌, List, length, slice_index, count_by};
    ghost use Rattle.ssd_formats.specs.TraceText.{is_of_actor, is_read_call, most_calls};
    ghost use Rattle.ssd_geo.specs.declared.trace.TraceCall.{TraceCall};

    ghost Value = { List TraceCall };

    ghost view = { λ c. c.calls.items };

    ghost invariant = { λ c. (length c.calls.items ≤ most_calls)
        × (c.reads ≡ count_by is_read_call c.calls.items)
        × ((k : ℕ) → k < 32 → slice_index c.counts k ≡ count_by (is_of_actor k) c.calls.items) };
}

impl CallList {
    pub fn new(alloc: Global) -> CallList
        ensures { result ≡ [] }
    {
        CallList {
            calls: Vec::new(alloc),
            counts: [0; 32],
            reads: 0,
        }
    }

    // The reads, with a verb's.
    fn reads_with(&self, verb: &Verb) -> u32
        ensures { result ≡ count_by is_read_call self.now + (if is_read_verb verb.now then 1 else 0) }
    {
        match verb {
            Verb::Read { .. } => self.reads + 1,
            _ => self.reads,
        }
    }

    // Whether the limits are kept with one more call.
    fn has_room(&self, bytes: u32, verb: &Verb) -> bool
        ensures { result ≡ has_room_for bytes self.now verb.now }
    {
        let bytes_read = u64::from(self.reads_with(verb)) * u64::from(bytes);
        self.calls.len() < MOST_CALLS && bytes_read <= MOST_BYTES_READ
    }

    /// Adds a call of an actor after the others, on a drive with so many data bytes a page.
    pub fn add(&mut self, bytes: u32, actor: u8, verb: Verb) -> Result<(), LineStop>
        requires { actor < 32 }
        ensures { Adds result bytes self.old self.new actor verb }
    {
        if !self.has_room(bytes, &verb) {
            return Err(LineStop::Fault {
                fault: TraceFault::Long,
            });
        }
        self.add_within(actor, verb).map_err(|_| LineStop::Memory)
    }

    // Adds a call where the limits are kept.
    fn add_within(&mut self, actor: u8, verb: Verb) -> Result<(), Memory>
        requires actor { actor < 32 }
        requires few { length self.old < most_calls }
        ensures { OnOk result (self.new ≡ with_call self.old actor verb) }
    {
        let call = self.counts[actor as usize];
        let reads = self.reads_with(&verb);
        let tag = Tag { actor, call };
        let Ok(()) = self.calls.push(TraceCall { tag, verb }) else {
            return Err(Memory);
        };
        self.counts[actor as usize] = call + 1;
        self.reads = reads;
        Ok(())
    }

    /// The calls.
    pub fn into_items(self) -> Items<TraceCall>
        ensures { result ≡ self }
    {
        let CallList { calls, .. } = self;
        Items::new(calls)
    }
}
