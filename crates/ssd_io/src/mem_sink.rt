// A sink in memory with room for so many bytes, whose listed calls fail.
ghost use Rattle.std.specs.Prelude.{◌≡◌, ◌-◌, ◌<◌, [], length, min, is_err, Some, IfOk};
ghost use Rattle.std.specs.Io.KnownBytes.{WriteAppends};
ghost use Rattle.ssd_io.specs.FaultCounts.{MatchesCount};
ghost use Rattle.ssd_io.specs.ListedCalls.{no_calls};
ghost use Rattle.ssd_io.specs.Pieces.{TakesSome};
ghost use Rattle.ssd_io.specs.MemSink.{is_next_refused, sink_after};

use crate::listed_calls::ListedCalls;
use crate::{Failed, Sink};
use ssd_geo::Memory;
use std::alloc::Global;
use std::marker::Model;

/// Bytes in memory, with room for so many. The calls whose number, counted from 1, is listed fail, and those that
/// find no room; they change nothing but the counts. Contracts see it as `MemSinkView`.
#[derive(Drop)]
pub struct MemSink {
    bytes: Vec<u8>,
    room: usize,
    calls: ListedCalls,
}

impl Model for MemSink {
    ghost use Rattle.std.specs.Prelude.{◌≤◌, vec_len, vec_capacity};
    ghost use Rattle.ssd_io.specs.MemSink.{MemSinkView};

    ghost Value = { MemSinkView };

    ghost view = { λ s. record { written = s.bytes.items; room = s.room; calls = s.calls } };

    ghost invariant = { λ s. (vec_len s.bytes ≤ s.room) × (s.room ≤ vec_capacity s.bytes) };
}

impl MemSink {
    /// Takes the memory for the room. The lists that it was given are dropped where there is none.
    pub fn new(alloc: Global, failing: Vec<u64>, room: usize) -> Result<MemSink, Memory>
        ensures written { IfOk result (λ sink. sink.written ≡ []) }
        ensures room { IfOk result (λ sink. sink.room ≡ room) }
        ensures calls { IfOk result (λ sink. sink.calls ≡ no_calls failing.items) }
    {
        let bytes = Vec::with_capacity(alloc, room).map_err(|_| Memory)?;
        Ok(MemSink {
            bytes,
            room,
            calls: ListedCalls::new(failing),
        })
    }

    /// What was written.
    pub fn bytes(&self) -> &[u8]
        ensures { result.now ≡ self.now.written }
    {
        &self.bytes
    }
}

impl Sink for MemSink {
    ghost written = { λ s. Some s.written };

    ghost faults = { λ s. s.calls.faults };

    fn write(&mut self, piece: &[u8]) -> Result<usize, Failed>
        requires { 0 < length piece.now }
        ensures bound { TakesSome result piece.now }
        ensures bytes { WriteAppends (Some self.old.written) (Some self.new.written) result piece.now }
        ensures cause { MatchesCount self.old.calls.faults self.new.calls.faults result }

        // Which calls fail, and how much the others take.
        ensures fails { is_err result ≡ is_next_refused self.old }
        ensures count { let left = self.old.room - length self.old.written in
            IfOk result (λ n. n ≡ min (length piece.now) left) }
        ensures after { self.new ≡ sink_after self.old piece.now }
    {
        let left = self.room - self.bytes.len();
        self.calls.count(left == 0)?;
        let taken = piece.len().min(left);
        self.bytes.extend_from_slice(&piece[..taken]).unwrap();
        Ok(taken)
    }
}
