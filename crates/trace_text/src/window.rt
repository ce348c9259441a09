// The bytes that were read from the source and not taken yet.
ghost use Rattle.std.specs.Prelude.{◌≡◌, ◌≤◌, length, position};
ghost use Rattle.ssd_formats.specs.Lines.{is_line_feed};

use crate::fault::LineStop;
use ssd_io::{Failed, Source};
use std::alloc::Global;

/// How many bytes a window has room for: more than the longest line.
const ROOM: usize = 65536;

/// A line with so many bytes before its LF is too long, whether or not the last of them is a CR.
const LONGEST: usize = 40001;

/// What was found in the bytes that are left.
#[derive(Clone, Copy)]
pub enum Found {
    /// The first LF, with so many bytes before it.
    Feed { at: usize },

    /// No LF, and the source is at its end.
    End,

    /// No LF, and more bytes than a line may have.
    Long,
}

/// A part of the bytes of a source, in a buffer.
#[derive(Drop)]
pub struct Window {
    bytes: Vec<u8>,
    from: usize,
    to: usize,
    ghost order: { from ≤ to },
    ghost within: { to ≤ length bytes.items },
    ghost room: { length bytes.items ≡ 65536 },
}

impl Window {
    ghost use Rattle.std.specs.Prelude.{◌<◌, [], IfOk, drop};
    ghost use Rattle.ssd_io.specs.FaultCounts.{MatchesCount};
    ghost use Rattle.trace_text.specs.BytesAhead.{Fetches, Seeks};
    ghost use Rattle.trace_text.specs.Windows.{held, room};

    pub fn new(alloc: Global) -> Result<Window, LineStop>
        ensures { IfOk result (λ w. held w ≡ []) }
    {
        let Ok(bytes) = vec![in alloc; 0; ROOM] else {
            return Err(LineStop::Memory);
        };
        Ok(Window {
            bytes,
            from: 0,
            to: 0,
        })
    }

    /// The bytes.
    pub fn bytes(&self) -> &[u8]
        ensures { result.now ≡ held self.now }
    {
        &self.bytes[self.from..self.to]
    }

    /// Takes so many bytes off the front.
    pub fn skip(&mut self, count: usize)
        requires { count ≤ length (held self.old) }
        ensures { held self.new ≡ drop count (held self.old) }
    {
        self.from += count;
    }

    // Moves the bytes to the front of the buffer.
    #[tactic(auto, using(crate::proofs::HeldBytes::moved_to_front))]
    fn move_to_front(&mut self)
        ensures bytes { held self.new ≡ held self.old }
        ensures front { self.new.from ≡ 0 }
    {
        let held = self.to - self.from;
        self.bytes.copy_within(self.from..self.to, 0);
        self.from = 0;
        self.to = held;
    }

    // Sees that there is room behind the bytes.
    fn make_room(&mut self)
        requires { length (held self.old) < room }
        ensures bytes { held self.new ≡ held self.old }
        ensures room { self.new.to < room }
    {
        if self.to == self.bytes.len() {
            self.move_to_front();
        }
    }

    // Reads some bytes more, behind those that are there; none only at the end.
    fn fetch<S: Source>(&mut self, input: &mut S) -> Result<usize, Failed>
        requires room { length (held self.old) < room }
        ensures bytes { IfOk result (λ n. Fetches n (held self.old) (held self.new) (S.left input.old) (S.left input.new)) }
        ensures cause { MatchesCount (S.faults input.old) (S.faults input.new) result }
    {
        self.make_room();
        let given = input.read(&mut self.bytes[self.to..])?;
        self.to += given;
        Ok(given)
    }

    // The first LF at a place or behind it.
    fn feed_from(&self, looked: usize) -> Option<usize>
        requires { looked ≤ length (held self.now) }
        ensures { result ≡ position is_line_feed (drop looked (held self.now)) }
    {
        first_feed(&self.bytes()[looked..])
    }

    /// Reads on until there is an LF, or the source is at its end, or there are more bytes than a line may have.
    pub fn seek<S: Source>(&mut self, input: &mut S) -> Result<Found, Failed>
        ensures found { IfOk result (λ found. Seeks found (held self.old) (held self.new) (S.left input.old) (S.left input.new)) }
        ensures cause { MatchesCount (S.faults input.old) (S.faults input.new) result }
    {
        let mut looked = 0;
        'reading: loop {
            if let Some(at) = self.feed_from(looked) {
                return Ok(Found::Feed { at: looked + at });
            }
            looked = self.bytes().len();
            if looked > LONGEST {
                return Ok(Found::Long);
            }
            if self.fetch(input)? == 0 {
                return Ok(Found::End);
            }
        }
    }
}

fn first_feed(bytes: &[u8]) -> Option<usize>
    ensures { result ≡ position is_line_feed bytes.now }
{
    bytes.iter().position(|byte| *byte == b'\n')
}
