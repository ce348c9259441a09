// The lines of a trace, one after the other.
ghost use Rattle.std.specs.Prelude.{◌≡◌, ◌^◌, ◌≤◌, length, take};
ghost use Rattle.std.specs.Str.Lines.{strip_carriage_return};
ghost use Rattle.trace_text.specs.Windows.{held};

use crate::fault::{LineStop, TraceFault};
use crate::window::{Found, Window};
use image_file::ReadStop;
use ssd_io::{Failed, Source};
use std::alloc::Global;

/// The most bytes of a line.
const MOST_LINE_BYTES: usize = 40000;

/// The most bytes of a trace.
const MOST_TRACE_BYTES: u64 = 1 << 26;

/// How a read of a line ended.
#[derive(Clone, Copy)]
pub enum Ahead {
    /// The line was taken.
    Line,

    /// There is no line left.
    End,

    /// The line has too many bytes.
    Long,
}

/// The lines of a source that were taken, the last of which is held.
#[derive(Drop)]
pub struct LineReader {
    window: Window,
    text: usize,
    line: usize,
    number: u64,
    taken: u64,
    ghost within_line: { text ≤ line },
    ghost within_window: { line ≤ length (held window) },
    ghost few: { number ≤ taken },
    ghost short: { taken ≤ 2 ^ 27 },
}

impl LineReader {
    ghost use Rattle.std.specs.Prelude.{◌<◌, IfOk};
    ghost use Rattle.ssd_formats.specs.Lines.{is_skipped as is_skipped_text};
    ghost use Rattle.ssd_io.specs.FaultCounts.{MatchesCount};
    ghost use Rattle.image_file.specs.StopCauses.{StopsWithCause};
    ghost use Rattle.trace_text.specs.DueLines.{FindsDue, long_in_line, ReadsShort};
    ghost use Rattle.trace_text.specs.ReadLines.{IsAtStart, Leaves, ReadsLine, Takes, text_of};

    /// No line was taken.
    pub fn new(alloc: Global) -> Result<LineReader, LineStop>
        ensures { IfOk result IsAtStart }
    {
        let window = Window::new(alloc)?;
        Ok(LineReader {
            window,
            text: 0,
            line: 0,
            number: 0,
            taken: 0,
        })
    }

    /// The text of the line that was taken.
    pub fn text(&self) -> &[u8]
        ensures { result.now ≡ text_of self.now }
    {
        &self.window.bytes()[..self.text]
    }

    /// The number of the line that was taken.
    pub fn number(&self) -> u64
        ensures { result ≡ self.now.number }
    {
        self.number
    }

    // Takes the line of so many bytes at the front, of which these are its text.
    fn take(&mut self, text: usize, line: usize)
        requires text { text ≤ line }
        requires line { line ≤ length (held self.old.window) }
        requires short { self.old.taken ≤ 2 ^ 26 }
        requires some { 0 < line }
        ensures { Takes self.old self.new text line }
    {
        self.line = line;
        self.text = text;
        self.taken += line as u64;
        self.number += 1;
    }

    // Leaves the line that was taken.
    fn leave(&mut self)
        ensures { Leaves self.old self.new }
    {
        let line = self.line;
        self.text = 0;
        self.line = 0;
        self.window.skip(line);
    }

    // Takes the next line.
    fn read_line<S: Source>(&mut self, input: &mut S) -> Result<Ahead, Failed>
        requires { self.old.taken ≤ 2 ^ 26 }
        ensures read { IfOk result (λ ahead. ReadsLine ahead self.old self.new (S.left input.old) (S.left input.new)) }
        ensures cause { MatchesCount (S.faults input.old) (S.faults input.new) result }
    {
        self.leave();
        match self.window.seek(input)? {
            Found::Feed { at } => {
                let text = without_return(&self.window.bytes()[..at]);
                self.take(text, at + 1);
                Ok(Ahead::Line)
            }
            Found::End => {
                let rest = self.window.bytes().len();
                if rest == 0 {
                    return Ok(Ahead::End);
                }
                self.take(rest, rest);
                Ok(Ahead::Line)
            }
            Found::Long => Ok(Ahead::Long),
        }
    }

    fn long_at(line: u64) -> ReadStop<TraceFault>
        ensures { result ≡ long_in_line line }
    {
        ReadStop::Fault {
            at: line,
            fault: TraceFault::Long,
        }
    }

    // Takes the next line, if it isn't too long; false where there is none.
    fn read_short<S: Source>(&mut self, input: &mut S) -> Result<bool, ReadStop<TraceFault>>
        requires { self.old.taken ≤ 2 ^ 26 }
        ensures read { ReadsShort result self.old self.new (S.left input.old) (S.left input.new) }
        ensures cause { StopsWithCause (S.faults input.old) (S.faults input.new) result }
    {
        match self.read_line(input) {
            Err(Failed) => Err(ReadStop::ReadFault),
            Ok(Ahead::End) => Ok(false),
            Ok(Ahead::Long) => Err(Self::long_at(self.number + 1)),
            Ok(Ahead::Line) => {
                if self.text > MOST_LINE_BYTES || self.taken > MOST_TRACE_BYTES {
                    return Err(Self::long_at(self.number));
                }
                Ok(true)
            }
        }
    }

    fn is_skipped(&self) -> bool
        ensures { result ≡ is_skipped_text (text_of self.now) }
    {
        match self.text() {
            [] => true,
            [first, ..] => *first == b'#',
        }
    }

    /// Takes the lines up to the next one that isn't skipped; false where there is none.
    pub fn next_due<S: Source>(&mut self, input: &mut S) -> Result<bool, ReadStop<TraceFault>>
        requires { self.old.taken ≤ 2 ^ 26 }
        ensures due { FindsDue result self.old self.new (S.left input.old) (S.left input.new) }
        ensures cause { StopsWithCause (S.faults input.old) (S.faults input.new) result }
    {
        'reading: while self.read_short(input)? {
            if !self.is_skipped() {
                return Ok(true);
            }
        }
        Ok(false)
    }
}

// How many bytes a line has before the CR at its end, or all where there is none.
fn without_return(line: &[u8]) -> usize
    ensures within { result ≤ length line.now }
    ensures text { take result line.now ≡ strip_carriage_return line.now }
{
    match line {
        [.., b'\r'] => line.len() - 1,
        _ => line.len(),
    }
}
