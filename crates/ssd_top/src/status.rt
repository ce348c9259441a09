ghost use Rattle.std.specs.Prelude.{◌≡◌, ◌∷◌, [], ◌++◌, codes, decimal, is_ok, if◌then◌else◌, length, take, OnErr, OnOk};
ghost use Rattle.ssd_formats.specs.InputFaults.{image_fault_word, trace_fault_word};
ghost use Rattle.image_file.specs.Gives.{named_fault as image_fault};
ghost use Rattle.trace_text.specs.Answers.{named_fault as trace_fault};
ghost use Rattle.ssd_top.specs.Statuses.{status_number, text_of_status};

use image_file::ImageFault;
use itoa::Buffer;
use ssd_geo::Memory;
use std::alloc::AllocError;
use trace_text::TraceFault;

/// How a top call ended.
#[derive(Clone, Copy, Debug, PartialEq, Eq)]
pub enum Status {
    /// All calls of the trace were answered, and all output was written.
    Done,
    /// The words aren't a command.
    Words,
    /// The image has this fault at this place of the input, and none before it.
    Image { at: u64, fault: ImageFault },
    /// The trace has this fault in this line, counted from 1, and none in a line before it.
    Trace { line: u64, fault: TraceFault },
    /// The source failed.
    ReadFault,
    /// The sink failed. What was written is the beginning of the output.
    WriteFault,
    /// The history of this channel, of this length, had no room for the next call. The calls before
    /// it were answered, and all output of them was written.
    HistoryLimit { channel: u8, length: u32 },
    /// Memory was wanted and refused.
    OutOfMemory,
    /// This die, counted over all channels, failed where it was mounted, loaded or saved.
    DieFailed { die: u8 },
}

// The word of an image's fault.
fn image_word(fault: ImageFault) -> &'static [u8]
    ensures { result.now ≡ image_fault_word (image_fault fault) }
{
    match fault {
        ImageFault::Short => b"short",
        ImageFault::Magic => b"magic",
        ImageFault::Range => b"range",
        ImageFault::Entry => b"entry",
        ImageFault::Parity => b"parity",
        ImageFault::Diagonal => b"diagonal",
        ImageFault::Order => b"order",
        ImageFault::State => b"state",
        ImageFault::Count => b"count",
        ImageFault::Sum => b"sum",
        ImageFault::Row => b"row",
    }
}

// The word of a trace's fault.
fn trace_word(fault: TraceFault) -> &'static [u8]
    ensures { result.now ≡ trace_fault_word (trace_fault fault) }
{
    match fault {
        TraceFault::First => b"first",
        TraceFault::Long => b"long",
        TraceFault::Form => b"form",
        TraceFault::Number => b"number",
        TraceFault::Actor => b"actor",
        TraceFault::Verb => b"verb",
        TraceFault::Range => b"range",
        TraceFault::Data => b"data",
    }
}

// Adds a line of a front, a number and a word. After an error the list has what it had, and some of
// the line.
fn put_fault(out: &mut Vec<u8>, front: &[u8], n: u64, word: &[u8]) -> Result<(), AllocError>
    ensures ok { OnOk result (out.new.items
        ≡ out.old.items ++ front.now ++ decimal n ++ codes ": " ++ word.now ++ codes "\n") }
    ensures err { OnErr result (take (length out.old.items) out.new.items ≡ out.old.items) }
{
    let mut digits = Buffer::new();
    out.extend_from_slice(front)?;
    out.extend_from_slice(digits.format(n).as_bytes())?;
    out.extend_from_slice(b": ")?;
    out.extend_from_slice(word)?;
    out.extend_from_slice(b"\n")
}

// Adds the line of a channel whose history met its limit. After an error the list has what it had,
// and some of the line.
fn put_limit(out: &mut Vec<u8>, channel: u8, entries: u32) -> Result<(), AllocError>
    ensures ok { OnOk result (out.new.items
        ≡ out.old.items ++ codes "history limit on channel " ++ decimal channel ++ codes " at "
        ++ decimal entries ++ codes "\n") }
    ensures err { OnErr result (take (length out.old.items) out.new.items ≡ out.old.items) }
{
    let mut digits = Buffer::new();
    out.extend_from_slice(b"history limit on channel ")?;
    out.extend_from_slice(digits.format(channel).as_bytes())?;
    out.extend_from_slice(b" at ")?;
    out.extend_from_slice(digits.format(entries).as_bytes())?;
    out.extend_from_slice(b"\n")
}

// Adds the line of a die that failed. After an error the list has what it had, and some of the line.
fn put_die(out: &mut Vec<u8>, die: u8) -> Result<(), AllocError>
    ensures ok { OnOk result (out.new.items
        ≡ out.old.items ++ codes "die " ++ decimal die ++ codes " failed\n") }
    ensures err { OnErr result (take (length out.old.items) out.new.items ≡ out.old.items) }
{
    let mut digits = Buffer::new();
    out.extend_from_slice(b"die ")?;
    out.extend_from_slice(digits.format(die).as_bytes())?;
    out.extend_from_slice(b" failed\n")
}

impl Status {
    /// The exit status of the program.
    pub fn number(self) -> u8
        ensures { result ≡ status_number self }
    {
        match self {
            Status::Done => 0,
            Status::Words => 2,
            Status::Image { .. } => 3,
            Status::Trace { .. } => 4,
            Status::ReadFault => 5,
            Status::WriteFault => 6,
            Status::HistoryLimit { .. } => 7,
            Status::OutOfMemory => 8,
            Status::DieFailed { .. } => 9,
        }
    }

    // Adds the text. After an error the list has what it had, and some of the text.
    fn put(self, out: &mut Vec<u8>) -> Result<(), AllocError>
        ensures ok { OnOk result (out.new.items ≡ out.old.items ++ text_of_status self) }
        ensures err { OnErr result (take (length out.old.items) out.new.items ≡ out.old.items) }
    {
        match self {
            Status::Done => Ok(()),
            Status::Words => out.extend_from_slice(b"words refused\n"),
            Status::Image { at, fault } => {
                put_fault(out, b"image fault at ", at, image_word(fault))
            }
            Status::Trace { line, fault } => {
                put_fault(out, b"trace fault in line ", line, trace_word(fault))
            }
            Status::ReadFault => out.extend_from_slice(b"read fault\n"),
            Status::WriteFault => out.extend_from_slice(b"write fault\n"),
            Status::HistoryLimit { channel, length } => put_limit(out, channel, length),
            Status::OutOfMemory => out.extend_from_slice(b"out of memory\n"),
            Status::DieFailed { die } => put_die(out, die),
        }
    }
}

/// Adds the status's text, a whole line or nothing, to the end of `out`, which stays as it is where
/// memory is refused.
pub fn status_text(status: &Status, out: &mut Vec<u8>) -> Result<(), Memory>
    ensures { out.new.items
        ≡ (if is_ok result then out.old.items ++ text_of_status status.now else out.old.items) }
{
    let length = out.len();
    match status.put(out) {
        Ok(()) => Ok(()),
        Err(_) => {
            out.truncate(length);
            Err(Memory)
        }
    }
}
