// A whole trace.
ghost use Rattle.std.specs.Prelude.{◌≡◌, ◌+◌, ◌≤◌, ◌^◌, [], IfOk, OnOk};
ghost use Rattle.ssd_geo.specs.Shape.{sizes_of};
ghost use Rattle.ssd_formats.specs.TraceText.{calls_of_lines};
ghost use Rattle.ssd_io.specs.Told.{IsTold};
ghost use Rattle.image_file.specs.StopCauses.{StopsWithCause};
ghost use Rattle.trace_text.specs.BytesAhead.{lines_ahead};
ghost use Rattle.trace_text.specs.NumberedCalls.{AreCalls, IsNumbered};
ghost use Rattle.trace_text.specs.ReadLines.{pending};
ghost use Rattle.trace_text.specs.ReadTraces.{begun_of, GivesActors, GivesCalls, ReadsTrace, stop_in_line};

use crate::call_list::CallList;
use crate::fault::{LineStop, TraceFault};
use crate::line_reader::LineReader;
use crate::lines::{actors, add_call};
use image_file::ReadStop;
use ssd_geo::{ImageHead, Items, Shape, Trace, TraceCall};
use ssd_io::Source;
use std::alloc::Global;

// Why a trace was not read, where a line stopped it.
fn stop_at(line: u64, stop: LineStop) -> ReadStop<TraceFault>
    ensures { result ≡ stop_in_line line stop }
{
    match stop {
        LineStop::Fault { fault } => ReadStop::Fault { at: line, fault },
        LineStop::Memory => ReadStop::Memory,
    }
}

// The number of actors, from the first line that isn't skipped.
fn read_actors<S: Source>(input: &mut S, lines: &mut LineReader) -> Result<u8, ReadStop<TraceFault>>
    requires { lines.old.taken ≤ 2 ^ 26 }
    ensures read { IsTold (S.left input.old) → GivesActors result lines.new (S.left input.new)
        (begun_of (lines.old.number + 1) lines.old.taken (lines_ahead (pending lines.old) (S.left input.old))) }
    ensures range { IfOk result (λ n. (1 ≤ n) × (n ≤ 32)) }
    ensures short { OnOk result (lines.new.taken ≤ 2 ^ 26) }
    ensures cause { StopsWithCause (S.faults input.old) (S.faults input.new) result }
{
    if !lines.next_due(input)? {
        return Err(ReadStop::Fault {
            at: lines.number() + 1,
            fault: TraceFault::First,
        });
    }
    actors(lines.text()).map_err(|fault| ReadStop::Fault {
        at: lines.number(),
        fault,
    })
}

// The calls of all further lines.
fn read_calls<S: Source>(
    alloc: Global,
    input: &mut S,
    lines: &mut LineReader,
    shape: &Shape,
    actors: u8,
) -> Result<Items<TraceCall>, ReadStop<TraceFault>>
    requires short { lines.old.taken ≤ 2 ^ 26 }
    requires actors { actors ≤ 32 }
    ensures read { IsTold (S.left input.old) → GivesCalls result (S.left input.new)
        (calls_of_lines (sizes_of shape.now) actors (lines.old.number + 1) lines.old.taken [] (lines_ahead (pending lines.old) (S.left input.old))) }
    ensures numbered { IfOk result (AreCalls (sizes_of shape.now) actors) }
    ensures cause { StopsWithCause (S.faults input.old) (S.faults input.new) result }
{
    let mut calls = CallList::new(alloc);
    'reading: while lines.next_due(input)? {
        match add_call(alloc, shape, actors, lines.text(), &mut calls) {
            Ok(()) => {}
            Err(stop) => return Err(stop_at(lines.number(), stop)),
        }
    }
    Ok(calls.into_items())
}

/// Reads a trace up to the end of the source, or up to its first wrong line. The line is named, counted from 1.
pub fn read_trace<S: Source>(
    alloc: Global,
    input: &mut S,
    head: &ImageHead,
) -> Result<Trace, ReadStop<TraceFault>>
    ensures read { ReadsTrace result (sizes_of head.now.shape) (S.left input.old) (S.left input.new) }
    ensures numbered { IfOk result (IsNumbered (sizes_of head.now.shape)) }
    ensures cause { StopsWithCause (S.faults input.old) (S.faults input.new) result }
{
    let Ok(mut lines) = LineReader::new(alloc) else {
        return Err(ReadStop::Memory);
    };
    let actors = read_actors(input, &mut lines)?;
    let calls = read_calls(alloc, input, &mut lines, &head.shape, actors)?;
    Ok(Trace { actors, calls })
}
