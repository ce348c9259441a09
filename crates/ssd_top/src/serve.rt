// An input, from its bytes to what is printed of it.
ghost use Rattle.std.specs.Prelude.{◌≡◌, ◌≤◌, List, IfErr, IfOk, OnOk, map, vec_len};
ghost use Rattle.command_words.specs.Commands.{AreWithin, told_settings};
ghost use Rattle.drive_contents.specs.LoadedDrive.{AreOfDrive};
ghost use Rattle.ssd_geo.specs.Faults.{NeverFell};
ghost use Rattle.saved_drive.specs.Contents.{AreMounted, HaveImage};
ghost use Rattle.ssd_formats.specs.ImageContents.{ChannelImage};
ghost use Rattle.ssd_formats.specs.ImageHead.{IsHead, head_of};
ghost use Rattle.ssd_geo.specs.Shape.{sizes_of};
ghost use Rattle.ssd_top.specs.HandedBack.{AreHandedIn, most_channels};
ghost use Rattle.ssd_top.specs.Serving.{AreGivenBack, HasServed, IsCausedByTold, IsMadeOf, IsNoDie, IsStop, ServesInput};
ghost use Rattle.ssd_top.specs.Serving.{status_of_trace};
ghost use Rattle.trace_text.specs.NumberedCalls.{IsNumbered};

use crate::Status;
use crate::lists::{kinds_of, replies_of};
use crate::loading::{image_status, load_drive};
use crate::printed::Printed;
use crate::served::Served;
use crate::serving::{Answered, serve_trace};
use crate::worker::worker_of;
use blank_drive::{Ended, end_channels};
use command_words::Settings;
use image_file::{ReadStop, read_head};
use ldpc_decode::Lanes;
use onfi_cmd::Die;
use saved_drive::begin_channels;
use ssd_geo::{ChannelBase, Entry, ImageHead, Items, Memory, Trace};
use ssd_io::Source;
use std::alloc::Global;
use trace_text::{TraceFault, read_trace};
use victim::Policy;

// The status of a trace that wasn't read.
fn trace_status(stop: ReadStop<TraceFault>) -> Status
    requires { IsNoDie stop }
    ensures { result ≡ status_of_trace stop }
{
    match stop {
        ReadStop::Fault { at, fault } => Status::Trace { line: at, fault },
        ReadStop::ReadFault => Status::ReadFault,
        ReadStop::DieFailed { .. } => unreachable!(),
        ReadStop::Memory => Status::OutOfMemory,
    }
}

// What came of an input, or how the call ended where nothing did; and the dies that were handed in.
#[derive(Drop)]
pub struct Answer<D: Die> {
    pub outcome: Result<Served, Status>,
    pub dies: Vec<D>,
}

// What is printed of histories and answers.
fn printed_of(
    alloc: Global,
    whole: bool,
    head: ImageHead,
    trace: &Trace,
    histories: Vec<Items<Entry>>,
    answered: Answered,
) -> Result<Printed, Memory>
    ensures { IfOk result (IsMadeOf whole head trace.now histories.items answered) }
{
    let Answered {
        replies,
        full,
        dropped,
    } = answered;
    let replies = replies_of(replies)?;
    let kinds = kinds_of(alloc, trace)?;
    let room = 512 + 2 * head.shape.bytes as usize;
    let Ok(line) = Vec::with_capacity(alloc, room) else {
        return Err(Memory);
    };
    Ok(Printed {
        head,
        histories,
        kinds,
        replies,
        dropped,
        full,
        whole,
        line,
    })
}

// So many lanes.
fn lanes_of(number: u8) -> Lanes {
    match number {
        1 => Lanes::One,
        4 => Lanes::Four,
        8 => Lanes::Eight,
        32 => Lanes::ThirtyTwo,
        _ => Lanes::Sixteen,
    }
}

// Serves the calls of a trace on the drive of an image, whose dies are mounted and the first of the list, and have its contents as
// the bases of its channels have them.
fn serve<D: Die, P: Policy>(
    alloc: Global,
    settings: Settings,
    head: ImageHead,
    bases: Vec<ChannelBase>,
    trace: &Trace,
    dies: Vec<D>,
    policies: Vec<P>,
) -> Answer<D>
    requires settings { AreWithin settings }
    requires head { IsHead (head_of head) }
    requires calls { IsNumbered (sizes_of head.shape) trace.now }
    requires dies { AreMounted head (map D.state dies.items) }
    requires image { HaveImage (head_of head) bases.items (map D.state dies.items) }
    requires policies { head.shape.channels ≤ vec_len policies }
    ensures { (saved : List ChannelImage) → AreOfDrive (head_of head) saved bases.items (map D.state dies.items)
        → ServesInput (record { head = head_of head; channels = saved; calls = trace.now }) (told_settings settings)
        (map D.state dies.items) (map (λ policy. P.told policy) policies.items) (map D.state result.dies.items)
        result.outcome }
{
    let mut left = dies;
    let Ok(mut worker) = worker_of(alloc, &head, lanes_of(settings.lanes)) else {
        return out_of_memory(left);
    };
    let Ok(mut channels) = begin_channels(
        alloc,
        &head,
        bases,
        &mut left,
        policies,
        settings.history,
    ) else {
        return out_of_memory(left);
    };
    let answered = serve_trace(alloc, &mut worker, &mut channels, trace);
    let Ok(
        Ended {
            dies,
            histories,
            parts,
        },
    ) = end_channels(alloc, channels, left)
    else {
        return out_of_memory(Vec::new(alloc));
    };
    let outcome = match answered {
        Ok(answered) => match printed_of(alloc, settings.whole, head, trace, histories, answered) {
            Ok(printed) => Ok(Served { printed, parts }),
            Err(Memory) => Err(Status::OutOfMemory),
        },
        Err(Memory) => Err(Status::OutOfMemory),
    };
    Answer { outcome, dies }
}

// The answer where memory was refused, with the dies that are left.
fn out_of_memory<D: Die>(dies: Vec<D>) -> Answer<D>
    ensures { result ≡ record { outcome = Err Status.OutOfMemory; dies = dies } }
{
    Answer {
        outcome: Err(Status::OutOfMemory),
        dies,
    }
}

// Reads an input and serves it by settings. The dies are mounted once the head of its image is read, and then its contents are
// loaded into them.
pub fn serve_input<S: Source, D: Die, P: Policy>(
    alloc: Global,
    settings: Settings,
    input: &mut S,
    dies: Vec<D>,
    policies: Vec<P>,
) -> Answer<D>
    requires settings { AreWithin settings }
    requires dies { AreHandedIn (map D.state dies.items) }
    requires policies { vec_len policies ≡ most_channels }
    ensures ok { IfOk result.outcome (HasServed (S.left input.old) (S.left input.new) (told_settings settings) (map D.state dies.items)
        (map (λ policy. P.told policy) policies.items) (map D.state result.dies.items)) }
    ensures stays { OnOk result.outcome (S.faults input.new ≡ S.faults input.old) }
    ensures stop { IfErr result.outcome (IsStop (S.faults input.old) (S.faults input.new)) }
    ensures caused { IfErr result.outcome (IsCausedByTold (S.left input.old)) }
    ensures dies { AreGivenBack result.outcome (map D.state dies.items) (map D.state result.dies.items) }
    ensures reads { NeverFell (S.faults input.old) (S.faults input.new) }
{
    let mut dies = dies;
    let mut head = match read_head(alloc, input) {
        Ok(head) => head,
        Err(stop) => {
            let outcome = Err(image_status(stop));
            return Answer { outcome, dies };
        }
    };
    let bases = match load_drive(alloc, input, &mut head, &mut dies) {
        Ok(bases) => bases,
        Err(status) => {
            let outcome = Err(status);
            return Answer { outcome, dies };
        }
    };
    let trace = match read_trace(alloc, input, &head) {
        Ok(trace) => trace,
        Err(stop) => {
            let outcome = Err(trace_status(stop));
            return Answer { outcome, dies };
        }
    };
    serve(alloc, settings, head, bases, &trace, dies, policies)
}
