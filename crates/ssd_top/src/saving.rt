// The drive that a run leaves, saved.
ghost use Rattle.std.specs.Prelude.{ℕ, ◌≡◌, ◌≢◌, ◌*◌, ◌<◌, ◌⊎◌, IfOk, length, map, vec_len, ⊤};
ghost use Rattle.std.specs.Io.KnownBytes.{Appends};
ghost use Rattle.chan_dies.specs.DiesState.{AreMounted};
ghost use Rattle.channel_ends.specs.ChannelEnds.{HaveFewPages};
ghost use Rattle.command_words.specs.Commands.{AreWithin, told_settings};
ghost use Rattle.final_dies.specs.FinalDies.{dies_of_channel};
ghost use Rattle.run_laws.specs.Headline.{IsStoppedRun, IsWholeRun};
ghost use Rattle.ssd_formats.specs.ImageHead.{IsHead, head_of};
ghost use Rattle.ssd_geo.specs.Faults.{NeverFell, Rose};
ghost use Rattle.ssd_io.specs.Pieces.{AppendsFront};
ghost use Rattle.ssd_top.specs.Commands.{AreSavedBack, FailsSaving, IsUnsaved, SavesRun, WritesImage};
ghost use Rattle.ssd_top.specs.HandedBack.{AreHandedIn, most_channels};
ghost use Rattle.ssd_top.specs.LeftDrives.{AreChannelsMounted, AreLeft, CanBeSaved, HaveChannelsFewPages, HaveParts, IsLeftWritten};
ghost use Rattle.ssd_top.specs.Serving.{IsCausedByTold};

use crate::Status;
use crate::ended::Ended;
use crate::format::with_next_session;
use crate::printed::Printed;
use crate::serve::{Answer, serve_input};
use crate::served::Served;
use chan_state::BaseParts;
use channel_base::base_of;
use channel_ends::count_pages;
use command_words::Settings;
use contents_file::{PageWork, WriteStop};
use drive_image::write_drive;
use onfi_cmd::Die;
use ssd_geo::{ChannelBase, ImageHead, Memory, Shape};
use ssd_io::{Sink, Source};
use std::alloc::Global;
use victim::Policy;

// The bases of channels, of which a head and the changed parts tell.
fn bases_left(
    alloc: Global,
    head: &ImageHead,
    parts: Vec<BaseParts>,
) -> Result<Vec<ChannelBase>, Memory>
    requires { vec_len parts ≡ head.now.shape.channels }
    ensures { IfOk result (λ bases. HaveParts head.now.shape parts.items bases.items) }
{
    let mut parts = parts;
    let mut bases = Vec::new(alloc);
    for channel in 0..head.shape.channels {
        let own = parts.remove(0);
        let BaseParts { blocks, rows, sum } = own;
        let base = base_of(alloc, head, channel, blocks, rows, sum)?;
        let Ok(()) = bases.push(base) else {
            return Err(Memory);
        };
    }
    Ok(bases)
}

// Asks the dies of a channel for the numbers of their pages.
fn count_channel<D: Die>(shape: &Shape, dies: &[D], channel: u8)
    requires channel { channel < shape.now.channels }
    requires mounted { AreMounted shape.now (dies_of_channel shape.now.dies (map D.state dies.now) channel) }
    ensures { HaveFewPages shape.now (dies_of_channel shape.now.dies (map D.state dies.now) channel) }
{
    let count = shape.dies as usize;
    let first = channel as usize * count;
    count_pages(shape, &dies[first..first + count])
}

// Asks those of all channels. None tells more pages than a block has, so what is saved is what the histories say.
fn count_drive<D: Die>(shape: &Shape, dies: &[D])
    requires { AreChannelsMounted shape.now (map D.state dies.now) }
    ensures { HaveChannelsFewPages shape.now (map D.state dies.now) }
{
    for channel in 0..shape.channels {
        count_channel(shape, dies, channel);
    }
}

// Writes the image of a drive with the head that was read, these parts of its channels' bases and these dies: with contents, and
// with the next session. Nothing is written before all memory is taken.
fn save_left<O: Sink, D: Die>(
    alloc: Global,
    output: &mut O,
    head: ImageHead,
    parts: Vec<BaseParts>,
    dies: &mut [D],
) -> Status
    requires head { IsHead (head_of head) }
    requires left { CanBeSaved head.shape parts.items (map D.state dies.old) }
    ensures written { IsLeftWritten result (head_of head) head.shape parts.items (map D.state dies.old)
        (O.written output.old) (O.written output.new) }
    ensures dies { AreLeft (head.shape.channels * head.shape.dies) result (map D.state dies.old) (map D.state dies.new) }
    ensures write_fault { result ≡ Status.WriteFault → Rose (O.faults output.old) (O.faults output.new) }
    ensures writes_stay { result ≢ Status.WriteFault → O.faults output.new ≡ O.faults output.old }
    ensures writes { NeverFell (O.faults output.old) (O.faults output.new) }
    ensures nothing { result ≡ Status.OutOfMemory → output.new ≡ output.old }
{
    let head = with_next_session(head, true);
    let Ok(bases) = bases_left(alloc, &head, parts) else {
        return Status::OutOfMemory;
    };
    let Ok(mut work) = PageWork::new(alloc, &head.shape) else {
        return Status::OutOfMemory;
    };
    match write_drive(output, &head, &bases, dies, &mut work) {
        Ok(()) => Status::Done,
        Err(WriteStop::WriteFault) => Status::WriteFault,
        Err(WriteStop::DieFailed { die }) => Status::DieFailed { die },
    }
}

// Serves an input by settings, and saves the drive that it leaves. Where the run stopped at the limit of a history, it is not saved.
pub fn save<S: Source, O: Sink, D: Die>(
    alloc: Global,
    settings: Settings,
    input: &mut S,
    output: &mut O,
    dies: Vec<D>,
    policies: Vec<Box<dyn Policy + Send>>,
) -> Ended<D>
    requires settings { AreWithin settings }
    requires dies { AreHandedIn (map D.state dies.items) }
    requires policies { length policies.items ≡ most_channels }
    ensures served { result.status ≢ Status.Words }
    ensures read_fault { result.status ≡ Status.ReadFault
        → Rose (S.faults input.old) (S.faults input.new) }
    ensures write_fault { result.status ≡ Status.WriteFault
        → Rose (O.faults output.old) (O.faults output.new) }
    ensures reads_stay { result.status ≢ Status.ReadFault
        → S.faults input.new ≡ S.faults input.old }
    ensures writes_stay { result.status ≢ Status.WriteFault
        → O.faults output.new ≡ O.faults output.old }
    ensures reads { NeverFell (S.faults input.old) (S.faults input.new) }
    ensures writes { NeverFell (O.faults output.old) (O.faults output.new) }
    ensures dies { AreSavedBack result.status (map D.state dies.items) (map D.state result.dies.items) }
    ensures caused { IsCausedByTold (S.left input.old) result.status }
    ensures saved { result.status ≡ Status.Done
        → SavesRun (told_settings settings) (S.left input.old) (S.left input.new) (map D.state dies.items)
        (map (λ policy. told policy) policies.items) (map D.state result.dies.items) IsWholeRun
        (WritesImage (Appends (O.written output.old) (O.written output.new))) }
    ensures saved_front { result.status ≡ Status.WriteFault
        → SavesRun (told_settings settings) (S.left input.old) (S.left input.new) (map D.state dies.items)
        (map (λ policy. told policy) policies.items) (map D.state result.dies.items) IsWholeRun
        (WritesImage (AppendsFront (O.written output.old) (O.written output.new))) }
    ensures failed { (die : ℕ) → result.status ≡ Status.DieFailed die
        → (output.new ≡ output.old) ⊎ FailsSaving (told_settings settings) (S.left input.old) (S.left input.new)
        (map D.state dies.items) (map (λ policy. told policy) policies.items) (map D.state result.dies.items) die
        (AppendsFront (O.written output.old) (O.written output.new)) }
    ensures at_limit { (channel entries : ℕ) → result.status ≡ Status.HistoryLimit channel entries
        → SavesRun (told_settings settings) (S.left input.old) (S.left input.new) (map D.state dies.items)
        (map (λ policy. told policy) policies.items) (map D.state result.dies.items)
        (λ head run. IsStoppedRun head run channel entries) (λ head run. ⊤) }
    ensures nothing { IsUnsaved result.status → output.new ≡ output.old }
{
    let Answer { outcome, dies } = serve_input(alloc, settings, input, dies, policies);
    let Served { printed, parts } = match outcome {
        Ok(served) => served,
        Err(status) => return Ended { status, dies },
    };
    let Printed { head, full, .. } = printed;
    match full {
        Some((channel, length)) => {
            let status = Status::HistoryLimit { channel, length };
            return Ended { status, dies };
        }
        None => {}
    }
    let mut dies = dies;
    count_drive(&head.shape, &dies);
    let status = save_left(alloc, output, head, parts, &mut dies);
    Ended { status, dies }
}
