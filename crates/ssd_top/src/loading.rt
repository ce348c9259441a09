// The dies of a drive, mounted and loaded with what its image tells.
ghost use Rattle.std.specs.Prelude.{◌≡◌, ◌^◌, ◌<◌, ◌≤◌, IfErr, IfOk, OnOk, drop, map, vec_len};
ghost use Rattle.drive_dies.specs.Mounting.{AllTell, die_count};
ghost use Rattle.image_file.specs.Gives.{rest_at};
ghost use Rattle.saved_drive.specs.Contents.{AreMounted};
ghost use Rattle.ssd_formats.specs.ImageHead.{IsHead, head_of};
ghost use Rattle.ssd_geo.specs.Faults.{NeverFell};
ghost use Rattle.ssd_io.specs.Told.{IsTold};
ghost use Rattle.ssd_top.specs.HandedBack.{AllCountNone, AreHandedBack};
ghost use Rattle.ssd_top.specs.Loading.{HasLoaded, StopsContents, StopsNoTrace};
ghost use Rattle.ssd_top.specs.Serving.{IsStop, status_of_image, status_of_mount};

use crate::Status;
use blank_drive::mount_drive;
use drive_contents::load_contents;
use drive_dies::MountStop;
use image_file::{ImageFault, ReadStop};
use onfi_cmd::Die;
use ssd_geo::{ChannelBase, ImageHead};
use ssd_io::Source;
use std::alloc::Global;

// The status of an image that wasn't read.
pub fn image_status(stop: ReadStop<ImageFault>) -> Status
    ensures { result ≡ status_of_image stop }
{
    match stop {
        ReadStop::Fault { at, fault } => Status::Image { at, fault },
        ReadStop::ReadFault => Status::ReadFault,
        ReadStop::DieFailed { die } => Status::DieFailed { die },
        ReadStop::Memory => Status::OutOfMemory,
    }
}

// The status of dies that weren't mounted.
fn mount_status(stop: MountStop) -> Status
    ensures { result ≡ status_of_mount stop }
{
    match stop {
        MountStop::Failed { die } => Status::DieFailed { die },
        MountStop::Memory => Status::OutOfMemory,
    }
}

// Mounts the dies of a drive, which are the first of the list, and loads them with what its image tells behind its head. Of a
// blank image nothing is read.
pub fn load_drive<S: Source, D: Die>(
    alloc: Global,
    input: &mut S,
    head: &mut ImageHead,
    dies: &mut Vec<D>,
) -> Result<Vec<ChannelBase>, Status>
    requires head { IsHead (head_of head.old) }
    requires place { head.old.place < 2 ^ 60 }
    requires enough { die_count head.old ≤ vec_len dies.old }
    requires tell { AllTell (map D.state dies.old.items) }
    ensures loaded { IfOk result (λ bases. HasLoaded head.old head.new.place (S.left input.old) (S.left input.new)
        (map D.state dies.new.items) bases.items) }
    ensures mounted { OnOk result (AreMounted head.old (map D.state dies.new.items)) }
    ensures counts { OnOk result (AllCountNone (map D.state dies.old.items) (map D.state dies.new.items)) }
    ensures others { OnOk result (drop (die_count head.old) (map D.state dies.new.items)
        ≡ drop (die_count head.old) (map D.state dies.old.items)) }
    ensures stays { OnOk result (S.faults input.new ≡ S.faults input.old) }
    ensures reads { NeverFell (S.faults input.old) (S.faults input.new) }
    ensures stop { IfErr result (IsStop (S.faults input.old) (S.faults input.new)) }
    ensures caused { IfErr result (λ status. IsTold (S.left input.old)
        → StopsContents (head_of head.old) (rest_at head.old.place (S.left input.old)) status) }
    ensures no_trace { IfErr result StopsNoTrace }
    ensures dies { IfErr result (λ status.
        AreHandedBack status (map D.state dies.old.items) (map D.state dies.new.items)) }
    ensures head { head.new ≡ record head.old { place = head.new.place } }
{
    match mount_drive(alloc, head, dies) {
        Ok(()) => {}
        Err(stop) => return Err(mount_status(stop)),
    }
    match load_contents(alloc, input, head, dies) {
        Ok(bases) => Ok(bases),
        Err(stop) => Err(image_status(stop)),
    }
}
