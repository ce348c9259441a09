// The command `format`.
ghost use Rattle.std.specs.Prelude.{◌≡◌, ◌≢◌, ◌+◌, ◌%◌, ◌^◌, ◌<◌, false, map};
ghost use Rattle.ssd_formats.specs.ImageHead.{IsHead, head_bytes, head_of, with_next_session};
ghost use Rattle.ssd_geo.specs.Faults.{NeverFell, Rose};
ghost use Rattle.ssd_top.specs.Commands.{AreLoadedBack, IsFormatted, IsWritten};
ghost use Rattle.ssd_top.specs.HandedBack.{AreHandedIn};
ghost use Rattle.ssd_top.specs.Serving.{IsCausedByTold, IsSilent};

use crate::Status;
use crate::loading::{image_status, load_drive};
use image_file::{read_head, write_head};
use onfi_cmd::Die;
use ssd_geo::ImageHead;
use ssd_io::{Sink, Source};
use std::alloc::Global;

// How many sessions there are, one after the other and then the first again.
const SESSIONS: u32 = 1 << 24;

// The session after one.
fn next_session(session: u32) -> u32
    requires { session < 2 ^ 24 }
    ensures { result ≡ (session + 1) % 2 ^ 24 }
{
    (session + 1) % SESSIONS
}

// A head with the next session, and with contents or without.
pub fn with_next_session(head: ImageHead, full: bool) -> ImageHead
    requires { IsHead (head_of head) }
    ensures head { head_of result ≡ with_next_session (head_of head) full }
    ensures is_head { IsHead (head_of result) }
    ensures shape { result.shape ≡ head.shape }
{
    let mut head = head;
    head.session = next_session(head.session);
    head.full = full;
    head
}

// Writes the head of an image again, with the next session and without contents.
fn write_again<O: Sink>(output: &mut O, head: ImageHead) -> Status
    requires { IsHead (head_of head) }
    ensures written { IsWritten result (O.written output.old) (O.written output.new)
        (head_bytes (with_next_session (head_of head) false)) }
    ensures write_fault { result ≡ Status.WriteFault → Rose (O.faults output.old) (O.faults output.new) }
    ensures writes_stay { result ≢ Status.WriteFault → O.faults output.new ≡ O.faults output.old }
    ensures writes { NeverFell (O.faults output.old) (O.faults output.new) }
{
    match write_head(output, &with_next_session(head, false)) {
        Ok(()) => Status::Done,
        Err(_) => Status::WriteFault,
    }
}

// Reads an image, contents and all, and writes its head again with the next session and without contents. Contents are loaded
// into dies, so that their faults are found.
pub fn format<S: Source, O: Sink, D: Die>(
    alloc: Global,
    input: &mut S,
    output: &mut O,
    dies: &mut Vec<D>,
) -> Status
    requires { AreHandedIn (map D.state dies.old.items) }
    ensures formatted { IsFormatted result (S.left input.old) (S.left input.new) (O.written output.old) (O.written output.new) }
    ensures dies { AreLoadedBack result (map D.state dies.old.items) (map D.state dies.new.items) }
    ensures caused { IsCausedByTold (S.left input.old) result }
    ensures read_fault { result ≡ Status.ReadFault → Rose (S.faults input.old) (S.faults input.new) }
    ensures write_fault { result ≡ Status.WriteFault → Rose (O.faults output.old) (O.faults output.new) }
    ensures reads_stay { result ≢ Status.ReadFault → S.faults input.new ≡ S.faults input.old }
    ensures writes_stay { result ≢ Status.WriteFault → O.faults output.new ≡ O.faults output.old }
    ensures reads { NeverFell (S.faults input.old) (S.faults input.new) }
    ensures writes { NeverFell (O.faults output.old) (O.faults output.new) }
    ensures nothing { IsSilent result → output.new ≡ output.old }
{
    let mut head = match read_head(alloc, input) {
        Ok(head) => head,
        Err(stop) => return image_status(stop),
    };
    if !head.full {
        return write_again(output, head);
    }
    match load_drive(alloc, input, &mut head, dies) {
        Ok(_bases) => write_again(output, head),
        Err(status) => status,
    }
}
