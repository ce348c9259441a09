// The worker of a drive is made from the head of its image.
ghost use Rattle.std.specs.Prelude.{◌≡◌, IfOk};
ghost use Rattle.ssd_formats.specs.ImageHead.{IsHead, head_of, matrix_of_head};
ghost use Rattle.ssd_top.specs.Workers.{IsWorkerOf};

use chan_calls::Worker;
use ldpc_decode::Lanes;
use qc_matrix::{Code, CodeFault};
use ssd_geo::{ImageHead, Items, Memory};
use std::alloc::Global;

// The code of the drive.
fn code_of(alloc: Global, head: &ImageHead) -> Result<Code, Memory>
    requires { IsHead (head_of head.now) }
    ensures { IfOk result (λ code. code ≡ matrix_of_head (head_of head.now)) }
{
    let shape = head.shape;
    match Code::read(alloc, head.entries.as_slice(), shape.mb, shape.nb, shape.z) {
        Ok(code) => Ok(code),
        Err(CodeFault::Memory) => Err(Memory),
        Err(CodeFault::EntryRange { .. }) => unreachable!(),
        Err(CodeFault::ParityColumn { .. }) => unreachable!(),
        Err(CodeFault::Diagonal { .. }) => unreachable!(),
    }
}

// A copy of a list of levels.
fn copied(alloc: Global, list: &Items<i16>) -> Result<Items<i16>, Memory>
    ensures { IfOk result (λ copy. copy ≡ list.now) }
{
    match Vec::from_slice(alloc, list.as_slice()) {
        Ok(vec) => Ok(Items::new(vec)),
        Err(_) => Err(Memory),
    }
}

// The worker of the drive that an image's head tells of. It decodes on so many lanes.
pub fn worker_of(alloc: Global, head: &ImageHead, lanes: Lanes) -> Result<Worker, Memory>
    requires { IsHead (head_of head.now) }
    ensures { IfOk result (IsWorkerOf (head_of head.now)) }
{
    let code = code_of(alloc, head)?;
    let read_levels = copied(alloc, &head.read_levels)?;
    Worker::new(
        alloc,
        head.shape,
        head.session,
        code,
        head.iterations,
        lanes,
        read_levels,
        head.step,
    )
}
