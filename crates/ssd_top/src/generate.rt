// The command `gen`.
ghost use Rattle.std.specs.Prelude.{◌≡◌, ◌≢◌};
ghost use Rattle.ssd_formats.specs.GeneratedWork.{generated_work};
ghost use Rattle.ssd_geo.specs.Faults.{NeverFell, Rose};
ghost use Rattle.ssd_top.specs.Commands.{IsWritten};

use crate::Status;
use ssd_gen::gen_into;
use ssd_io::Sink;

// Writes the work that a number gives.
pub fn generate<O: Sink>(output: &mut O, number: u32) -> Status
    ensures written { IsWritten result (O.written output.old) (O.written output.new) (generated_work number) }
    ensures write_fault { result ≡ Status.WriteFault → Rose (O.faults output.old) (O.faults output.new) }
    ensures writes_stay { result ≢ Status.WriteFault → O.faults output.new ≡ O.faults output.old }
    ensures writes { NeverFell (O.faults output.old) (O.faults output.new) }
{
    match gen_into(output, number) {
        Ok(()) => Status::Done,
        Err(_) => Status::WriteFault,
    }
}
