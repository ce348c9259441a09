ghost use Rattle.std.specs.Prelude.{OnOk, OnErr};
ghost use Rattle.std.specs.Io.KnownBytes.{Appends};
ghost use Rattle.ssd_formats.specs.GeneratedWork.{generated_work};
ghost use Rattle.ssd_io.specs.FaultCounts.{MatchesCount};
ghost use Rattle.ssd_io.specs.Pieces.{AppendsFront};
ghost use Rattle.ssd_io.specs.Writes.{Writes};

use crate::head::put_image;
use crate::trace::put_trace;
use rand_core::SeedableRng;
use rand_xoshiro::SplitMix64;
use ssd_io::{Failed, Sink};

// One generator gives all words, first those of the image and then those of the trace.
fn put_work<O: Sink>(output: &mut O, number: u32) -> Result<(), Failed>
    ensures { Writes O.written O.faults output.old output.new result (generated_work number) }
{
    let mut noise = SplitMix64::seed_from_u64(number as u64);
    put_image(output, &mut noise, number)?;
    put_trace(output, &mut noise)
}

/// Writes the image and the trace that a number stands for. It takes no memory.
pub fn gen_into<O: Sink>(output: &mut O, number: u32) -> Result<(), Failed>
    ensures all { OnOk result
        (Appends (O.written output.old) (O.written output.new) (generated_work number)) }
    ensures front { OnErr result
        (AppendsFront (O.written output.old) (O.written output.new) (generated_work number)) }
    ensures cause { MatchesCount (O.faults output.old) (O.faults output.new) result }
{
    put_work(output, number)
}
