// The lists of an image's head, written.
ghost use Rattle.std.specs.Prelude.{◌≡◌, ◌^◌, ◌<◌, flat_map, length};
ghost use Rattle.std.specs.Int.{to_le_bytes, w16};
ghost use Rattle.ssd_formats.specs.Fields.{bytes_of_signed};
ghost use Rattle.ssd_formats.specs.ImageHead.{bad_bytes, weak_bytes};
ghost use Rattle.image_file.specs.HeadBytes.{bad_list_bytes, weak_list_bytes};
ghost use Rattle.ssd_io.specs.Writes.{Writes};

use ssd_geo::Weak;
use ssd_io::{Failed, Sink, write_all};

/// Writes bytes.
pub fn put<O: Sink>(output: &mut O, bytes: &[u8]) -> Result<(), Failed>
    ensures { Writes O.written O.faults output.old output.new result bytes.now }
{
    write_all(output, bytes)
}

// Writes a number of two bytes with a sign.
fn write_number<O: Sink>(output: &mut O, number: &i16) -> Result<(), Failed>
    ensures { Writes O.written O.faults output.old output.new result (bytes_of_signed number.now) }
{
    put(output, &number.to_le_bytes())
}

/// Writes numbers of two bytes with a sign.
pub fn write_numbers<O: Sink>(output: &mut O, numbers: &[i16]) -> Result<(), Failed>
    ensures { Writes O.written O.faults output.old output.new result (flat_map bytes_of_signed numbers.now) }
{
    for number in numbers {
        write_number(output, number)?;
    }
    Ok(())
}

// Writes how many items a list has.
fn write_count<O: Sink>(output: &mut O, count: usize) -> Result<(), Failed>
    requires { count < 2 ^ 16 }
    ensures { Writes O.written O.faults output.old output.new result (to_le_bytes w16 count) }
{
    put(output, &(count as u16).to_le_bytes())
}

// The bytes of a weak block.
#[tactic(auto, using(crate::proofs::SpelledFields::byte_spelled))]
fn spell_weak(weak: Weak) -> [u8; 8]
    ensures { result ≡ weak_bytes weak }
{
    let [s0, s1] = weak.sb.to_le_bytes();
    let [f0, f1, f2, f3] = weak.from.to_le_bytes();
    [weak.channel, weak.die, s0, s1, f0, f1, f2, f3]
}

// Writes a weak block.
fn write_weak<O: Sink>(output: &mut O, weak: Weak) -> Result<(), Failed>
    ensures { Writes O.written O.faults output.old output.new result (weak_bytes weak) }
{
    put(output, &spell_weak(weak))
}

fn write_weaks<O: Sink>(output: &mut O, weak: &[Weak]) -> Result<(), Failed>
    ensures { Writes O.written O.faults output.old output.new result (flat_map weak_bytes weak.now) }
{
    for block in weak {
        write_weak(output, *block)?;
    }
    Ok(())
}

/// Writes the weak blocks behind their number.
pub fn write_weak_list<O: Sink>(output: &mut O, weak: &[Weak]) -> Result<(), Failed>
    requires { length weak.now < 2 ^ 16 }
    ensures { Writes O.written O.faults output.old output.new result (weak_list_bytes weak.now) }
{
    write_count(output, weak.len())?;
    write_weaks(output, weak)
}

// Writes a factory bad superblock.
fn write_bad<O: Sink>(output: &mut O, bad: (u8, u16)) -> Result<(), Failed>
    ensures { Writes O.written O.faults output.old output.new result (bad_bytes bad) }
{
    let sb = bad.1.to_le_bytes();
    put(output, &[bad.0, 0, sb[0], sb[1]])
}

fn write_bads<O: Sink>(output: &mut O, bad: &[(u8, u16)]) -> Result<(), Failed>
    ensures { Writes O.written O.faults output.old output.new result (flat_map bad_bytes bad.now) }
{
    for block in bad {
        write_bad(output, *block)?;
    }
    Ok(())
}

/// Writes the factory bad superblocks behind their number.
pub fn write_bad_list<O: Sink>(output: &mut O, bad: &[(u8, u16)]) -> Result<(), Failed>
    requires { length bad.now < 2 ^ 16 }
    ensures { Writes O.written O.faults output.old output.new result (bad_list_bytes bad.now) }
{
    write_count(output, bad.len())?;
    write_bads(output, bad)
}
