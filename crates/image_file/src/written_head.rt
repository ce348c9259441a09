// The head of an image, written.
ghost use Rattle.std.specs.Prelude.{◌≡◌, ◌^◌, ◌<◌, flat_map, if◌then◌else◌, length, OnOk, OnErr};
ghost use Rattle.std.specs.Int.{to_le_bytes, w8};
ghost use Rattle.std.specs.Io.KnownBytes.{Appends};
ghost use Rattle.ssd_io.specs.FaultCounts.{MatchesCount};
ghost use Rattle.ssd_formats.specs.Fields.{bytes_of_signed};
ghost use Rattle.ssd_formats.specs.ImageHead.{IsHead, head_bytes, head_of};
ghost use Rattle.ssd_geo.specs.Shape.{sizes_of};
ghost use Rattle.ssd_io.specs.Pieces.{AppendsFront};
ghost use Rattle.image_file.specs.HeadBytes.{bad_list_bytes, block_bytes, code_bytes, fixed_bytes, law_bytes, size_bytes, weak_list_bytes};
ghost use Rattle.ssd_io.specs.Writes.{Writes};

use crate::written_lists::{put, write_bad_list, write_numbers, write_weak_list};
use ssd_geo::{CellLaw, ImageHead, Shape};
use ssd_io::{Failed, Sink};

// The bytes up to the rows.
#[tactic(auto, using(crate::proofs::SpelledFields::byte_spelled), unfolding(crate::specs::HeadBytes::size_bytes))]
fn spell_sizes(shape: &Shape, levels: u8, iterations: u8) -> [u8; 29]
    ensures { result ≡ size_bytes (sizes_of shape.now) levels iterations }
{
    let [n0, n1] = shape.superblocks.to_le_bytes();
    let [p0, p1] = shape.pages.to_le_bytes();
    let [z0, z1] = shape.z.to_le_bytes();
    let [d0, d1, d2, d3] = shape.bytes.to_le_bytes();
    let [l0, l1, l2, l3] = shape.rows.to_le_bytes();
    [
        b'S',
        b'S',
        b'D',
        b'I',
        b'M',
        b'G',
        b'0',
        b'2',
        shape.words,
        shape.channels,
        shape.dies,
        n0,
        n1,
        p0,
        p1,
        z0,
        z1,
        shape.mb,
        shape.nb,
        levels,
        iterations,
        d0,
        d1,
        d2,
        d3,
        l0,
        l1,
        l2,
        l3,
    ]
}

// The bytes behind the rows, up to the read levels.
#[tactic(auto, unfolding(crate::specs::HeadBytes::law_bytes))]
fn spell_law(law: &CellLaw, step: u16, session: u32) -> [u8; 20]
    ensures { result ≡ law_bytes law.now step session }
{
    let [g0, g1, g2, g3, g4, g5, g6, g7] = law.seed.to_le_bytes();
    let [n0, n1, n2, n3] = session.to_le_bytes();
    let [e0, e1] = law.erased.to_le_bytes();
    let [q0, q1] = law.programmed.to_le_bytes();
    let [s0, s1] = law.spread.to_le_bytes();
    let [d0, d1] = step.to_le_bytes();
    [
        g0, g1, g2, g3, g4, g5, g6, g7, n0, n1, n2, n3, e0, e1, q0, q1, s0, s1, d0, d1,
    ]
}

fn write_sizes<O: Sink>(output: &mut O, head: &ImageHead) -> Result<(), Failed>
    requires { length head.now.read_levels < 2 ^ 8 }
    ensures { let levels = length head.now.read_levels in
        Writes O.written O.faults output.old output.new result (size_bytes (sizes_of head.now.shape) levels head.now.iterations) }
{
    let levels = head.read_levels.len() as u8;
    put(output, &spell_sizes(&head.shape, levels, head.iterations))
}

fn write_law<O: Sink>(output: &mut O, head: &ImageHead) -> Result<(), Failed>
    ensures { Writes O.written O.faults output.old output.new result (law_bytes head.now.law head.now.step head.now.session) }
{
    put(output, &spell_law(&head.law, head.step, head.session))
}

// The fields of fixed places.
#[tactic(auto, unfolding(crate::specs::HeadBytes::fixed_bytes))]
fn write_fixed<O: Sink>(output: &mut O, head: &ImageHead) -> Result<(), Failed>
    requires { length head.now.read_levels < 2 ^ 8 }
    ensures { Writes O.written O.faults output.old output.new result (fixed_bytes (head_of head.now)) }
{
    write_sizes(output, head)?;
    write_law(output, head)
}

fn write_levels<O: Sink>(output: &mut O, head: &ImageHead) -> Result<(), Failed>
    ensures { Writes O.written O.faults output.old output.new result (flat_map bytes_of_signed head.now.read_levels) }
{
    write_numbers(output, head.read_levels.as_slice())
}

fn write_entries<O: Sink>(output: &mut O, head: &ImageHead) -> Result<(), Failed>
    ensures { Writes O.written O.faults output.old output.new result (flat_map bytes_of_signed head.now.entries) }
{
    write_numbers(output, head.entries.as_slice())
}

// The read levels and the base matrix.
#[tactic(auto, unfolding(crate::specs::HeadBytes::code_bytes))]
fn write_code<O: Sink>(output: &mut O, head: &ImageHead) -> Result<(), Failed>
    ensures { Writes O.written O.faults output.old output.new result (code_bytes (head_of head.now)) }
{
    write_levels(output, head)?;
    write_entries(output, head)
}

fn write_weak_of<O: Sink>(output: &mut O, head: &ImageHead) -> Result<(), Failed>
    requires { length head.now.weak < 2 ^ 16 }
    ensures { Writes O.written O.faults output.old output.new result (weak_list_bytes head.now.weak) }
{
    write_weak_list(output, head.weak.as_slice())
}

fn write_bad_of<O: Sink>(output: &mut O, head: &ImageHead) -> Result<(), Failed>
    requires { length head.now.bad < 2 ^ 16 }
    ensures { Writes O.written O.faults output.old output.new result (bad_list_bytes head.now.bad) }
{
    write_bad_list(output, head.bad.as_slice())
}

// The weak and the factory bad blocks.
#[tactic(auto, unfolding(crate::specs::HeadBytes::block_bytes))]
fn write_blocks<O: Sink>(output: &mut O, head: &ImageHead) -> Result<(), Failed>
    requires weak { length head.now.weak < 2 ^ 16 }
    requires bad { length head.now.bad < 2 ^ 16 }
    ensures { Writes O.written O.faults output.old output.new result (block_bytes (head_of head.now)) }
{
    write_weak_of(output, head)?;
    write_bad_of(output, head)
}

// Whether contents follow.
fn write_contents<O: Sink>(output: &mut O, full: bool) -> Result<(), Failed>
    ensures { Writes O.written O.faults output.old output.new result (to_le_bytes w8 (if full then 1 else 0)) }
{
    put(output, if full { &[1] } else { &[0] })
}

// The head, part by part.
fn write_parts<O: Sink>(output: &mut O, head: &ImageHead) -> Result<(), Failed>
    requires { IsHead (head_of head.now) }
    ensures { Writes O.written O.faults output.old output.new result (head_bytes (head_of head.now)) }
{
    write_fixed(output, head)?;
    write_code(output, head)?;
    write_blocks(output, head)?;
    write_contents(output, head.full)
}

/// Writes the head of an image, in the second version, as it is, with its session and with what it says of contents. It takes no memory.
pub fn write_head<O: Sink>(output: &mut O, head: &ImageHead) -> Result<(), Failed>
    requires { IsHead (head_of head.now) }
    ensures all { OnOk result (Appends (O.written output.old) (O.written output.new) (head_bytes (head_of head.now))) }
    ensures front { OnErr result (AppendsFront (O.written output.old) (O.written output.new) (head_bytes (head_of head.now))) }
    ensures cause { MatchesCount (O.faults output.old) (O.faults output.new) result }
{
    write_parts(output, head)
}
