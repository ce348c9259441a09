// The head of the generated image.
ghost use Rattle.std.specs.Prelude.{◌≡◌, OnOk};
ghost use Rattle.ssd_formats.specs.GeneratedWork.{generated_head};
ghost use Rattle.ssd_formats.specs.ImageHead.{first_head_bytes};
ghost use Rattle.ssd_geo.specs.Noise.{state_after};
ghost use Rattle.ssd_gen.specs.HeadParts.{head_start, head_end, words_of_matrix};
ghost use Rattle.ssd_io.specs.Writes.{Writes};

use crate::matrix::put_matrix;
use crate::put::put;
use rand_xoshiro::SplitMix64;
use ssd_io::{Failed, Sink};

// The bytes before the base matrix: the sizes, the numbers of read levels and iterations, and the data bytes and
// rows; then the seed, the session, the levels of cells, their spread and the soft step; then the read levels.
#[tactic(auto, unfolding(crate::specs::HeadParts::head_start))]
fn spell_start(number: u32) -> [u8; 56]
    ensures { result ≡ head_start number }
{
    let [z0, z1] = 512u16.to_le_bytes();
    let [d0, d1, d2, d3] = 4096u32.to_le_bytes();
    let [l0, l1, l2, l3] = 672u32.to_le_bytes();
    let [g0, g1, g2, g3] = number.to_le_bytes();
    let [e0, e1] = (-60i16).to_le_bytes();
    let [v0, v1] = (-8i16).to_le_bytes();
    let [w0, w1] = (-16i16).to_le_bytes();
    let [x0, x1] = (-24i16).to_le_bytes();
    [
        b'S', b'S', b'D', b'I', b'M', b'G', b'0', b'1', 2, 4, 16, 0, 16, 0, z0, z1, 8, 73, 4, 20,
        d0, d1, d2, d3, l0, l1, l2, l3, g0, g1, g2, g3, 0, 0, 0, 0, 0, 0, 0, 0, e0, e1, 60, 0, 44,
        0, 4, 0, 0, 0, v0, v1, w0, w1, x0, x1,
    ]
}

fn put_start<O: Sink>(output: &mut O, number: u32) -> Result<(), Failed>
    ensures { Writes O.written O.faults output.old output.new result (head_start number) }
{
    put(output, &spell_start(number))
}

// No weak block, no factory bad superblock and no contents.
fn put_end<O: Sink>(output: &mut O) -> Result<(), Failed>
    ensures { Writes O.written O.faults output.old output.new result head_end }
{
    put(output, &[0; 5])
}

/// Writes the image, with the first words of the number's generator, and leaves it before the next.
pub fn put_image<O: Sink>(output: &mut O, noise: &mut SplitMix64, number: u32) -> Result<(), Failed>
    requires { noise.old ≡ number }
    ensures image { Writes O.written O.faults output.old output.new result
        (first_head_bytes (generated_head number)) }
    ensures noise { OnOk result (noise.new ≡ state_after number words_of_matrix) }
{
    put_start(output, number)?;
    put_matrix(output, noise)?;
    put_end(output)
}
