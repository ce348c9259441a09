ghost use Rattle.std.specs.Prelude.{◌≡◌, ◌+◌, ◌*◌, ◌/◌, ◌^◌, ◌<◌, ◌≤◌, ℕ, false, length};
ghost use Rattle.ssd_geo.specs.BaseMatrix.{IsAccepted, message_columns};
ghost use Rattle.ssd_geo.specs.Codewords.{payload_bits};
ghost use Rattle.ssd_geo.specs.Bits.{bit_of};
ghost use Rattle.ssd_bits.specs.Runs.{AddsBits};
ghost use Rattle.ldpc_encode.specs.Encoding.{low_bit, message_sum_bit};

use qc_matrix::Code;
use ssd_bits::rotate_xor_into;

// Adds a block of the message, turned, if the block stands in one of the message's columns.
fn add_block(sum: &mut [u8], payload: &[u8], columns: usize, z: usize, block: (u16, u16))
    requires turned { block.1 < z }
    requires sum_room { z ≤ 8 * length sum.old }
    requires payload_room { columns * z ≤ 8 * length payload.now }
    requires small { columns * z < 2 ^ 32 }
    ensures { AddsBits sum.old sum.new 0 z (λ r. low_bit columns z payload.now r block) }
{
    let (column, shift) = (block.0 as usize, block.1 as usize);
    if column < columns {
        rotate_xor_into(sum, 0, payload, column * z, z, shift);
    }
}

// Adds the sum of base row i over the message.
pub fn add_message_sum(code: &Code, i: u8, payload: &[u8], sum: &mut [u8])
    requires row { i < code.now.mb }
    requires whole { length payload.now ≡ (payload_bits code.now + 7) / 8 }
    requires room { code.now.z ≤ 8 * length sum.old }
    ensures { AddsBits sum.old sum.new 0 code.now.z (message_sum_bit code.now payload.now i) }
{
    let z = code.z() as usize;
    let columns = (code.nb() - code.mb()) as usize;
    for &block in code.layer(i) {
        add_block(sum, payload, columns, z, block);
    }
}

// Begins a word with a message of some bits, and 0 in all bits after it.
pub fn copy_message(payload: &[u8], bits: usize, out: &mut [u8])
    requires small { bits < 2 ^ 32 }
    requires whole { length payload.now ≡ (bits + 7) / 8 }
    requires room { length payload.now ≤ length out.old }
    ensures message { (v : ℕ) → v < bits → bit_of out.new v ≡ bit_of payload.now v }
    ensures rest { (v : ℕ) → bits ≤ v → bit_of out.new v ≡ false }
{
    out.fill(0);
    let whole = bits / 8;
    for i in 0..whole {
        out[i] = payload[i];
    }
    if bits % 8 > 0 {
        rotate_xor_into(out, 8 * whole, payload, 8 * whole, bits % 8, 0);
    }
}
