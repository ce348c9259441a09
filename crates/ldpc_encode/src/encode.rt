ghost use Rattle.std.specs.Prelude.{◌≡◌, ◌+◌, ◌*◌, ◌/◌, ◌<◌, ◌≤◌, ℕ, false, length};
ghost use Rattle.ssd_geo.specs.Bits.{bit_of};
ghost use Rattle.ldpc_encode.specs.Encoding.{AddsToParity, first_added, rows_sum_bit, sums_added};
ghost use Rattle.ssd_geo.specs.BaseMatrix.{IsAccepted};
ghost use Rattle.ssd_geo.specs.Codewords.{IsOnlyCodewordOf, code_of, payload_bits, word_bits};

use super::message::{add_message_sum, copy_message};
use super::parity::add_first;
use qc_matrix::Code;
use ssd_bits::rotate_xor_into;

/// Bytes of the greatest block, of a lifting size of 1,024.
const BLOCK_BYTES: usize = 128;

/// Writes the word of a payload: the one codeword that begins with it.
pub fn encode_into(code: &Code, payload: &[u8], out: &mut [u8])
    requires payload_bits { length payload.now ≡ (payload_bits code.now + 7) / 8 }
    requires word_bits { length out.old ≡ (word_bits code.now + 7) / 8 }
    ensures word { out.new ≡ code_of code.now payload.now }
    ensures only { IsOnlyCodewordOf code.now payload.now out.new }
{
    let z = code.z() as usize;
    let columns = (code.nb() - code.mb()) as usize;
    copy_message(payload, columns * z, out);
    let mut sum = [0; BLOCK_BYTES];
    add_sums(code, payload, out, &mut sum);
    add_first_parity(code, &sum, out);
}

// Adds to each parity block but the first the sum of the base rows before it, and leaves the sum of all rows.
fn add_sums(code: &Code, payload: &[u8], out: &mut [u8], sum: &mut [u8])
    requires payload_whole { length payload.now ≡ (payload_bits code.now + 7) / 8 }
    requires out_whole { length out.old ≡ (word_bits code.now + 7) / 8 }
    requires room { code.now.z ≤ 8 * length sum.old }
    requires blank { (r : ℕ) → r < code.now.z → bit_of sum.old r ≡ false }
    ensures added { AddsToParity code.now out.old out.new (sums_added code.now payload.now) }
    ensures sum { (r : ℕ) → r < code.now.z
        → bit_of sum.new r ≡ rows_sum_bit code.now payload.now code.now.mb r }
{
    let z = code.z() as usize;
    let columns = (code.nb() - code.mb()) as usize;
    for i in 0..code.mb() - 1 {
        add_message_sum(code, i, payload, sum);
        rotate_xor_into(out, (columns + (i as usize + 1)) * z, sum, 0, z, 0);
    }
    add_message_sum(code, code.mb() - 1, payload, sum);
}

// Adds the first parity block in its place, and to the others: turned, and once more after the middle row.
fn add_first_parity(code: &Code, first: &[u8], out: &mut [u8])
    requires whole { length out.old ≡ (word_bits code.now + 7) / 8 }
    requires room { code.now.z ≤ 8 * length first.now }
    ensures { AddsToParity code.now out.old out.new (first_added code.now first.now) }
{
    let z = code.z() as usize;
    let columns = (code.nb() - code.mb()) as usize;
    let shift = code.parity_shift() as usize;
    rotate_xor_into(out, columns * z, first, 0, z, 0);
    let mut middle = false;
    for t in 1..code.mb() {
        add_first(out, (columns + t as usize) * z, first, z, shift, middle);
        middle |= code.has_zero_shift(t);
    }
}
