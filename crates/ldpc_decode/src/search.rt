ghost use Rattle.std.specs.Prelude.{◌≡◌, ◌+◌, ◌/◌, ◌≤◌, All, length};
ghost use Rattle.ldpc_decode.specs.Answer.{IsAnswer};
ghost use Rattle.ldpc_decode.specs.View.{work_size};
ghost use Rattle.ssd_geo.specs.BaseMatrix.{IsAccepted};
ghost use Rattle.ssd_geo.specs.Bits.{bytes_of};
ghost use Rattle.ssd_geo.specs.Codewords.{is_codeword, word_bits};
ghost use Rattle.ssd_geo.specs.Decoding.{after_iterations, decided, decode, edge_count, layers_of};
ghost use Rattle.ssd_geo.specs.RowRule.{IsWithin};

use crate::decision::decide;
use crate::iteration::iterate;
use crate::{Lanes, Outcome};
use lane_layer::LaneWork;
use qc_matrix::Code;

/// Sets the numbers of the variables to what they are before the first iteration.
fn start(values: &[i8], p: &mut [i16])
    requires { length p.old ≡ length values.now }
    ensures { p.new ≡ values.now }
{
    for (i, value) in values.iter().enumerate() {
        p[i] = i16::from(*value);
    }
}

/// Writes the hard decision, and says whether it is a codeword.
fn is_decided(code: &Code, p: &[i16], decision: &mut [u8]) -> bool
    requires variables { length p.now ≡ word_bits code.now }
    requires room { length decision.old ≡ (word_bits code.now + 7) / 8 }
    ensures decision { decision.new ≡ bytes_of (decided p.now) }
    ensures answer { result ≡ is_codeword code.now (decided p.now) }
{
    decide(p, decision);
    code.is_codeword(decision)
}

/// Iterates until the hard decision is a codeword, at most `limit` times; `done` counts the iterations.
pub fn search(
    code: &Code,
    limit: u8,
    lanes: Lanes,
    values: &[i8],
    p: &mut [i16],
    r: &mut [i8],
    work: &mut LaneWork,
    decision: &mut [u8],
    word: &mut [u8],
    done: &mut u8,
) -> Outcome
    requires accepted { IsAccepted code.now }
    requires values_len { length values.now ≡ word_bits code.now }
    requires values_within { All (IsWithin 127) values.now }
    requires variables { length p.old ≡ word_bits code.now }
    requires edges { length r.old ≡ edge_count (layers_of code.now) code.now.z }
    requires size { work.old ≡ work_size code.now }
    requires decision_len { length decision.old ≡ (word_bits code.now + 7) / 8 }
    requires word_len { length word.old ≡ (word_bits code.now + 7) / 8 }
    requires count { done.old ≡ 0 }
    ensures answer { IsAnswer (decode code.now limit values.now) word.old result word.new }
    ensures bound { done.new ≤ limit }
    ensures same { work.new ≡ work.old }
{
    start(values, p);
    if is_decided(code, p, decision) {
        word.copy_from_slice(decision);
        return Outcome::Found { iterations: 0 };
    }
    r.fill(0);
    for before in 0..limit {
        iterate(code, lanes, p, r, work, done);
        if is_decided(code, p, decision) {
            word.copy_from_slice(decision);
            return Outcome::Found { iterations: *done };
        }
    }
    Outcome::NotFound
}
