ghost use Rattle.std.specs.Prelude.{◌≡◌, ◌≢◌, ◌<◌, ◌≤◌, ◌+◌, ◌*◌, ℕ, length};
ghost use Rattle.ssd_geo.specs.Coding.{word_bytes_in};
ghost use Rattle.ssd_geo.specs.Limits.{code_bytes_of, parity_bytes_of, part_bytes_of, payload_bytes_of};
ghost use Rattle.ssd_geo.specs.PageWord.{code_in};
ghost use Rattle.ssd_geo.specs.Shape.{sizes_of};

use ssd_geo::Shape;

// Where a codeword stands in a page's word: its part and its parity, each with its first byte and
// its length.
#[derive(Clone, Copy)]
struct Standing {
    part: usize,
    part_bytes: usize,
    parity: usize,
    parity_bytes: usize,
}

fn standing_of(shape: &Shape, f: u8) -> Standing
    requires { f < shape.now.words }
    ensures part { result.part ≡ f * part_bytes_of (sizes_of shape.now) }
    ensures part_bytes { result.part_bytes ≡ part_bytes_of (sizes_of shape.now) }
    ensures parity { result.parity
        ≡ payload_bytes_of (sizes_of shape.now) + f * parity_bytes_of (sizes_of shape.now) }
    ensures parity_bytes { result.parity_bytes ≡ parity_bytes_of (sizes_of shape.now) }
    ensures code { result.part_bytes + result.parity_bytes ≡ code_bytes_of (sizes_of shape.now) }
    ensures in_order { result.part + result.part_bytes ≤ result.parity }
    ensures within { result.parity + result.parity_bytes ≤ word_bytes_in shape.now }
{
    let part_bytes = (shape.nb - shape.mb) as usize * shape.z as usize / 8;
    let parity_bytes = shape.code_bytes() - part_bytes;
    Standing {
        part: f as usize * part_bytes,
        part_bytes,
        parity: shape.payload_bytes() + f as usize * parity_bytes,
        parity_bytes,
    }
}

/// Takes a codeword out of a page's word.
pub fn part_into(shape: &Shape, word: &[u8], part: u8, out: &mut [u8])
    requires word { length word.now ≡ word_bytes_in shape.now }
    requires part { part < shape.now.words }
    requires out { length out.old ≡ code_bytes_of (sizes_of shape.now) }
    ensures { out.new ≡ code_in (sizes_of shape.now) word.now part }
{
    let at = standing_of(shape, part);
    let (front, back) = out.split_at_mut(at.part_bytes);
    front.copy_from_slice(&word[at.part..at.part + at.part_bytes]);
    back.copy_from_slice(&word[at.parity..at.parity + at.parity_bytes]);
}

/// Puts a codeword into its place of a page's word, and leaves the others as they are.
pub fn put_part(shape: &Shape, code: &[u8], part: u8, word: &mut [u8])
    requires code { length code.now ≡ code_bytes_of (sizes_of shape.now) }
    requires part { part < shape.now.words }
    requires word { length word.old ≡ word_bytes_in shape.now }
    ensures put { code_in (sizes_of shape.now) word.new part ≡ code.now }
    ensures others { (f : ℕ) → f < shape.now.words → f ≢ part
        → code_in (sizes_of shape.now) word.new f ≡ code_in (sizes_of shape.now) word.old f }
    ensures length { length word.new ≡ length word.old }
{
    let at = standing_of(shape, part);
    word[at.part..at.part + at.part_bytes].copy_from_slice(&code[..at.part_bytes]);
    word[at.parity..at.parity + at.parity_bytes].copy_from_slice(&code[at.part_bytes..]);
}
