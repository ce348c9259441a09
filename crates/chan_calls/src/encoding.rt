// The encoding of a page, codeword by codeword.
ghost use Rattle.std.specs.Prelude.{◌≡◌, length};
ghost use Rattle.retry_ladder.specs.Decoder.{IsCodeOf};
ghost use Rattle.ssd_geo.specs.Coding.{word_bytes_in};
ghost use Rattle.ssd_geo.specs.Limits.{code_bytes_of, payload_bytes_of};
ghost use Rattle.ssd_geo.specs.PageWord.{word_of};
ghost use Rattle.ssd_geo.specs.Shape.{sizes_of};

use ldpc_encode::encode_into;
use page_head::put_part;
use qc_matrix::Code;
use ssd_geo::Shape;

/// Writes the page's word of a payload. With several codewords a page, `one` is room for each of
/// them; a single one is the page's word, and is encoded straight into it.
pub fn encode_page(shape: &Shape, code: &Code, payload: &[u8], one: &mut [u8], word: &mut [u8])
    requires code_of { IsCodeOf shape.now code.now }
    requires payload { length payload.now ≡ payload_bytes_of (sizes_of shape.now) }
    requires one { length one.old ≡ code_bytes_of (sizes_of shape.now) }
    requires word { length word.old ≡ word_bytes_in shape.now }
    ensures { word.new ≡ word_of (sizes_of shape.now) code.now payload.now }
{
    if shape.words == 1 {
        encode_into(code, payload, word);
    } else {
        encode_parts(shape, code, payload, one, word);
    }
}

// Encodes each part of a payload, and puts its codeword into its place of the page's word.
fn encode_parts(shape: &Shape, code: &Code, payload: &[u8], one: &mut [u8], word: &mut [u8])
    requires code_of { IsCodeOf shape.now code.now }
    requires payload { length payload.now ≡ payload_bytes_of (sizes_of shape.now) }
    requires one { length one.old ≡ code_bytes_of (sizes_of shape.now) }
    requires word { length word.old ≡ word_bytes_in shape.now }
    ensures { word.new ≡ word_of (sizes_of shape.now) code.now payload.now }
{
    let part_bytes = (shape.nb - shape.mb) as usize * shape.z as usize / 8;
    for f in 0..shape.words {
        let first = f as usize * part_bytes;
        encode_into(code, &payload[first..first + part_bytes], one);
        put_part(shape, one, f, word);
    }
}
