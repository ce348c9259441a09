// The decoder of a drive's pages, as a ladder uses it.
ghost use Rattle.std.specs.Prelude.{◌≡◌};

use ldpc_decode::{Decoder, Outcome};
use qc_matrix::Code;
use retry_ladder::Decode;

/// A decoder of one code.
#[derive(Drop)]
pub struct PageDecoder {
    pub decoder: Decoder,
}

impl PageDecoder {
    /// The code that is decoded.
    pub fn code(&self) -> &Code
        ensures { result.now ≡ self.now.decoder.code }
    {
        self.decoder.code()
    }
}

impl Decode for PageDecoder {
    ghost matrix = { λ a. a.decoder.code };

    ghost limit = { λ a. a.decoder.limit };

    fn failed(&self, bits: &[u8]) -> u32 {
        self.decoder.code().failed_checks(bits)
    }

    fn decode(&mut self, values: &[i8], word: &mut [u8]) -> Option<u8> {
        match self.decoder.decode(values, word) {
            Outcome::Found { iterations } => Some(iterations),
            Outcome::NotFound => None,
        }
    }
}
