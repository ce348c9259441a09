use ldpc_decode::{Decoder, Outcome};
use retry_ladder::Decode;

// A decoder of a code with checks.
#[derive(Drop)]
pub struct CheckedWord {
    pub decoder: Decoder,
}

impl Decode for CheckedWord {
    ghost matrix = { λ a. a.decoder.code };

    ghost limit = { λ a. a.decoder.limit };

    fn failed(&self, bits: &[u8]) -> u32 {
        self.decoder.code().failed_checks(bits)
    }

    fn decode(&mut self, values: &[i8], word: &mut [u8]) -> Option<u8> {
        match self.decoder.decode(values, word) {
            Outcome::Found { iterations } => Some(iterations),
            Outcome::NotFound => None,
        }
    }
}
