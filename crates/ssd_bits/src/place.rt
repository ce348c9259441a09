// Bits that one word takes at any place: seven bytes, so that the bit within its byte stays from step to step.
pub const STEP: usize = 56;

// A bit of a byte list, as a byte and a bit from there on. So no place is out of a `usize`'s range.
#[derive(Clone, Copy)]
pub struct BitPlace {
    pub byte: usize,
    pub bit: usize,
}

impl BitPlace {
    ghost use Rattle.std.specs.Prelude.{◌≡◌, ◌+◌, ◌*◌, ◌<◌, ◌≤◌, ◌^◌, ◌⊎◌};
    ghost use Rattle.ssd_bits.specs.BitPlace.{bit_number};

    // The place some bits after the bit with a number.
    pub fn after(at: usize, bits: usize) -> BitPlace
        ensures place { bit_number result ≡ at + bits }
        ensures low { result.bit < 8 }
    {
        let bit = at % 8 + bits % 8;
        BitPlace {
            byte: at / 8 + bits / 8 + bit / 8,
            bit: bit % 8,
        }
    }

    // The same place, from a byte from which eight bytes stand in a list of `len` bytes.
    pub fn within(self, len: usize) -> BitPlace
        requires room { 8 ≤ len }
        requires low { self.bit < 8 }
        requires inside { bit_number self ≤ 8 * len }
        ensures place { bit_number result ≡ bit_number self }
        ensures window { result.byte + 8 ≤ len }
        ensures near { (result.bit < 8) ⊎ (result.byte + 8 ≡ len) }
    {
        let byte = self.byte.min(len - 8);
        BitPlace {
            byte,
            bit: self.bit + 8 * (self.byte - byte),
        }
    }

    // The place a step further on.
    pub fn next(self) -> BitPlace
        requires { self.byte + 7 < 2 ^ 64 }
        ensures place { bit_number result ≡ bit_number self + STEP }
        ensures bit { result.bit ≡ self.bit }
    {
        BitPlace {
            byte: self.byte + STEP / 8,
            bit: self.bit,
        }
    }
}
