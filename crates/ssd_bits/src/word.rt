ghost use Rattle.std.specs.Prelude.{◌≡◌, ℕ, ◌+◌, ◌*◌, ◌<◌, ◌≤◌, length};
ghost use Rattle.ssd_bits.specs.Runs.{AddsBits, is_one};
ghost use Rattle.ssd_geo.specs.Bits.{bit_of};

// The eight bytes from a place on, as one word: bit k of it is bit k from there.
pub fn word_at(bytes: &[u8], at: usize) -> u64
    requires { at + 8 ≤ length bytes.now }
    ensures { (k : ℕ) → k < 64 → is_one result k ≡ bit_of bytes.now (8 * at + k) }
{
    u64::from_le_bytes([
        bytes[at],
        bytes[at + 1],
        bytes[at + 2],
        bytes[at + 3],
        bytes[at + 4],
        bytes[at + 5],
        bytes[at + 6],
        bytes[at + 7],
    ])
}

// Adds a word to the eight bytes from a place on.
pub fn xor_word(bytes: &mut [u8], at: usize, word: u64)
    requires { at + 8 ≤ length bytes.old }
    ensures { AddsBits bytes.old bytes.new (8 * at) 64 (is_one word) }
{
    let sum = word_at(bytes, at) ^ word;
    bytes[at..at + 8].copy_from_slice(&sum.to_le_bytes());
}
