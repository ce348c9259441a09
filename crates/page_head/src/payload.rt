ghost use Rattle.std.specs.Prelude.{◌≡◌, ◌≤◌, length, option_copied};
ghost use Rattle.ssd_geo.specs.Coding.{word_bytes_in};
ghost use Rattle.ssd_geo.specs.Limits.{payload_bytes_of};
ghost use Rattle.ssd_geo.specs.PageHead.{are_zeros, data_of_word, head_of_page, payload_of_page};
ghost use Rattle.ssd_geo.specs.Shape.{sizes_of};

use byteorder::{ByteOrder, LittleEndian};
use ssd_geo::Shape;

// The bytes of a head: a serial of eight, a row of four, and the mark.
const HEAD: usize = 16;

// The head of a page.
fn head_of(serial: u64, row: u32) -> [u8; HEAD]
    ensures bytes { result ≡ head_of_page serial row }
    ensures length { length result ≡ HEAD }
{
    let mut head = *b"............PGE1";
    LittleEndian::write_u64(&mut head[..8], serial);
    LittleEndian::write_u32(&mut head[8..12], row);
    head
}

/// Writes the payload of a page: its head, its data bytes, and zeros up to the payload's length.
pub fn payload_into(shape: &Shape, serial: u64, row: u32, bytes: &[u8], out: &mut [u8])
    requires bytes { length bytes.now ≡ shape.now.bytes }
    requires out { length out.old ≡ payload_bytes_of (sizes_of shape.now) }
    ensures { out.new
        ≡ payload_of_page (payload_bytes_of (sizes_of shape.now)) serial row bytes.now }
{
    // The limits of a shape leave room for a head beside the data bytes.
    let (head, rest) = out.split_at_mut(HEAD);
    let (data, zeros) = rest.split_at_mut(bytes.len());
    head.copy_from_slice(&head_of(serial, row));
    data.copy_from_slice(bytes);
    zeros.fill(0);
}

fn is_zeros(bytes: &[u8]) -> bool
    ensures { result ≡ are_zeros bytes.now }
{
    bytes.iter().all(|byte| *byte == 0)
}

/// The data bytes of a word, where it begins with a payload of this serial and row.
pub fn payload_of<'a>(shape: &Shape, word: &'a [u8], serial: u64, row: u32) -> Option<&'a [u8]>
    requires { length word.now ≡ word_bytes_in shape.now }
    ensures { option_copied result
        ≡ data_of_word (payload_bytes_of (sizes_of shape.now)) shape.now.bytes serial row word.now }
{
    let data_end = HEAD + shape.bytes as usize;
    let rest = &word[data_end..shape.payload_bytes()];
    if word.starts_with(&head_of(serial, row)) && is_zeros(rest) {
        Some(&word[HEAD..data_end])
    } else {
        None
    }
}
