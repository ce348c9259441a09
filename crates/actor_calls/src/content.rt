// The data bytes of a write.
ghost use Rattle.std.specs.Prelude.{◌≡◌, ◌≤◌, ◌-◌, ◌++◌, length, replicate};
ghost use Rattle.ctl.specs.Asked.{IsContentOf};
ghost use Rattle.ssd_formats.specs.TraceText.{content_bytes, generated_bytes};

use rand_core::{Rng, SeedableRng};
use rand_xoshiro::SplitMix64;
use ssd_geo::Content;

// The data bytes of a write: the bytes listed and zeros after them, or the first bytes of the words
// that a number starts.
pub fn content_into(content: &Content, out: &mut [u8])
    requires { IsContentOf (length out.old) content.now }
    ensures { out.new ≡ content_bytes (length out.old) content.now }
{
    match content {
        Content::Listed { list } => listed_into(list.as_slice(), out),
        Content::Words { number } => generated_into(*number, out),
    }
}

fn listed_into(list: &[u8], out: &mut [u8])
    requires { length list.now ≤ length out.old }
    ensures { out.new ≡ list.now ++ replicate (length out.old - length list.now) 0 }
{
    let (front, rest) = out.split_at_mut(list.len());
    front.copy_from_slice(list);
    rest.fill(0);
}

// Each word gives eight bytes, low byte first, and the last one only those that are still wanted.
fn generated_into(number: u64, out: &mut [u8])
    ensures { out.new ≡ generated_bytes (length out.old) number }
{
    SplitMix64::seed_from_u64(number).fill_bytes(out);
}
