ghost use Rattle.std.specs.Prelude.{◌≡◌, ◌<◌, ◌^◌, ◌≤◌};
ghost use Rattle.onfi_cmd.specs.Addresses.{block_of_row, level_of_params, page_of_row, params_of_level, row_of_page, stride_of};

use ssd_geo::Shape;

/// The row address of a page: the page's number, and above its bits the number of its block.
pub fn row_address(shape: &Shape, sb: u16, page: u16) -> u32
    requires block { sb < shape.now.superblocks }
    requires page { page < shape.now.pages }
    ensures row { result ≡ row_of_page shape.now.pages sb page }
    ensures bound { result < 2 ^ 24 }
    ensures same_block { block_of_row shape.now.pages result ≡ sb }
    ensures same_page { page_of_row shape.now.pages result ≡ page }
{
    u32::from(page) + u32::from(sb) * stride(shape.pages)
}

/// The block and the page of a row address.
pub fn row_place(shape: &Shape, row: u32) -> (u16, u16)
    requires block { block_of_row shape.now.pages row < shape.now.superblocks }
    requires page { page_of_row shape.now.pages row < shape.now.pages }
    ensures block { result.0 ≡ block_of_row shape.now.pages row }
    ensures page { result.1 ≡ page_of_row shape.now.pages row }
{
    let stride = stride(shape.pages);
    ((row / stride) as u16, (row % stride) as u16)
}

/// The four parameters that set the read level: its two bytes, low byte first, and two zeros.
pub fn level_params(level: i16) -> [u8; 4]
    ensures params { result ≡ params_of_level level }
    ensures same_level { level_of_params result ≡ level }
{
    let [low, high] = level.to_le_bytes();
    [low, high, 0, 0]
}

// The least power of two that is at least the number of pages.
fn stride(pages: u16) -> u32
    requires { pages ≤ 256 }
    ensures value { result ≡ stride_of pages }
    ensures low { pages ≤ result }
    ensures high { result ≤ 256 }
{
    match pages {
        0..=2 => 2,
        3..=4 => 4,
        5..=8 => 8,
        9..=16 => 16,
        17..=32 => 32,
        33..=64 => 64,
        65..=128 => 128,
        _ => 256,
    }
}
