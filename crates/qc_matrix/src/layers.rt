ghost use Rattle.std.specs.Prelude.{◌≡◌, ◌<◌, ◌++◌, IfOk, OnOk, map, option_to_list};
ghost use Rattle.std.specs.List.{range_with_len};
ghost use Rattle.ssd_geo.specs.BaseMatrix.{IsWithinLimits, layer_of, range_fault};
ghost use Rattle.qc_matrix.specs.Entries.{matrix_of};

use super::entries::Entries;
use std::alloc::{AllocError, Global};

// Adds a block, if there is one.
fn push_some(blocks: &mut Vec<(u16, u16)>, block: Option<(u16, u16)>) -> Result<(), AllocError>
    ensures { OnOk result (blocks.new.items ≡ blocks.old.items ++ option_to_list block) }
{
    if let Some(block) = block {
        blocks.push(block)?;
    }
    Ok(())
}

// The blocks of base row i that aren't zero.
pub fn layer_of_row(alloc: Global, entries: &Entries, i: u8) -> Result<Vec<(u16, u16)>, AllocError>
    requires row { i < entries.now.mb }
    requires limits { IsWithinLimits (matrix_of entries.now) }
    ensures { IfOk result (λ blocks. blocks.items ≡ layer_of (matrix_of entries.now) i) }
{
    let mut blocks = Vec::new(alloc);
    for column in 0..entries.nb {
        push_some(&mut blocks, entries.block(i, column))?;
    }
    Ok(blocks)
}

// The layers of all base rows, in order.
pub fn layers_of(alloc: Global, entries: &Entries) -> Result<Vec<Vec<(u16, u16)>>, AllocError>
    requires { IsWithinLimits (matrix_of entries.now) }
    ensures { IfOk result
        (λ layers. map (λ layer. layer.items) layers.items
        ≡ map (layer_of (matrix_of entries.now)) (range_with_len 0 entries.now.mb)) }
{
    let mut layers = Vec::with_capacity(alloc, entries.mb as usize)?;
    for i in 0..entries.mb {
        layers.push(layer_of_row(alloc, entries, i)?)?;
    }
    Ok(layers)
}
