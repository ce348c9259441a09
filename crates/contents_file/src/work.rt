ghost use Rattle.std.specs.Prelude.{◌≡◌, ◌*◌, IfOk, vec_len};
ghost use Rattle.ssd_geo.specs.Limits.{page_cells_of};
ghost use Rattle.ssd_geo.specs.Shape.{sizes_of};

use ssd_geo::{Memory, Shape};
use std::alloc::Global;

/// Room for one page on its way from a die to an image: its levels, and the bytes that spell them.
#[derive(Drop)]
pub struct PageWork {
    pub(crate) levels: Vec<i16>,
    pub(crate) bytes: Vec<u8>,
    ghost both: { vec_len bytes ≡ 2 * vec_len levels },
}

impl PageWork {
    /// Takes the memory for the pages of a drive of a shape.
    pub fn new(alloc: Global, shape: &Shape) -> Result<PageWork, Memory>
        ensures { IfOk result (λ work. vec_len work.levels ≡ page_cells_of (sizes_of shape.now)) }
    {
        let cells = 8 * shape.word_bytes();
        let levels = vec![in alloc; 0; cells].map_err(|_| Memory)?;
        let bytes = vec![in alloc; 0; 2 * cells].map_err(|_| Memory)?;
        Ok(PageWork { levels, bytes })
    }
}
