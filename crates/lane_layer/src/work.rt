ghost use Rattle.std.specs.Prelude.{◌≡◌, IfOk};

use ssd_geo::Memory;
use std::alloc::Global;
use std::marker::Model;

/// The memory in which layers are worked. Contracts see for which lifting size and for how many blocks it is made.
#[derive(Drop)]
pub struct LaneWork {
    z: u16,
    degree: u16,
    pub(crate) given: Vec<u8>,
    pub(crate) told: Vec<u8>,
}

impl Model for LaneWork {
    ghost use Rattle.lane_layer.specs.WorkSize.{WorkSize};
    ghost use Rattle.std.specs.Prelude.{◌≡◌, ◌*◌, length};

    ghost Value = { WorkSize };

    ghost view = { λ a. record { z = a.z; degree = a.degree } };

    ghost invariant = { λ a. (length a.given.items ≡ a.degree * a.z) × (length a.told.items ≡ a.degree * a.z) };
}

impl LaneWork {
    /// Takes the memory for layers of this lifting size with at most so many blocks.
    pub fn new(alloc: Global, z: u16, degree: u16) -> Result<LaneWork, Memory>
        ensures { IfOk result (λ work. work ≡ record { z = z; degree = degree }) }
    {
        let codes = usize::from(degree) * usize::from(z);
        let given = vec![in alloc; 0u8; codes].map_err(|_| Memory)?;
        let told = vec![in alloc; 0u8; codes].map_err(|_| Memory)?;
        Ok(LaneWork {
            z,
            degree,
            given,
            told,
        })
    }
}
