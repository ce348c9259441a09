ghost use Rattle.std.specs.Prelude.{◌≡◌, ◌≤◌, IfOk, OnErr, OnOk, drop, take, vec_len};

use onfi_cmd::Die;
use ssd_geo::Memory;
use std::alloc::Global;

/// Takes so many of the first dies out of a list.
pub fn take_first<D: Die>(alloc: Global, dies: &mut Vec<D>, count: usize) -> Result<Vec<D>, Memory>
    requires { count ≤ vec_len dies.old }
    ensures taken { IfOk result (λ taken. taken.items ≡ take count dies.old.items) }
    ensures left { OnOk result (dies.new.items ≡ drop count dies.old.items) }
    ensures err { OnErr result (dies.new.items ≡ dies.old.items) }
{
    let Ok(mut taken) = Vec::with_capacity(alloc, count) else {
        return Err(Memory);
    };
    for _ in 0..count {
        taken.push_reserved(dies.remove(0));
    }
    Ok(taken)
}
