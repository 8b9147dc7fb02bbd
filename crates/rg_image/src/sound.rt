//! Whether a list is the content of a closed region: `SoundCargo`, in two passes,
//! or in one where there is one region (docs/architecture.md, "Images").

ghost use Rattle.std.specs.Prelude.{◌≡◌, ◌==◌, IfOk, length};
ghost use Rattle.rg_cown.specs.Cargo as list;

use crate::entries::each_is_entered;
use crate::labels::{is_in, label_of};
use crate::order::are_in_order;
use rg_base::{Manager, Memory};
use rg_cown::Cargo;
use std::alloc::Global;

// Whether there is one region alone. Then each object is in it or frozen, so that no field enters
// it.
#[inline(always)]
fn is_one(managers: &[Manager]) -> bool
    ensures { result ≡ (length managers.now == 1) }
{
    managers.len() == 1
}

/// Whether a list is the content of a closed region.
pub(crate) fn is_sound(alloc: Global, cargo: &Cargo) -> Result<bool, Memory>
    ensures { IfOk result (λ yes. yes ≡ list.is_sound cargo.now) }
{
    let cells = cargo.cells();
    let managers = cargo.managers();
    if !is_in(0, label_of(cells, 0)) {
        return Ok(false);
    }
    if !are_in_order(cells, managers) {
        return Ok(false);
    }
    if is_one(managers) {
        return Ok(true);
    }
    each_is_entered(alloc, cells, managers)
}
