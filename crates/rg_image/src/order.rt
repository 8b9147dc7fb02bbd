//! What the objects of a content are tested for one behind the other, in one pass
//! (docs/architecture.md, "Images").

ghost use Rattle.std.specs.Prelude.{◌≡◌, ◌&&◌, ◌==◌, ℕ, suc, true, length, option_map};
ghost use Rattle.std.specs.List.{list_all};
ghost use Rattle.rg_cown.specs.declared.cargo.CargoCell.{CargoCell as CargoCellOf};
ghost use Rattle.rg_cown.specs.Cargo as cargo;
ghost use Rattle.rg_cown.specs.Cargo.{label_of, is_in, comes_to, named_from, regions_named};
ghost use Rattle.rg_image.specs.declared.order.Last.{Last as LastOf};
ghost use Rattle.rg_image.specs.Inner.Order.{pass};

use crate::frozen::frozen_fits;
use crate::numbered::{named_in, region_named};
use rg_base::Manager;
use rg_cown::CargoCell;

// The last object and the last region that are numbered.
#[derive(Clone, Copy)]
struct Last {
    object: u64,
    region: u64,
}

// The last ones that are numbered behind an object; none where one is passed over, the object comes
// before it is named, or it is frozen and leads to one that isn't.
#[inline(always)]
fn behind(cells: &[CargoCell], place: usize, last: Last, cell: &CargoCell) -> Option<Last>
    ensures { option_map (λ (l : LastOf). (suc l.object, suc l.region)) result
        ≡ pass cells.now place (suc last.object) (suc last.region) cell.now }
{
    if place as u64 > last.object {
        return None;
    }
    let fields = &cell.fields;
    let Some(object) = named_in(last.object, fields) else {
        return None;
    };
    let Some(region) = region_named(last.region, cell.label) else {
        return None;
    };
    if !frozen_fits(cells, cell.label, fields) {
        return None;
    }
    Some(Last { object, region })
}

// Whether so many are numbered up to the last one.
fn is_last(count: usize, last: u64) -> bool
    ensures { result ≡ (suc last == count) }
{
    let Some(most) = count.checked_sub(1) else {
        return false;
    };
    most as u64 == last
}

/// Whether each object but the first is named in front of it, and is numbered as it is mentioned;
/// whether there are as many regions as managers, numbered by their first objects; and whether each
/// frozen object leads to frozen ones alone.
#[inline(never)]
pub(crate) fn are_in_order(cells: &[CargoCell], managers: &[Manager]) -> bool
    requires { is_in 0 (label_of cells.now 0) ≡ true }
    ensures { result ≡ (comes_to (length cells.now) (named_from 0 1 cells.now)
        && comes_to (length managers.now) (regions_named 0 cells.now)
        && list_all (λ (x : CargoCellOf). cargo.frozen_fits cells.now x.label x.fields) cells.now) }
{
    let mut last = Last {
        object: 0,
        region: 0,
    };
    for k in 0..cells.len() {
        let Some(next) = behind(cells, k, last, &cells[k]) else {
            return false;
        };
        last = next;
    }
    if !is_last(cells.len(), last.object) {
        return false;
    }
    is_last(managers.len(), last.region)
}
