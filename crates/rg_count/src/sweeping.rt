//! Sweeping: members without a count and a flag are freed
//! (docs/architecture.md, "Counting").

ghost use Rattle.std.specs.Prelude.{◌≡◌, Some, length};
ghost use Rattle.rg_regions.specs.Table.{Record, record_at};
ghost use Rattle.rg_count.specs.Inner.Sweeping.{Swept, Sweeps};

use crate::down::is_root;
use rg_cells::Cells;
use rg_regions::Regions;

/// Frees the members of a region that have no count and no flag.
pub fn sweep(cells: &mut Cells, regions: &mut Regions, key: usize)
    requires { (r : Record) × (record_at regions.old key ≡ Some r)
        × Swept cells.old r.number r.members (length r.members) cells.old }
    ensures { Sweeps cells.old regions.old key cells.new regions.new 0 }
{
    for place in (0..regions.members(key).len()).rev() {
        let slot = regions.members(key)[place];
        if cells.mark(slot) != 0 {
            continue;
        }
        if is_root(cells, slot) {
            continue;
        }
        cells.free(slot);
        regions.drop_member(key, place);
    }
}
