//! Sweeping: white members are freed, black ones become white
//! (docs/architecture.md, "Mark and sweep").

ghost use Rattle.rg_trace.specs.Sweeping.{IsMarked, Sweeps};

use rg_cells::Cells;
use rg_regions::Regions;

/// Frees the white members of a region.
pub fn sweep(cells: &mut Cells, regions: &mut Regions, key: usize)
    requires { IsMarked cells.old regions.old key }
    ensures { Sweeps cells.old regions.old key cells.new regions.new 0 }
{
    for place in (0..regions.members(key).len()).rev() {
        let slot = regions.members(key)[place];
        if cells.mark(slot) == 0 {
            cells.free(slot);
            regions.drop_member(key, place);
        } else {
            cells.set_mark(slot, 0);
        }
    }
}
