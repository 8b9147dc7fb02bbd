//! The cells of a region go (docs/architecture.md, "Release").

ghost use Rattle.std.specs.Prelude.{ℕ, length};
ghost use Rattle.rg_regions.specs.Same.{AllHeld, AllDiffer};
ghost use Rattle.rg_release.specs.Inner.Turns.{FreedFirst};

use rg_cells::Cells;

/// Frees cells.
pub fn free_members(cells: &mut Cells, members: &[usize])
    requires held { AllHeld cells.old.heap members.now }
    requires once { AllDiffer members.now }
    ensures { FreedFirst cells.old members.now (length members.now) cells.new }
{
    for slot in members {
        cells.free(*slot);
    }
}
