//! Cells get another label (docs/architecture.md, "Freeze and merge").

ghost use Rattle.std.specs.Prelude.{length};
ghost use Rattle.rg_regions.specs.Same.{AllHeld, AllDiffer};
ghost use Rattle.rg_move.specs.Inner.Labels.{LabelledFirst};

use rg_base::Label;
use rg_cells::Cells;

/// Gives cells another label, and the mark 0.
pub fn label_members(cells: &mut Cells, members: &[usize], label: Label)
    requires held { AllHeld cells.old.heap members.now }
    requires once { AllDiffer members.now }
    ensures { LabelledFirst label cells.old members.now (length members.now) cells.new }
{
    for slot in members {
        cells.relabel(*slot, label);
        cells.set_mark(*slot, 0);
    }
}
