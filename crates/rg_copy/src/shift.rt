//! The cells of a region go where their links say
//! (docs/architecture.md, "A manager that moves its cells").

ghost use Rattle.std.specs.Prelude.{length};
ghost use Rattle.rg_regions.specs.Grove.{Members};
ghost use Rattle.rg_copy.specs.Inner.Plans.{Rises};
ghost use Rattle.rg_copy.specs.Inner.Shifts.{Downward, Shifts};

use rg_cells::Cells;

/// From the lowest up, each cell with a link changes places with what stands where it goes.
pub fn shift(cells: &mut Cells, members: &[usize], region: u64)
    requires members { Members cells.old.heap region members.now }
    requires rise { Rises members.now }
    requires plan { Downward cells.old.heap region cells.old }
    ensures { Shifts cells.old region members.now (length members.now) cells.new }
{
    for slot in members {
        match cells.link(*slot) {
            Some(to) => cells.exchange(*slot, to),
            None => {}
        }
    }
}
