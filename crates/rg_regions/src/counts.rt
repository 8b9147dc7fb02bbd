//! The count of a cell of a counting region is its mark (docs/architecture.md, "Regions").

ghost use Rattle.std.specs.Prelude.{◌≡◌, ◌+◌, ◌-◌, ◌<◌, ◌^◌, slice_set, length};
ghost use Rattle.rg_cells.specs.Table.{IsHeld, mark_at};

use rg_cells::Cells;

/// One field more leads to a cell: its count rises by one.
pub fn added(cells: &mut Cells, slot: usize)
    requires held { IsHeld cells.old.heap slot }
    requires below { mark_at cells.old slot < 2 ^ 64 - 1 }
    ensures set { cells.new
        ≡ record cells.old { marks = slice_set cells.old.marks slot (mark_at cells.old slot + 1) } }
    ensures within { slot < length cells.old.marks }
{
    let count = cells.mark(slot);
    cells.set_mark(slot, count + 1);
}

/// One field less leads to a cell: its count falls by one.
pub fn removed(cells: &mut Cells, slot: usize)
    requires held { IsHeld cells.old.heap slot }
    requires above { 0 < mark_at cells.old slot }
    ensures set { cells.new
        ≡ record cells.old { marks = slice_set cells.old.marks slot (mark_at cells.old slot - 1) } }
    ensures within { slot < length cells.old.marks }
{
    let count = cells.mark(slot);
    cells.set_mark(slot, count - 1);
}
