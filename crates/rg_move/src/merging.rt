//! The merge of a region into another one (docs/architecture.md, "Freeze and merge").

ghost use Rattle.std.specs.Prelude.{◌≡◌, Some, length, OnOk, OnErr};
ghost use Rattle.rg_cells.specs.Table.{high_of};
ghost use Rattle.rg_regions.specs.Table.{Record, record_at};
ghost use Rattle.rg_regions.specs.Grove.{Grove};
ghost use Rattle.rg_move.specs.Closed.{Closed};
ghost use Rattle.rg_move.specs.Merged.{CanTake, CellsMove, OthersStay, RecordsMerge};
ghost use Rattle.rg_move.specs.Inner.Moves.{PushedFirst, HasRoomToMove};

use crate::counting::count_members;
use crate::labels::label_members;
use rg_base::{Label, Memory};
use rg_cells::Cells;
use rg_regions::Regions;

/// The members of the one region come behind those of the other, which has room for them.
fn move_members(regions: &mut Regions, from: usize, into: usize)
    requires { HasRoomToMove regions.old from into }
    ensures { (a b : Record) → record_at regions.old from ≡ Some a
        → record_at regions.old into ≡ Some b
        → PushedFirst regions.old from into a b (length a.members) regions.new }
{
    for place in 0..regions.members(from).len() {
        let slot = regions.members(from)[place];
        regions.push_member(into, slot);
    }
}

/// Moves the cells of a closed region into another region, under whose manager they are from then
/// on, and removes the record of the first. Want of memory changes nothing. Time is linear in the
/// fields and cells of the region that is moved.
pub fn merge(
    cells: &mut Cells,
    regions: &mut Regions,
    from: usize,
    into: usize,
) -> Result<(), Memory>
    requires grove { Grove cells.old regions.old }
    requires closed { Closed cells.old.heap regions.old from }
    requires into { CanTake cells.old.heap regions.old from into }
    // which cells move, and what becomes of the records
    ensures moved { OnOk result (CellsMove cells.old regions.old cells.new from into) }
    ensures merged { OnOk result (RecordsMerge regions.old regions.new from into) }
    // all else stays
    ensures cells { OnOk result (OthersStay cells.old regions.old cells.new from) }
    ensures serials { cells.new.heap.next ≡ cells.old.heap.next }
    ensures high { high_of cells.new.heap ≡ high_of cells.old.heap }
    ensures numbers { regions.new.next ≡ regions.old.next }
    ensures err_cells { OnErr result (cells.new ≡ cells.old) }
    ensures err_regions { OnErr result (regions.new ≡ regions.old) }
    ensures grove { Grove cells.new regions.new }
{
    let number = regions.number(into);
    let manager = regions.manager(into);
    // all fields together can be counted
    let _ = cells.fields();
    regions.reserve(into, regions.members(from).len())?;
    label_members(cells, regions.members(from), Label::Region(number));
    count_members(cells, regions.members(from), number, manager);
    move_members(regions, from, into);
    regions.remove(from);
    Ok(())
}
