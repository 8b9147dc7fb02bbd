//! The fields of moved cells are counted (docs/architecture.md, "Freeze and merge").

ghost use Rattle.std.specs.Prelude.{◌≡◌, ◌<◌, ◌^◌, ℕ, Some, cond, length, slice_index};
ghost use Rattle.rg_cells.specs.Table.{IsHeld, body_at, field_at};
ghost use Rattle.rg_regions.specs.Reach.{LiesIn};
ghost use Rattle.rg_regions.specs.Grove.{leads_to};
ghost use Rattle.rg_regions.specs.Chains.{LeadsToHeld};
ghost use Rattle.rg_move.specs.Counted.{led, led_by, Grown, HasRoomFor};
ghost use Rattle.rg_move.specs.Counted.{Counts};

use rg_base::{Label, Manager, Word};
use rg_cells::Cells;
use rg_regions::added;

/// A field of a region's cell is counted, where it leads to a cell of the region.
fn count_word(cells: &mut Cells, region: u64, w: Word)
    requires held { (s : ℕ) → w ≡ Word.Slot s → IsHeld cells.old.heap s }
    requires room { HasRoomFor region cells.old (λ x. cond (leads_to x w) 1 0) }
    ensures { Grown region cells.old (λ x. cond (leads_to x w) 1 0) cells.new }
{
    let Word::Slot(to) = w else {
        return;
    };
    let Label::Region(number) = cells.label(to) else {
        return;
    };
    if number != region {
        return;
    }
    added(cells, to);
}

/// The fields of a cell are counted.
fn count_fields(cells: &mut Cells, region: u64, slot: usize)
    requires held { IsHeld cells.old.heap slot }
    requires lead { (k s : ℕ) → field_at cells.old.heap slot k ≡ Some (Word.Slot s)
        → IsHeld cells.old.heap s }
    requires room { HasRoomFor region cells.old (λ x. led x (body_at cells.old.heap slot)) }
    ensures { Grown region cells.old (λ x. led x (body_at cells.old.heap slot)) cells.new }
{
    for k in 0..cells.field_count(slot) {
        let w = cells.field(slot, k);
        count_word(cells, region, w);
    }
}

/// The fields of a region's cells are counted, where its manager counts.
pub fn count_members(cells: &mut Cells, members: &[usize], region: u64, manager: Manager)
    requires lie { (j : ℕ) → j < length members.now
        → LiesIn cells.old.heap region (slice_index members.now j) }
    requires lead { LeadsToHeld cells.old.heap region }
    requires room { manager ≡ Manager.Count
        → HasRoomFor region cells.old (led_by cells.old.heap members.now) }
    ensures { Counts manager region cells.old members.now cells.new }
{
    let Manager::Count = manager else {
        return;
    };
    for slot in members {
        count_fields(cells, region, *slot);
    }
}
