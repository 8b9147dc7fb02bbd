//! The regions that the cells of a region own (docs/architecture.md, "Regions").

ghost use Rattle.std.specs.Prelude.{◌≡◌, ℕ, Some, length};
ghost use Rattle.rg_cells.specs.Table.{IsHeld, body_at, field_at, width};
ghost use Rattle.rg_regions.specs.Table.{Record, record_at};
ghost use Rattle.rg_regions.specs.Chains.{AllInTable, LeadsToHeld, OwnsOnce};
ghost use Rattle.rg_regions.specs.Owned.{Every, FollowsFields, FollowsMembers};

use crate::chains::chain_word;
use crate::regions::Regions;
use rg_base::Word;
use rg_cells::Cells;

/// The regions into which the fields of a cell lead become heads of the chain, one by one.
fn chain_fields(
    cells: &Cells,
    regions: &mut Regions,
    region: u64,
    slot: usize,
    mut head: Option<usize>,
) -> Option<usize>
    requires held { IsHeld cells.now.heap slot }
    requires lead { (k s : ℕ) → field_at cells.now.heap slot k ≡ Some (Word.Slot s)
        → IsHeld cells.now.heap s }
    requires labels { AllInTable cells.now.heap regions.old }
    ensures { FollowsFields cells.now.heap Every region slot (width (body_at cells.now.heap slot))
        regions.old regions.new head result }
{
    for k in 0..cells.field_count(slot) {
        let w = cells.field(slot, k);
        head = chain_word(cells, regions, region, w, head);
    }
    head
}

/// Chains the regions that the cells of a region own, in front of those that are chained from
/// the head. Each field is read once.
pub fn chain_owned(
    cells: &Cells,
    regions: &mut Regions,
    key: usize,
    region: u64,
    mut head: Option<usize>,
) -> Option<usize>
    requires there { (r : Record) × (record_at regions.old key ≡ Some r)
        × OwnsOnce cells.now.heap region r.members }
    requires lead { LeadsToHeld cells.now.heap region }
    requires labels { AllInTable cells.now.heap regions.old }
    ensures { (r : Record) → record_at regions.old key ≡ Some r
        → FollowsMembers cells.now.heap region r.members (length r.members)
        regions.old regions.new head result }
{
    for place in 0..regions.members(key).len() {
        let slot = regions.members(key)[place];
        head = chain_fields(cells, regions, region, slot, head);
    }
    head
}
