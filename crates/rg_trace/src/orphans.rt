//! The regions that the white members of a region own (docs/architecture.md, "Mark and sweep").

ghost use Rattle.std.specs.Prelude.{◌≡◌, ◌+◌, ℕ, Some, length, sum_by};
ghost use Rattle.rg_cells.specs.Table.{IsHeld, body_at, field_at, width};
ghost use Rattle.rg_regions.specs.Table.{Record, record_at};
ghost use Rattle.rg_regions.specs.Chains.{AllInTable, LeadsToHeld, OwnsOnce};
ghost use Rattle.rg_regions.specs.Owned.{FollowsFields};
ghost use Rattle.rg_trace.specs.Orphans.{IsWhite, FollowsWhite, if_white};

use rg_base::{Steps, Word};
use rg_cells::Cells;
use rg_regions::{Regions, chain_word};
use std::sync::ledger::Ledger;

/// The regions into which the fields of a white member lead become heads of the chain, one by one.
fn chain_fields<L: Ledger>(
    cells: &Cells,
    regions: &mut Regions,
    region: u64,
    slot: usize,
    mut head: Option<usize>,
    steps: &mut Steps<L>,
) -> Option<usize>
    requires held { IsHeld cells.now.heap slot }
    requires lead { (k s : ℕ) → field_at cells.now.heap slot k ≡ Some (Word.Slot s)
        → IsHeld cells.now.heap s }
    requires labels { AllInTable cells.now.heap regions.old }
    ensures fields { FollowsFields cells.now.heap (IsWhite cells.now.marks) region slot
        (width (body_at cells.now.heap slot)) regions.old regions.new head result }
    ensures cost { steps.new ≡ steps.old + width (body_at cells.now.heap slot) }
{
    for k in 0..cells.field_count(slot) {
        let w = cells.look(slot, k, steps);
        head = chain_word(cells, regions, region, w, head);
    }
    head
}

/// Chains the regions that the white members of a region own.
pub fn chain_orphans<L: Ledger>(
    cells: &Cells,
    regions: &mut Regions,
    key: usize,
    region: u64,
    steps: &mut Steps<L>,
) -> Option<usize>
    requires there { (r : Record) × (record_at regions.old key ≡ Some r)
        × OwnsOnce cells.now.heap region r.members }
    requires lead { LeadsToHeld cells.now.heap region }
    requires labels { AllInTable cells.now.heap regions.old }
    ensures searched { (r : Record) → record_at regions.old key ≡ Some r
        → FollowsWhite cells.now.heap cells.now.marks region r.members (length r.members)
        regions.old regions.new result }
    ensures cost { (r : Record) → record_at regions.old key ≡ Some r
        → steps.new ≡ steps.old + sum_by (if_white cells.now.heap cells.now.marks) r.members }
{
    let mut head = None;
    for place in 0..regions.members(key).len() {
        let slot = regions.members(key)[place];
        if cells.mark(slot) != 0 {
            continue;
        }
        head = chain_fields(cells, regions, region, slot, head, steps);
    }
    head
}
