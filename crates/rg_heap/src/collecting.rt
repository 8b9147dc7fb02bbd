//! Collections of one region, and the release of the regions that lost their owner
//! (docs/architecture.md, "The heap").

ghost use Rattle.std.specs.Prelude.{◌+◌, ◌≤◌, sum_by};
ghost use Rattle.rg_cells.specs.Table.{body_at, width};
ghost use Rattle.rg_regions.specs.Table.{IsKey};
ghost use Rattle.rg_regions.specs.Collection.{WordsLeadToHeld, AllHeld};
ghost use Rattle.rg_regions.specs.Collection.{TempsLeadToHeld, OfRegion, roots_of, region_fields};
ghost use Rattle.rg_regions.specs.Grove.{Grove};
ghost use Rattle.rg_heap.specs.Collects.{CollectsBy};

use crate::answers::Collected;
use crate::ending::release_all;
use rg_base::{Manager, Steps, Word};
use rg_cells::Cells;
use rg_count::collect as collect_spent;
use rg_regions::Regions;
use rg_trace::collect as collect_unreached;
use std::sync::ledger::Ledger;

/// Collects a region by its manager; None where that is an arena.
pub fn collect_by<L: Ledger>(
    cells: &mut Cells,
    regions: &mut Regions,
    key: usize,
    slots: &[Word],
    temps: &[usize],
    steps: &mut Steps<L>,
) -> Option<Collected>
    requires grove { Grove cells.old regions.old }
    requires key { IsKey regions.old key }
    requires slots { WordsLeadToHeld cells.old.heap slots.now }
    requires temps { AllHeld cells.old.heap temps.now }
    requires temps_lead { TempsLeadToHeld cells.old.heap temps.now }
    ensures collects { OfRegion regions.old key (λ r. CollectsBy r.manager
        (record { cells = cells.old; regions = regions.old })
        (record { cells = cells.new; regions = regions.new }) key r
        (roots_of r.bridge slots.now temps.now) result) }
    ensures cost { OfRegion regions.old key (λ r. steps.new
        ≤ steps.old + sum_by (λ t. width (body_at cells.old.heap t)) temps.now
        + region_fields cells.old.heap r.number) }
    ensures grove { Grove cells.new regions.new }
{
    let manager = regions.manager(key);
    let region = regions.number(key);
    let held = regions.members(key).len() as u64;
    let kept = match manager {
        Manager::Arena => return None,
        Manager::Count => collect_spent(cells, regions, key, slots, temps, steps),
        Manager::Trace => collect_unreached(cells, regions, key, slots, temps, steps),
    };
    let released = release_all(cells, regions, kept.orphans);
    Some(Collected {
        region,
        manager,
        held,
        kept: kept.kept,
        released,
    })
}
