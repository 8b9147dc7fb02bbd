//! Collections of the active region that move the cells which they keep
//! (docs/architecture.md, "The heap").

ghost use Rattle.std.specs.Prelude.{◌≡◌, ◌+◌, ◌*◌, ◌≤◌, Some, sum_by};
ghost use Rattle.rg_base.specs.declared.words.Manager.TheVariants.{Trace};
ghost use Rattle.rg_cells.specs.Table.{body_at, width};
ghost use Rattle.rg_frames.specs.Changes.{Begun};
ghost use Rattle.rg_regions.specs.Table.{IsKey};
ghost use Rattle.rg_regions.specs.Collection.{HasManager, WordsLeadToHeld, AllHeld};
ghost use Rattle.rg_regions.specs.Collection.{TempsLeadToHeld, OfRegion, region_fields};
ghost use Rattle.rg_regions.specs.Grove.{Grove};
ghost use Rattle.rg_copy.specs.Slid.{top_slots, top_temps};
ghost use Rattle.rg_heap.specs.Slides.{SlidesBy};

use crate::answers::Collected;
use crate::collecting::collect_by;
use crate::ending::release_all;
use rg_base::{Manager, Steps};
use rg_cells::Cells;
use rg_copy::collect as collect_moving;
use rg_frames::Frames;
use rg_regions::Regions;
use std::sync::ledger::Ledger;

// Of a region that is traced goes what its roots don't reach, and what they reach moves.
fn collect_slid<L: Ledger>(
    cells: &mut Cells,
    regions: &mut Regions,
    key: usize,
    frames: &mut Frames,
    steps: &mut Steps<L>,
) -> Collected
    requires grove { Grove cells.old regions.old }
    requires trace { HasManager regions.old key Trace }
    requires begun { Begun frames.old }
    requires slots { WordsLeadToHeld cells.old.heap (top_slots frames.old) }
    requires temps { AllHeld cells.old.heap (top_temps frames.old) }
    requires temps_lead { TempsLeadToHeld cells.old.heap (top_temps frames.old) }
    ensures slides { OfRegion regions.old key (λ r. SlidesBy Trace
        (record { cells = cells.old; regions = regions.old })
        (record { cells = cells.new; regions = regions.new }) key r
        frames.old frames.new (Some result)) }
    ensures cost { OfRegion regions.old key (λ r. steps.new
        ≤ steps.old + 2 * (sum_by (λ t. width (body_at cells.old.heap t)) (top_temps frames.old)
        + region_fields cells.old.heap r.number)) }
    ensures grove { Grove cells.new regions.new }
{
    let region = regions.number(key);
    let held = regions.members(key).len() as u64;
    let kept = collect_moving(cells, regions, key, frames, steps);
    let released = release_all(cells, regions, kept.orphans);
    Collected {
        region,
        manager: Manager::Trace,
        held,
        kept: kept.kept,
        released,
    }
}

/// Collects the top window's region by its manager, and moves what it keeps where the region is
/// traced; None where the manager is an arena.
pub fn slide_by<L: Ledger>(
    cells: &mut Cells,
    regions: &mut Regions,
    key: usize,
    frames: &mut Frames,
    steps: &mut Steps<L>,
) -> Option<Collected>
    requires grove { Grove cells.old regions.old }
    requires key { IsKey regions.old key }
    requires begun { Begun frames.old }
    requires slots { WordsLeadToHeld cells.old.heap (top_slots frames.old) }
    requires temps { AllHeld cells.old.heap (top_temps frames.old) }
    requires temps_lead { TempsLeadToHeld cells.old.heap (top_temps frames.old) }
    ensures slides { OfRegion regions.old key (λ r. SlidesBy r.manager
        (record { cells = cells.old; regions = regions.old })
        (record { cells = cells.new; regions = regions.new }) key r
        frames.old frames.new result) }
    ensures cost { OfRegion regions.old key (λ r. steps.new
        ≤ steps.old + 2 * (sum_by (λ t. width (body_at cells.old.heap t)) (top_temps frames.old)
        + region_fields cells.old.heap r.number)) }
    ensures grove { Grove cells.new regions.new }
{
    match regions.manager(key) {
        Manager::Arena => None,
        Manager::Count => {
            let slots = frames.slots();
            let temps = frames.temps();
            collect_by(cells, regions, key, slots, temps, steps)
        }
        Manager::Trace => Some(collect_slid(cells, regions, key, frames, steps)),
    }
}
