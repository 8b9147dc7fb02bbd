//! A collection of one region (docs/architecture.md, "Mark and sweep").

ghost use Rattle.std.specs.Prelude.{◌≡◌, ◌+◌, ◌≤◌, length, sum_by};
ghost use Rattle.rg_cells.specs.Table.{body_at, width};
ghost use Rattle.rg_regions.specs.Grove.{Grove};
ghost use Rattle.rg_regions.specs.Collection.{HasManager, WordsLeadToHeld, AllHeld};
ghost use Rattle.rg_regions.specs.Collection.{TempsLeadToHeld, OfRegion, ChainsOrphans};
ghost use Rattle.rg_regions.specs.Collection.{roots_of, region_fields};
ghost use Rattle.rg_trace.specs.Collected.{Collected};
ghost use Rattle.rg_regions.specs.Reach.{OutOfReach};

use crate::mark::mark_region;
use crate::orphans::chain_orphans;
use crate::sweeping::sweep;
use rg_base::{Manager, Steps, Word};
use rg_cells::Cells;
use rg_regions::{Kept, Regions};
use std::sync::ledger::Ledger;

/// Keeps of a trace region what its roots reach: its bridge, and its cells in slots and in fields
/// of temporaries. It answers how many it kept, and the chain of the regions that lost their owner.
pub fn collect<L: Ledger>(
    cells: &mut Cells,
    regions: &mut Regions,
    key: usize,
    slots: &[Word],
    temps: &[usize],
    steps: &mut Steps<L>,
) -> Kept
    requires grove { Grove cells.old regions.old }
    requires trace { HasManager regions.old key Manager.Trace }
    requires slots { WordsLeadToHeld cells.old.heap slots.now }
    requires temps { AllHeld cells.old.heap temps.now }
    requires temps_lead { TempsLeadToHeld cells.old.heap temps.now }
    ensures collected { OfRegion regions.old key (λ r. Collected cells.old regions.old key r
        (roots_of r.bridge slots.now temps.now) cells.new regions.new) }
    ensures orphans { OfRegion regions.old key (λ r. ChainsOrphans cells.old.heap regions.old
        r.number (OutOfReach cells.old.heap r.number (roots_of r.bridge slots.now temps.now))
        regions.new.links result.orphans) }
    ensures kept { OfRegion regions.new key (λ r. result.kept ≡ length r.members) }
    ensures cost { OfRegion regions.old key (λ r. steps.new
        ≤ steps.old + sum_by (λ t. width (body_at cells.old.heap t)) temps.now
        + region_fields cells.old.heap r.number) }
    ensures grove { Grove cells.new regions.new }
{
    let region = regions.number(key);
    let bridge = regions.bridge(key);
    mark_region(cells, region, bridge, slots, temps, steps);
    let orphans = chain_orphans(cells, regions, key, region, steps);
    sweep(cells, regions, key);
    regions.left(key, orphans)
}
