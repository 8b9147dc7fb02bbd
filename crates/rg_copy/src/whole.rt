//! A collection of one region that moves its cells
//! (docs/architecture.md, "A manager that moves its cells").

ghost use Rattle.std.specs.Prelude.{◌≡◌, ◌+◌, ◌*◌, ◌≤◌, length, sum_by};
ghost use Rattle.rg_cells.specs.Table.{body_at, width};
ghost use Rattle.rg_frames.specs.Changes.{Begun};
ghost use Rattle.rg_regions.specs.Grove.{Grove};
ghost use Rattle.rg_regions.specs.Collection.{HasManager, WordsLeadToHeld, AllHeld};
ghost use Rattle.rg_regions.specs.Collection.{TempsLeadToHeld, OfRegion, ChainsOrphans};
ghost use Rattle.rg_regions.specs.Collection.{region_fields};
ghost use Rattle.rg_regions.specs.Reach.{OutOfReach};
ghost use Rattle.rg_copy.specs.Slid.{Slid, top_roots, top_slots, top_temps};

use crate::forward::{forward_members, forward_slots, forward_temps};
use crate::plan::plan;
use crate::shift::shift;
use rg_base::{Manager, Steps};
use rg_cells::Cells;
use rg_frames::Frames;
use rg_regions::{Kept, Regions};
use rg_trace::{chain_orphans, mark_region, sweep};
use std::sync::ledger::Ledger;

/// Keeps of a trace region what its roots reach: its bridge, and its cells in the slots from the
/// top window's base and in fields of that window's temporaries. What it keeps goes to the lowest
/// slots of the region, the bridge stays, and what leads there is rewritten. It answers how many
/// cells it kept, and the chain of the regions that lost their owner.
pub fn collect<L: Ledger>(
    cells: &mut Cells,
    regions: &mut Regions,
    key: usize,
    frames: &mut Frames,
    steps: &mut Steps<L>,
) -> Kept
    requires grove { Grove cells.old regions.old }
    requires trace { HasManager regions.old key Manager.Trace }
    requires begun { Begun frames.old }
    requires slots { WordsLeadToHeld cells.old.heap (top_slots frames.old) }
    requires temps { AllHeld cells.old.heap (top_temps frames.old) }
    requires temps_lead { TempsLeadToHeld cells.old.heap (top_temps frames.old) }
    ensures slid { OfRegion regions.old key (λ r.
        Slid cells.old regions.old key r frames.old cells.new regions.new frames.new) }
    ensures orphans { OfRegion regions.old key (λ r. ChainsOrphans cells.old.heap regions.old
        r.number (OutOfReach cells.old.heap r.number (top_roots r frames.old))
        regions.new.links result.orphans) }
    ensures kept { OfRegion regions.new key (λ r. result.kept ≡ length r.members) }
    ensures cost { OfRegion regions.old key (λ r. steps.new
        ≤ steps.old + 2 * (sum_by (λ t. width (body_at cells.old.heap t)) (top_temps frames.old)
        + region_fields cells.old.heap r.number)) }
    ensures grove { Grove cells.new regions.new }
{
    let region = regions.number(key);
    let bridge = regions.bridge(key);
    mark_region(cells, region, bridge, frames.slots(), frames.temps(), steps);
    let orphans = chain_orphans(cells, regions, key, region, steps);
    regions.order_members(key);
    plan(cells, regions.members(key), region, bridge);
    forward_temps(cells, region, frames.temps(), steps);
    forward_members(cells, regions.members(key), region, steps);
    forward_slots(cells, region, frames);
    shift(cells, regions.members(key), region);
    sweep(cells, regions, key);
    regions.left(key, orphans)
}
