//! Collections of the active region (docs/architecture.md, "The machine that frees").

ghost use Rattle.std.specs.Prelude.{◌≡◌, ◌≤◌, ◌+◌, ◌*◌, [], drop, sum_by, true};
ghost use Rattle.rg_cells.specs.Table.{body_at, width};
ghost use Rattle.rg_regions.specs.Collection.{OfRegion, region_fields, roots_of};
ghost use Rattle.rg_heap.specs.Collects.{CollectsBy};
ghost use Rattle.rg_heap.specs.Ends.{top_temps};
ghost use Rattle.rg_heap.specs.Parts.{OnTop};
ghost use Rattle.rg_heap.specs.Slides.{SlidesBy};
ghost use Rattle.rg_stack.specs.Needs.{owned_once};
ghost use Rattle.rg_machine.specs.Collects.{Gathers, GathersSliding};
ghost use Rattle.rg_machine.specs.High.{NoneMade};
ghost use Rattle.rg_machine.specs.Parts.{machine_in};

use super::Machine;
use rg_base::Steps;
use rg_heap::Collected;
use std::sync::ledger::Ledger;

impl Machine {
    /// Collects the active region by its manager, where a step begins or has ended; None exactly
    /// where the manager is an arena. One step is counted for each field that is looked at.
    pub fn collect<L: Ledger>(&mut self, steps: &mut Steps<L>) -> Option<Collected>
        requires bare { self.old.words ≡ [] }
        requires once { owned_once (machine_in self.old) ≡ true }
        ensures gathers { Gathers self.old self.new }
        ensures high { NoneMade self.old.heap self.new.heap }
        ensures told { OnTop self.old.frames (λ top.
            OfRegion self.old.heap.regions top.region (λ r.
            CollectsBy r.manager self.old.heap self.new.heap top.region r (roots_of r.bridge
            (drop top.base self.old.frames.slots) (top_temps self.old.frames)) result)) }
        ensures cost { OnTop self.old.frames (λ top.
            OfRegion self.old.heap.regions top.region (λ r. steps.new ≤ steps.old
            + sum_by (λ t. width (body_at self.old.heap.cells.heap t)) (top_temps self.old.frames)
            + region_fields self.old.heap.cells.heap r.number)) }
    {
        self.heap.is_forest();
        let told = self.heap.collect(&self.frames, steps);
        self.heap.is_forest();
        told
    }

    /// As `collect`, but what it keeps of a traced region moves to the lowest slots that the region
    /// had, the bridge's left out. The machine that is shown doesn't tell the two apart. The bound
    /// on steps is twice that of `collect`.
    pub fn collect_sliding<L: Ledger>(&mut self, steps: &mut Steps<L>) -> Option<Collected>
        requires bare { self.old.words ≡ [] }
        requires once { owned_once (machine_in self.old) ≡ true }
        ensures gathers { GathersSliding self.old self.new }
        ensures high { NoneMade self.old.heap self.new.heap }
        ensures told { OnTop self.old.frames (λ top.
            OfRegion self.old.heap.regions top.region (λ r.
            SlidesBy r.manager self.old.heap self.new.heap top.region r
            self.old.frames self.new.frames result)) }
        ensures cost { OnTop self.old.frames (λ top.
            OfRegion self.old.heap.regions top.region (λ r. steps.new ≤ steps.old
            + 2 * (sum_by (λ t. width (body_at self.old.heap.cells.heap t))
            (top_temps self.old.frames)
            + region_fields self.old.heap.cells.heap r.number))) }
    {
        self.heap.is_forest();
        let told = self.heap.collect_sliding(&mut self.frames, steps);
        self.heap.is_forest();
        told
    }
}
