//! What callers read of the machine (docs/architecture.md, "The machine").

ghost use Rattle.std.specs.Prelude.{◌≡◌, ◌≤◌, ◌-◌, ◌^◌};
ghost use Rattle.rg_tree.specs.Tree.{Tree};
ghost use Rattle.rg_rules.specs.State.{State};
ghost use Rattle.rg_sound.specs.Fit.{Fit};
ghost use Rattle.rg_code.specs.Code.{Code};
ghost use Rattle.rg_cells.specs.Table.{Serials};
ghost use Rattle.rg_regions.specs.Grove.{Grove};
ghost use Rattle.rg_heap.specs.Answers.{end_numbers};
ghost use Rattle.rg_held.specs.Shown.{ShowsHeld};
ghost use Rattle.rg_machine.specs.Active.{IsActive};
ghost use Rattle.rg_machine.specs.Owned.{IsOwned};
ghost use Rattle.rg_machine.specs.Parts.{machine_in};
ghost use Rattle.rg_machine.specs.Stands.{Stands};

use super::Machine;
use rg_base::EndNumbers;
use rg_frames::Frames;
use rg_heap::{Active, Heap};

impl Machine {
    /// Its cells and regions.
    pub fn heap(&self) -> &Heap
        ensures { result.now ≡ self.now.heap }
    {
        &self.heap
    }

    /// Its frames, windows and temporaries.
    pub fn frames(&self) -> &Frames
        ensures { result.now ≡ self.now.frames }
    {
        &self.frames
    }

    /// The numbers of its heap; steps and collections aren't the heap's.
    pub fn numbers(&self) -> EndNumbers
        ensures { result ≡ end_numbers self.now.heap }
    {
        self.heap.numbers()
    }

    /// The active region, with its manager and how many cells it has.
    pub fn active(&self) -> Active
        ensures { IsActive self.now result }
    {
        self.heap.active(&self.frames)
    }

    /// What always holds of it.
    pub fn is_sound(&self)
        ensures stands { Stands self.now.heap self.now.frames }
        ensures serials { Serials self.now.heap.cells.heap }
        ensures forest { Grove self.now.heap.cells self.now.heap.regions }
        ensures windows { self.now.frames.next ≤ 2 ^ 64 - 1 }
    {
        self.heap.is_forest();
        let _ = self.frames.next_number();
    }

    /// Where it shows a state that fits a program, each of its closed regions has one owner.
    pub fn is_owned(&self)
        ensures { (t : Tree) (code : Code) (s : State) → Fit t s
            → ShowsHeld t.classes code (machine_in self.now) s → IsOwned self.now }
    {
        self.heap.is_forest();
        let _ = self.frames.next_number();
    }
}
