//! What a behaviour gives back (docs/architecture.md, "How a behaviour begins").

ghost use Rattle.std.specs.Prelude.{IfOk};
ghost use Rattle.rg_tree.specs.Tree.{Tree};
ghost use Rattle.rg_rules.specs.State.{State};
ghost use Rattle.rg_sound.specs.Fit.{Fit};
ghost use Rattle.rg_code.specs.Code.{Code};
ghost use Rattle.rg_held.specs.Shown.{ShowsHeld};
ghost use Rattle.rg_machine.specs.Parts.{machine_in};
ghost use Rattle.rg_content.specs.Fields.{IsContent, IsOwnField};
ghost use Rattle.rg_step.specs.Behaviours.{HoldsFirst};

use super::Stepper;
use rg_base::Memory;
use rg_content::content;
use rg_cown::Cargo;
use std::alloc::Global;

impl Stepper {
    /// What an `iso` field of the behaviour's object owns; None exactly at nil. The object is
    /// looked for among all slots that were ever held, so this is for a behaviour's end.
    pub fn content(&self, alloc: Global, field: u32) -> Result<Option<Cargo>, Memory>
        requires first { HoldsFirst self.now.parts }
        requires owns { (t : Tree) × (code : Code) × (s : State) × Fit t s
            × ShowsHeld t.classes code (machine_in self.now.parts) s
            × IsOwnField t.classes s.store 0 field }
        ensures { (t : Tree) (code : Code) (s : State) → Fit t s
            → ShowsHeld t.classes code (machine_in self.now.parts) s
            → IsOwnField t.classes s.store 0 field
            → IfOk result (IsContent s 0 field) }
    {
        let Some(p) = &self.machine else {
            unreachable!();
        };
        content(p, alloc, 0, field)
    }
}
