//! New objects (docs/architecture.md, "The machine").

ghost use Rattle.std.specs.Prelude.{◌≡◌, ◌∷◌, ◌++◌, [], OnErr, OnOk, length, map, true};
ghost use Rattle.rg_base.specs.declared.object.Label.TheVariants.{Region, Temp};
ghost use Rattle.rg_stack.specs.Machine.{value_of_word};
ghost use Rattle.rg_stack.specs.Tops.{top_region, top_window};
ghost use Rattle.rg_stack.specs.Needs.{leads_nowhere};
ghost use Rattle.rg_machine.specs.Core.{with_machine, with_made};
ghost use Rattle.rg_machine.specs.Parts.{machine_in};
ghost use Rattle.rg_machine.specs.Cores.{core_of};
ghost use Rattle.rg_machine.specs.High.{OneMade};

use super::Machine;
use rg_base::{Manager, Memory, Word};

impl Machine {
    /// Makes an object of a class in the active region, and pushes it.
    pub fn make(&mut self, class: u32, words: &[Word]) -> Result<(), Memory>
        requires { leads_nowhere words.now ≡ true }
        ensures ok { OnOk result (core_of self.new ≡ with_made (core_of self.old) class
            (map value_of_word words.now)
            (Region (top_region (machine_in self.old).windows))) }
        ensures err { OnErr result (machine_in self.new ≡ machine_in self.old) }
        ensures printed { self.new.printed ≡ self.old.printed }
        ensures high { OnOk result (OneMade self.old.heap self.new.heap) }
    {
        self.heap.is_forest();
        let Ok(()) = self.stack.reserve(1) else {
            return Err(Memory);
        };
        let slot = self.heap.make(&self.frames, class, words)?;
        self.stack.push_reserved(Word::Slot(slot));
        Ok(())
    }

    /// Makes a temporary of the topmost window, and pushes it.
    pub fn make_temp(&mut self, class: u32, words: &[Word]) -> Result<(), Memory>
        requires { leads_nowhere words.now ≡ true }
        ensures ok { OnOk result (core_of self.new ≡ with_made (core_of self.old) class
            (map value_of_word words.now)
            (Temp (top_window (machine_in self.old).windows))) }
        ensures err { OnErr result (machine_in self.new ≡ machine_in self.old) }
        ensures printed { self.new.printed ≡ self.old.printed }
        ensures high { OnOk result (OneMade self.old.heap self.new.heap) }
    {
        self.heap.is_forest();
        self.frames.lie();
        let Ok(()) = self.stack.reserve(1) else {
            return Err(Memory);
        };
        let slot = self.heap.make_tmp(&mut self.frames, class, words)?;
        self.stack.push_reserved(Word::Slot(slot));
        Ok(())
    }

    /// Makes the bridge of a new region with a manager, and pushes it.
    pub fn make_region(
        &mut self,
        class: u32,
        words: &[Word],
        manager: Manager,
    ) -> Result<(), Memory>
        requires { leads_nowhere words.now ≡ true }
        ensures ok { OnOk result (core_of self.new ≡ with_made (with_machine (core_of self.old)
            (record (machine_in self.old) {
              managers = (machine_in self.old).managers ++ manager ∷ [];
            })) class (map value_of_word words.now)
            (Region (length (machine_in self.old).managers))) }
        ensures err { OnErr result (machine_in self.new ≡ machine_in self.old) }
        ensures printed { self.new.printed ≡ self.old.printed }
        ensures high { OnOk result (OneMade self.old.heap self.new.heap) }
    {
        self.heap.is_forest();
        let Ok(()) = self.stack.reserve(1) else {
            return Err(Memory);
        };
        let slot = self.heap.make_region(class, words, manager)?;
        self.stack.push_reserved(Word::Slot(slot));
        Ok(())
    }
}
