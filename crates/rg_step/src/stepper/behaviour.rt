//! How a behaviour begins (docs/architecture.md, "How a behaviour begins").

ghost use Rattle.std.specs.Prelude.{◌≡◌, OnErr, OnOk};
ghost use Rattle.rg_begin.specs.Starts.{MayStart};
ghost use Rattle.rg_step.specs.Begins.{Begins};
ghost use Rattle.rg_step.specs.Stepping.{IsFresh};

use super::Stepper;
use rg_base::Memory;
use rg_begin::begin;
use rg_code::CodeList;
use rg_opening::Given;
use std::alloc::Global;

impl Stepper {
    /// Begins a behaviour, without a step: it runs a method of a class, by its number among all
    /// methods of the program, on a new object whose fields begin so. Linear in the contents.
    pub fn begin_behaviour(
        &mut self,
        alloc: Global,
        code: &CodeList,
        class: u32,
        method: u32,
        given: &[Given],
    ) -> Result<(), Memory>
        requires fresh { IsFresh self.old }
        requires may { MayStart code.now class method given.now }
        ensures begun { OnOk result (Begins code.now class method given.now self.old self.new) }
        ensures kept { OnErr result (self.new ≡ self.old) }
    {
        let machine = begin(alloc, code, class, method, given)?;
        machine.is_sound();
        self.machine = Some(machine);
        Ok(())
    }
}
