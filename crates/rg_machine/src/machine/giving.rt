//! Windows that are left with another bridge (docs/architecture.md, "The machine").

ghost use Rattle.std.specs.Prelude.{◌≡◌, [], OnErr, OnOk, None, true};
ghost use Rattle.rg_code.specs.declared.op.Op.TheVariants as i;
ghost use Rattle.rg_stack.specs.Needs.{closed_into, owned_once};
ghost use Rattle.rg_machine.specs.Acts.{Does};
ghost use Rattle.rg_machine.specs.Core.{Has};
ghost use Rattle.rg_machine.specs.Cores.{core_of};
ghost use Rattle.rg_machine.specs.Effects.{ending};
ghost use Rattle.rg_machine.specs.High.{NoneMade};
ghost use Rattle.rg_machine.specs.Keeps.{SameBacks};
ghost use Rattle.rg_machine.specs.Parts.{machine_in, val_in};
ghost use Rattle.rg_machine.specs.Stands.{Leads};

use super::Machine;
use crate::next::Next;
use rg_base::{Memory, Trap, Word};

impl Machine {
    /// What the slots of the topmost frame from one on own goes, and they are nil; a word that
    /// leads into no closed region leads where it did, as one on the stack does.
    fn end_beside(&mut self, s: u32, w: Word) -> Result<(), Memory>
        requires leads { Leads self.old.heap self.old.frames w }
        requires open { closed_into (machine_in self.old) (val_in self.old w) ≡ None }
        requires once { owned_once (machine_in self.old) ≡ true }
        requires stack { (core_of self.old).stack ≡ [] }
        ensures ended { OnOk result (core_of self.new ≡ ending (core_of self.old) s) }
        ensures leads { OnOk result (Leads self.new.heap self.new.frames w) }
        ensures value { OnOk result (val_in self.new w ≡ val_in self.old w) }
        ensures words { self.new.words ≡ self.old.words }
        ensures backs { SameBacks (machine_in self.old) (machine_in self.new) }
        ensures high { NoneMade self.old.heap self.new.heap }
        ensures err { OnErr result (self.new ≡ self.old) }
    {
        let Ok(()) = self.push(w) else {
            return Err(Memory);
        };
        self.end_from(s);
        let _ = self.pop();
        Ok(())
    }

    /// `leaveg v s`
    pub fn leave_giving(&mut self, given: u32, s: u32) -> Next
        requires given { Has (i.LeaveGiving given s) (core_of self.old) }
        ensures { Does (i.LeaveGiving given s) self.old self.new result }
    {
        let w = self.slot(given);
        let Word::Slot(_) = w else {
            return Next::Trap(Trap::Nil);
        };
        self.heap.is_forest();
        let Ok(()) = self.end_beside(s, w) else {
            return Next::Memory;
        };
        self.heap.is_forest();
        if self.frames.open_count() >= 2 {
            self.frames.lie();
            let _ = self.frames.next_number();
            let _ = self.heap.leave_giving(&mut self.frames, w);
            self.heap.is_forest();
        }
        Next::On
    }
}
