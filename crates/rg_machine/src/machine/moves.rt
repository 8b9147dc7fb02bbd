//! Regions that are frozen or merged (docs/architecture.md, "The machine").

ghost use Rattle.rg_code.specs.declared.op.Op.TheVariants as i;
ghost use Rattle.rg_machine.specs.Acts.{Does};
ghost use Rattle.rg_machine.specs.Core.{Has};
ghost use Rattle.rg_machine.specs.Cores.{core_of};

use super::Machine;
use crate::next::Next;
use rg_base::{Trap, Word};

impl Machine {
    /// `freeze s`
    pub fn freeze(&mut self, s: u32) -> Next
        requires given { Has (i.Freeze s) (core_of self.old) }
        ensures { Does (i.Freeze s) self.old self.new result }
    {
        let w = self.frames.word(s);
        match w {
            Word::Slot(_) => {
                let Ok(()) = self.stack.reserve(1) else {
                    return Next::Memory;
                };
                self.heap.is_forest();
                let _ = self.heap.freeze(w);
                self.heap.is_forest();
                self.frames.set_word(s, Word::Nil);
                self.stack.push_reserved(w);
                Next::On
            }
            Word::Nil | Word::Int(_) | Word::Bool(_) => Next::Trap(Trap::Nil),
        }
    }

    /// `merge s`
    pub fn merge(&mut self, s: u32) -> Next
        requires given { Has (i.Merge s) (core_of self.old) }
        ensures { Does (i.Merge s) self.old self.new result }
    {
        let w = self.frames.word(s);
        match w {
            Word::Slot(_) => {
                let Ok(()) = self.stack.reserve(1) else {
                    return Next::Memory;
                };
                self.heap.is_forest();
                let Ok(_) = self.heap.merge(&self.frames, w) else {
                    return Next::Memory;
                };
                self.heap.is_forest();
                self.frames.set_word(s, Word::Nil);
                self.stack.push_reserved(w);
                Next::On
            }
            Word::Nil | Word::Int(_) | Word::Bool(_) => Next::Trap(Trap::Nil),
        }
    }
}
