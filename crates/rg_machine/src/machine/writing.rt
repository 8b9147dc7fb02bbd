//! Slots and fields that are written (docs/architecture.md, "The machine").

ghost use Rattle.std.specs.Prelude.{◌≡◌, ◌∷◌, [], true};
ghost use Rattle.rg_code.specs.declared.op.Op.TheVariants as i;
ghost use Rattle.rg_stack.specs.Machine.{put_slot};
ghost use Rattle.rg_stack.specs.Effects.{put_in};
ghost use Rattle.rg_stack.specs.Needs.{may_keep};
ghost use Rattle.rg_machine.specs.declared.next.Next.TheVariants as next;
ghost use Rattle.rg_machine.specs.Acts.{Does};
ghost use Rattle.rg_machine.specs.Core.{Has, with_machine};
ghost use Rattle.rg_machine.specs.Keeps.{SameBacks};
ghost use Rattle.rg_machine.specs.High.{NoneMade};
ghost use Rattle.rg_machine.specs.Parts.{machine_in, val_in};
ghost use Rattle.rg_machine.specs.Cores.{core_of};
ghost use Rattle.rg_machine.specs.Stands.{Leads};

use super::Machine;
use crate::next::Next;
use rg_base::{Trap, Word};

impl Machine {
    /// Writes a slot of the topmost frame, where there is one; what stood there is lost.
    #[inline]
    pub fn set_slot(&mut self, s: u32, w: Word)
        requires leads { Leads self.old.heap self.old.frames w }
        requires keeps { may_keep (machine_in self.old) s (val_in self.old w) ≡ true }
        ensures put { core_of self.new ≡ with_machine (core_of self.old)
            (put_slot (machine_in self.old) s (val_in self.old w)) }
        ensures words { self.new.words ≡ self.old.words }
        ensures heap { self.new.heap ≡ self.old.heap }
        ensures leads { (x : Word) → Leads self.old.heap self.old.frames x →
            Leads self.new.heap self.new.frames x }
        ensures backs { SameBacks (machine_in self.old) (machine_in self.new) }
    {
        self.heap.is_forest();
        self.frames.lie();
        self.frames.set_word(s, w);
    }

    /// Writes a field of the object to which a word leads, as `put k` does.
    #[inline(always)]
    pub fn put(&mut self, r: Word, index: u32, w: Word)
        requires object { Leads self.old.heap self.old.frames r }
        requires leads { Leads self.old.heap self.old.frames w }
        requires given { Has (i.Put index) (record (core_of self.old) {
          stack = val_in self.old w ∷ val_in self.old r ∷ [];
        }) }
        ensures put { core_of self.new ≡ with_machine (core_of self.old)
            (record (machine_in self.old) {
              store = put_in (machine_in self.old).store (val_in self.old r) index
                  (val_in self.old w);
            }) }
        ensures high { NoneMade self.old.heap self.new.heap }
    {
        self.heap.is_forest();
        match r {
            Word::Slot(slot) => self.heap.write(&self.frames, slot, index, w),
            Word::Nil | Word::Int(_) | Word::Bool(_) => unreachable!(),
        }
    }

    /// `swap s k`
    pub fn swap(&mut self, s: u32, index: u32) -> Next
        requires given { Has (i.Swap s index) (core_of self.old) }
        ensures does { Does (i.Swap s index) self.old self.new result }
        ensures wants { result ≡ next.Memory → ⊥ }
    {
        self.heap.is_forest();
        let Some(r) = self.stack.pop() else {
            return Next::Lost;
        };
        match r {
            Word::Slot(slot) => {
                let w = self.frames.word(s);
                let held = self.heap.swap(&self.frames, slot, index, w);
                self.frames.set_word(s, held);
                Next::On
            }
            Word::Nil | Word::Int(_) | Word::Bool(_) => Next::Trap(Trap::Nil),
        }
    }
}
