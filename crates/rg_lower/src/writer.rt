//! The code as it is written (docs/language.md, "Instructions and lowering").

ghost use Rattle.std.specs.Prelude.{◌≡◌, ◌<◌, ◌≤◌, ◌^◌, length, drop, slice_set, OnOk};
ghost use Rattle.rg_code.specs.Code.{Code, empty, with_op, with_opening, with_entry};
ghost use Rattle.rg_code.specs.Lowering.{above, slots_of};

use crate::counts::slots_behind;
use rg_base::{Memory, Word};
use rg_code::{CodeList, Entry, Op};
use std::alloc::Global;
use std::marker::Model;

/// A list of instructions each of whose slots has a next one that is a u32 too, so that the number
/// of slots of a body is one. Contracts see the code.
#[derive(Drop)]
pub struct Writer {
    code: CodeList,
}

impl Model for Writer {
    ghost use Rattle.rg_code.specs.Code.{Code};
    ghost use Rattle.rg_lower.specs.Inner.Emitted.{AreLow};

    ghost Value = { Code };

    ghost view = { λ w. w.code };

    ghost invariant = { λ w. AreLow w.code.ops };
}

impl Writer {
    /// The empty code.
    pub fn new(alloc: Global) -> Writer
        ensures { result ≡ empty }
    {
        Writer {
            code: CodeList::new(alloc),
        }
    }

    /// Appends an instruction.
    pub fn push(&mut self, op: Op) -> Result<(), Memory>
        requires low { above op < 2 ^ 32 }
        ensures { OnOk result (self.new ≡ with_op self.old op) }
    {
        self.code.push(op)?;
        Ok(())
    }

    /// Replaces an instruction.
    pub fn set(&mut self, i: usize, op: Op)
        requires there { i < length self.old.ops }
        requires low { above op < 2 ^ 32 }
        ensures { self.new ≡ record self.old { ops = slice_set self.old.ops i op } }
    {
        self.code.set(i, op);
    }

    /// The number of instructions.
    pub fn len(&self) -> usize
        ensures { result ≡ length self.now.ops }
    {
        self.code.len()
    }

    /// The number of slots of the body that begins at an address and is the last one.
    pub fn slots_from(&self, from: usize, given: u32) -> u32
        requires { from ≤ length self.now.ops }
        ensures { result ≡ slots_of given (drop from self.now.ops) }
    {
        slots_behind(&self.code, from, given)
    }

    /// Appends the opening of the next class.
    pub fn add_class(&mut self, opening: &[Word]) -> Result<(), Memory>
        ensures { OnOk result (self.new ≡ with_opening self.old opening.now) }
    {
        self.code.add_class(opening)?;
        Ok(())
    }

    /// Appends the entry of the next method.
    pub fn add_method(&mut self, entry: Entry) -> Result<(), Memory>
        ensures { OnOk result (self.new ≡ with_entry self.old entry) }
    {
        self.code.add_method(entry)?;
        Ok(())
    }

    /// Sets main's number of slots.
    pub fn set_main_slots(&mut self, slots: u32)
        ensures { self.new ≡ record self.old { main_slots = slots } }
    {
        self.code.set_main_slots(slots);
    }

    /// The code.
    pub fn finish(self) -> CodeList
        ensures { result ≡ self }
    {
        self.code
    }
}
