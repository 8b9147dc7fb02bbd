//! What the machine holds (docs/architecture.md, "The machine").

ghost use Rattle.std.specs.Prelude.{◌≡◌, ◌∷◌, [], None, Some, Ok, Err, IfOk, IfErr};
ghost use Rattle.std.specs.Prelude.{IfSome, OnErr, OnOk, length, nat_lt, slice_get};
ghost use Rattle.std.specs.Prelude.{unwrap_or};
ghost use Rattle.rg_base.specs.declared.limits.TheConstants.{FRAMES as FRAMES_MOST};
ghost use Rattle.rg_base.specs.declared.object.Seen.{Seen as Object};
ghost use Rattle.rg_base.specs.declared.value.Val.{Val as Value};
ghost use Rattle.rg_base.specs.declared.value.Val.TheVariants.{Nil};
ghost use Rattle.rg_cells.specs.Table.{high_of};
ghost use Rattle.rg_heap.specs.Reads.{Shows};
ghost use Rattle.rg_held.specs.Shown.{Finds};
ghost use Rattle.rg_rules.specs.Evaluation.{object_at};
ghost use Rattle.rg_code.specs.declared.op.Op.TheVariants as i;
ghost use Rattle.rg_stack.specs.Machine.{slot_at};
ghost use Rattle.rg_stack.specs.Tops.{frame_number};
ghost use Rattle.rg_machine.specs.Core.{Has, below_top, with_top};
ghost use Rattle.rg_machine.specs.Keeps.{GoesBack};
ghost use Rattle.rg_machine.specs.Parts.{SameStore, machine_in, opening, val_in};
ghost use Rattle.rg_machine.specs.Cores.{core_of};
ghost use Rattle.rg_machine.specs.Parts.{with_word};
ghost use Rattle.rg_machine.specs.Stands.{Leads, Stands};

mod arrays;
mod call;
mod collecting;
mod ending;
mod enter;
mod giving;
mod moves;
mod new;
mod numbers;
pub mod over;
mod reading;
mod writing;

use rg_base::{FRAMES, Manager, Memory, Seen, Trap, Val, Word};
use rg_frames::Frames;
use rg_heap::Heap;
use std::alloc::Global;
use std::marker::Model;

/// Cells and regions, frames with windows, the words on the stack, the topmost last, the address of
/// the next step, what the step has printed, and a buffer for the words of a new array.
#[derive(Drop)]
pub struct Machine {
    heap: Heap,
    frames: Frames,
    stack: Vec<Word>,
    at: usize,
    printed: Option<Val>,
    equal: Vec<Word>,
}

impl Model for Machine {
    ghost use Rattle.rg_machine.specs.Parts.{Parts};
    ghost use Rattle.rg_machine.specs.Stands.{AllLead, Stands};

    ghost Value = { Parts };

    ghost view = { λ m. record {
      heap = m.heap;
      frames = m.frames;
      words = m.stack.items;
      at = m.at;
      printed = m.printed;
    } };

    ghost invariant = { λ m. Stands m.heap m.frames × AllLead m.heap m.frames m.stack.items };
}

impl Machine {
    /// Main's frame of so many slots, window 0 over it, and region 0 with a manager.
    pub fn begin(alloc: Global, slots: u32, manager: Manager) -> Result<Machine, Memory>
        ensures core { IfOk result (λ m. core_of m ≡ record {
          machine = opening slots manager;
          stack = [];
          printed = None;
        }) }
        ensures high { IfOk result (λ m. high_of m.heap.cells.heap ≡ 0) }
    {
        let mut heap = Heap::new(alloc);
        let key = heap.begin(manager)?;
        let mut frames = Frames::new(alloc);
        frames.begin(key, slots)?;
        Ok(Machine {
            heap,
            frames,
            stack: Vec::new(alloc),
            at: 0,
            printed: None,
            equal: Vec::new(alloc),
        })
    }

    /// A machine over a heap and frames: nothing is on the stack, and nothing is printed.
    pub fn over(alloc: Global, heap: Heap, frames: Frames, at: usize) -> Machine
        requires { Stands heap frames }
        ensures { result ≡ record {
          heap = heap;
          frames = frames;
          words = [];
          at = at;
          printed = None;
        } }
    {
        Machine {
            heap,
            frames,
            stack: Vec::new(alloc),
            at,
            printed: None,
            equal: Vec::new(alloc),
        }
    }

    /// The object with a serial, as it is shown; None where none that is held has it.
    pub fn object(&self, alloc: Global, serial: u64) -> Result<Option<Seen>, Memory>
        ensures shows { IfOk result (Shows self.now.heap.cells.heap serial) }
        ensures finds { IfOk result (Finds (machine_in self.now).store serial) }
    {
        self.is_sound();
        self.heap.shown(alloc, serial)
    }

    /// The value that a word shows.
    #[inline]
    pub fn value(&self, w: Word) -> Val
        requires { Leads self.now.heap self.now.frames w }
        ensures { result ≡ val_in self.now w }
    {
        match w {
            Word::Nil => Val::Nil,
            Word::Int(z) => Val::Int(z),
            Word::Bool(b) => Val::Bool(b),
            Word::Slot(slot) => Val::Obj(self.heap.serial(slot)),
        }
    }

    /// Puts a word on the stack.
    #[inline]
    pub fn push(&mut self, w: Word) -> Result<(), Memory>
        requires { Leads self.old.heap self.old.frames w }
        ensures ok { OnOk result (self.new ≡ with_word self.old w) }
        ensures core { OnOk result (core_of self.new
            ≡ with_top (core_of self.old) (val_in self.old w)) }
        ensures err { OnErr result (self.new ≡ self.old) }
    {
        match self.stack.push(w) {
            Ok(()) => Ok(()),
            Err(_) => Err(Memory),
        }
    }

    /// Takes the topmost word, if there is one.
    #[inline]
    pub fn pop(&mut self) -> Option<Word>
        ensures some { IfSome result (λ w. self.old ≡ with_word self.new w) }
        ensures core { IfSome result (λ w.
            core_of self.old ≡ with_top (core_of self.new) (val_in self.new w)) }
        ensures leads { IfSome result (Leads self.new.heap self.new.frames) }
        ensures same { SameStore self.old self.new }
        ensures none { result ≡ None → ((core_of self.old).stack ≡ []) × (self.new ≡ self.old) }
    {
        self.stack.pop()
    }

    /// The topmost word, if there is one.
    #[inline]
    pub fn top(&self) -> Option<Word>
        ensures core { IfSome result (λ w. core_of self.now
            ≡ with_top (below_top (core_of self.now)) (val_in self.now w)) }
        ensures leads { IfSome result (Leads self.now.heap self.now.frames) }
        ensures none { result ≡ None → (core_of self.now).stack ≡ [] }
    {
        self.stack.last().copied()
    }

    /// Puts another word in the place of the topmost one.
    #[inline]
    pub fn set_top(&mut self, w: Word)
        requires leads { Leads self.old.heap self.old.frames w }
        requires some { (v : Value)
            × ((core_of self.old).stack ≡ v ∷ (below_top (core_of self.old)).stack) }
        ensures core { core_of self.new
            ≡ with_top (below_top (core_of self.old)) (val_in self.old w) }
        ensures same { SameStore self.old self.new }
    {
        match self.stack.pop() {
            Some(_) => self.stack.push_reserved(w),
            None => unreachable!(),
        }
    }

    /// The word in a slot of the topmost frame, nil past the last one.
    #[inline]
    pub fn slot(&self, s: u32) -> Word
        ensures value { val_in self.now result ≡ slot_at (machine_in self.now) s }
        ensures leads { Leads self.now.heap self.now.frames result }
    {
        self.heap.is_forest();
        self.frames.word(s)
    }

    /// The same for one of the first 256 slots, with no test of where the frame ends.
    #[inline]
    pub fn near(&self, s: u8) -> Word
        ensures value { val_in self.now result ≡ slot_at (machine_in self.now) s }
        ensures leads { Leads self.now.heap self.now.frames result }
    {
        self.heap.is_forest();
        self.frames.near(s)
    }

    /// Whether a word leads to an object.
    pub fn check(&self, r: Word) -> Result<(), Trap>
        requires { Leads self.now.heap self.now.frames r }
        ensures ok { OnOk result ((o : Object)
            × (object_at (machine_in self.now).store (val_in self.now r) ≡ Ok o)) }
        ensures err { IfErr result (λ t.
            object_at (machine_in self.now).store (val_in self.now r) ≡ Err t) }
    {
        self.heap.is_forest();
        match r {
            Word::Slot(_) => Ok(()),
            Word::Nil | Word::Int(_) | Word::Bool(_) => Err(Trap::Nil),
        }
    }

    /// The word in a field of the object to which one leads.
    #[inline]
    pub fn field(&self, r: Word, index: u32) -> Result<Word, Trap>
        requires leads { Leads self.now.heap self.now.frames r }
        requires there { Has (i.Field index)
            (record (core_of self.now) { stack = val_in self.now r ∷ [] }) }
        ensures ok { IfOk result (λ w. (o : Object)
            × (object_at (machine_in self.now).store (val_in self.now r) ≡ Ok o)
            × (unwrap_or (slice_get o.fields index) Nil ≡ val_in self.now w)) }
        ensures leads { IfOk result (Leads self.now.heap self.now.frames) }
        ensures err { IfErr result (λ t.
            object_at (machine_in self.now).store (val_in self.now r) ≡ Err t) }
    {
        self.heap.is_forest();
        match r {
            Word::Slot(_) => self.heap.read(r, index),
            Word::Nil | Word::Int(_) | Word::Bool(_) => Err(Trap::Nil),
        }
    }

    /// Prints the value that a word shows.
    pub fn print(&mut self, w: Word)
        requires { Leads self.old.heap self.old.frames w }
        ensures core { core_of self.new
            ≡ record (core_of self.old) { printed = Some (val_in self.old w) } }
        ensures same { SameStore self.old self.new }
    {
        self.printed = Some(self.value(w));
    }

    /// The number of frames beneath the topmost one.
    pub fn depth(&self) -> u64
        ensures { result ≡ frame_number (machine_in self.now).frames }
    {
        self.frames.count().saturating_sub(1) as u64
    }

    /// Whether one more frame may come.
    pub fn may_call(&self) -> bool
        ensures { result ≡ nat_lt (length (machine_in self.now).frames) FRAMES_MOST }
    {
        self.frames.count() < FRAMES
    }

    /// The address behind the call of the topmost frame, which isn't the last one.
    #[inline]
    pub fn behind(&self) -> Option<usize>
        ensures { IfSome result (GoesBack (machine_in self.now).frames) }
    {
        if self.frames.count() < 2 {
            return None;
        }
        self.frames.back()
    }

    /// The address of the next step.
    pub fn at(&self) -> usize
        ensures { result ≡ self.now.at }
    {
        self.at
    }

    /// The next step is at an address.
    pub fn go_to(&mut self, at: usize)
        ensures { self.new ≡ record self.old { at = at } }
    {
        self.at = at;
    }

    /// A step begins, with nothing on the stack and nothing printed.
    pub fn start(&mut self)
        ensures { self.new ≡ record self.old { words = []; printed = None } }
    {
        self.stack.clear();
        self.printed = None;
    }

    /// What the step has printed.
    pub fn printed(&self) -> Option<Val>
        ensures { result ≡ self.now.printed }
    {
        self.printed
    }
}
