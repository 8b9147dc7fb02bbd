//! Windows that open and close (docs/architecture.md, "The machine").

ghost use Rattle.std.specs.Prelude.{◌≡◌, ◌<◌, ◌⊎◌, IfSome, None, false, length, true};
ghost use Rattle.rg_base.specs.declared.value.Word.{Word as WordOf};
ghost use Rattle.rg_frames.specs.Changes.{BaseUpTo};
ghost use Rattle.rg_machine.specs.Acts.{Does};
ghost use Rattle.rg_machine.specs.Frames.{can_open};
ghost use Rattle.rg_stack.specs.Machine.{place_of, slot_at};
ghost use Rattle.rg_code.specs.declared.op.Op.TheVariants as i;
ghost use Rattle.rg_machine.specs.declared.next.Next.TheVariants as next;
ghost use Rattle.rg_machine.specs.Core.{Has, with_top};
ghost use Rattle.rg_machine.specs.Parts.{machine_in, val_in, with_word};
ghost use Rattle.rg_machine.specs.Cores.{core_of};
ghost use Rattle.rg_machine.specs.Stands.{Leads};

use super::Machine;
use crate::next::Next;
use rg_base::{Place, Trap, Word};

impl Machine {
    /// Where a window over a slot of the topmost frame begins; None where none can be opened there.
    #[inline(always)]
    fn base_at(&self, z: u32) -> Option<usize>
        ensures some { IfSome result (λ base. (can_open (machine_in self.now) z ≡ true)
            × (base ≡ place_of (machine_in self.now).frames z)
            × BaseUpTo self.now.frames base × (base < length self.now.frames.slots)) }
        ensures none { result ≡ None → can_open (machine_in self.now) z ≡ false }
    {
        if (z as usize) >= self.frames.size() {
            return None;
        }
        let place = self.frames.place(z);
        if self.frames.top().base <= place {
            Some(place)
        } else {
            None
        }
    }

    /// `enter s z`. Where no window is opened, all is left.
    pub fn enter(&mut self, s: u32, z: u32) -> Next
        requires given { Has (i.Enter s z) (core_of self.old) }
        ensures does { Does (i.Enter s z) self.old self.new result }
        ensures stays { (result ≡ next.On) ⊎ (self.new ≡ self.old) }
        ensures words { self.new.words ≡ self.old.words }
        ensures printed { self.new.printed ≡ self.old.printed }
    {
        let Some(base) = self.base_at(z) else {
            return Next::Lost;
        };
        self.heap.is_forest();
        let bridge = self.frames.word(s);
        let Word::Slot(_) = bridge else {
            return Next::Trap(Trap::Nil);
        };
        let owner = Place::Var {
            frame: self.depth(),
            slot: s,
        };
        let Ok(_) = self.heap.enter(&mut self.frames, bridge, owner, base) else {
            return Next::Memory;
        };
        self.frames.set_word(z, bridge);
        Next::On
    }

    /// `enterf k z`, of the object to which a word leads. Where no window is opened, all is left.
    fn enter_from(&mut self, r: Word, index: u32, z: u32) -> Next
        requires leads { Leads self.old.heap self.old.frames r }
        requires given { Has (i.EnterField index z) (core_of (with_word self.old r)) }
        ensures does { Does (i.EnterField index z) (with_word self.old r) self.new result }
        ensures stays { (result ≡ next.On) ⊎ (self.new ≡ self.old) }
        ensures words { self.new.words ≡ self.old.words }
        ensures printed { self.new.printed ≡ self.old.printed }
    {
        let Some(base) = self.base_at(z) else {
            return Next::Lost;
        };
        self.heap.is_forest();
        let Word::Slot(holder) = r else {
            return Next::Trap(Trap::Nil);
        };
        let Ok(bridge) = self.heap.read(r, index) else {
            return Next::Trap(Trap::Nil);
        };
        let Word::Slot(_) = bridge else {
            return Next::Trap(Trap::Nil);
        };
        let owner = Place::Field {
            serial: self.heap.serial(holder),
            index,
        };
        let Ok(_) = self.heap.enter(&mut self.frames, bridge, owner, base) else {
            return Next::Memory;
        };
        self.frames.set_word(z, bridge);
        Next::On
    }

    /// `enterf k z`
    pub fn enter_field(&mut self, index: u32, z: u32) -> Next
        requires given { Has (i.EnterField index z) (core_of self.old) }
        ensures { Does (i.EnterField index z) self.old self.new result }
    {
        let Some(r) = self.pop() else {
            return Next::Lost;
        };
        self.enter_from(r, index, z)
    }

    /// `enter s z`, where it opens a window and nothing need be searched for that; answers whether
    /// it does.
    #[inline(always)]
    fn open(&mut self, s: u32, z: u32) -> bool
        requires given { Has (i.Enter s z) (core_of self.old) }
        ensures opens { result ≡ true → Does (i.Enter s z) self.old self.new next.On }
        ensures stays { result ≡ false → self.new ≡ self.old }
        ensures words { self.new.words ≡ self.old.words }
        ensures printed { self.new.printed ≡ self.old.printed }
    {
        self.heap.is_forest();
        let Word::Slot(slot) = self.frames.word(s) else {
            return false;
        };
        let Some(key) = self.heap.hinted_region(slot) else {
            return false;
        };
        let Some(base) = self.base_at(z) else {
            return false;
        };
        let owner = Place::Var {
            frame: self.depth(),
            slot: s,
        };
        if !self.frames.open_window(key, owner, base) {
            return false;
        }
        self.frames.set_place(base, Word::Slot(slot));
        true
    }

    /// `enterf k z` of the object to which a word leads, where it opens a window and nothing need be
    /// searched for that; answers whether it does.
    #[inline(always)]
    fn open_from(&mut self, r: Word, index: u32, z: u32) -> bool
        requires leads { Leads self.old.heap self.old.frames r }
        requires given { Has (i.EnterField index z) (core_of (with_word self.old r)) }
        ensures opens { result ≡ true
            → Does (i.EnterField index z) (with_word self.old r) self.new next.On }
        ensures stays { result ≡ false → self.new ≡ self.old }
        ensures words { self.new.words ≡ self.old.words }
        ensures printed { self.new.printed ≡ self.old.printed }
    {
        self.heap.is_forest();
        let Word::Slot(holder) = r else {
            return false;
        };
        let Ok(bridge) = self.heap.read(r, index) else {
            return false;
        };
        let Word::Slot(slot) = bridge else {
            return false;
        };
        let Some(key) = self.heap.hinted_region(slot) else {
            return false;
        };
        let Some(base) = self.base_at(z) else {
            return false;
        };
        let owner = Place::Field {
            serial: self.heap.serial(holder),
            index,
        };
        if !self.frames.open_window(key, owner, base) {
            return false;
        }
        self.frames.set_place(base, Word::Slot(slot));
        true
    }

    /// `enter s z`, where it opens a window; answers whether it does.
    #[inline(never)]
    pub fn open_slot(&mut self, s: u8, z: u8) -> bool
        requires given { Has (i.Enter s z) (core_of self.old) }
        ensures opens { result ≡ true → Does (i.Enter s z) self.old self.new next.On }
        ensures stays { result ≡ false → self.new ≡ self.old }
        ensures words { self.new.words ≡ self.old.words }
        ensures printed { self.new.printed ≡ self.old.printed }
    {
        if self.open(u32::from(s), u32::from(z)) {
            return true;
        }
        self.open_slot_otherwise(s, z)
    }

    /// The same, whatever need be searched for.
    #[inline(never)]
    fn open_slot_otherwise(&mut self, s: u8, z: u8) -> bool
        requires given { Has (i.Enter s z) (core_of self.old) }
        ensures opens { result ≡ true → Does (i.Enter s z) self.old self.new next.On }
        ensures stays { result ≡ false → self.new ≡ self.old }
        ensures words { self.new.words ≡ self.old.words }
        ensures printed { self.new.printed ≡ self.old.printed }
    {
        let Next::On = self.enter(u32::from(s), u32::from(z)) else {
            return false;
        };
        true
    }

    /// `load r`, `enterf k z`, where it opens a window; answers whether it does.
    #[inline(never)]
    pub fn open_field(&mut self, r: u8, index: u32, z: u8) -> bool
        requires given { Has (i.EnterField index z)
            (with_top (core_of self.old) (slot_at (machine_in self.old) r)) }
        ensures opens { result ≡ true → (w : WordOf)
            × (val_in self.old w ≡ slot_at (machine_in self.old) r)
            × Does (i.EnterField index z) (with_word self.old w) self.new next.On }
        ensures stays { result ≡ false → self.new ≡ self.old }
        ensures words { self.new.words ≡ self.old.words }
        ensures printed { self.new.printed ≡ self.old.printed }
    {
        let w = self.near(r);
        if self.open_from(w, index, u32::from(z)) {
            return true;
        }
        self.open_field_otherwise(r, index, z)
    }

    /// The same, whatever need be searched for.
    #[inline(never)]
    fn open_field_otherwise(&mut self, r: u8, index: u32, z: u8) -> bool
        requires given { Has (i.EnterField index z)
            (with_top (core_of self.old) (slot_at (machine_in self.old) r)) }
        ensures opens { result ≡ true → (w : WordOf)
            × (val_in self.old w ≡ slot_at (machine_in self.old) r)
            × Does (i.EnterField index z) (with_word self.old w) self.new next.On }
        ensures stays { result ≡ false → self.new ≡ self.old }
        ensures words { self.new.words ≡ self.old.words }
        ensures printed { self.new.printed ≡ self.old.printed }
    {
        let w = self.near(r);
        let Next::On = self.enter_from(w, index, u32::from(z)) else {
            return false;
        };
        true
    }

    /// `leave s`, which never fails.
    pub fn close(&mut self, s: u32)
        requires given { Has (i.Leave s) (core_of self.old) }
        ensures does { Does (i.Leave s) self.old self.new next.On }
        ensures words { self.new.words ≡ self.old.words }
        ensures printed { self.new.printed ≡ self.old.printed }
    {
        self.heap.is_forest();
        self.end_from(s);
        if self.frames.open_count() >= 2 {
            self.heap.is_forest();
            self.frames.lie();
            let _ = self.frames.next_number();
            self.heap.leave(&mut self.frames);
            self.heap.is_forest();
        }
    }

    /// `leave s`
    pub fn leave(&mut self, s: u32) -> Next
        requires given { Has (i.Leave s) (core_of self.old) }
        ensures { Does (i.Leave s) self.old self.new result }
    {
        self.close(s);
        Next::On
    }
}
