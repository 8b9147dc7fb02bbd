//! What ends with slots, and what they own (docs/architecture.md, "The machine").

ghost use Rattle.std.specs.Prelude.{◌≡◌, ◌<◌, ◌≤◌, ◌+◌, ◌∷◌, [], Some, length};
ghost use Rattle.std.specs.Prelude.{true, false};
ghost use Rattle.rg_base.specs.declared.value.Val.TheVariants.{Nil};
ghost use Rattle.rg_base.specs.declared.value.Word.TheVariants.{Nil as NilWord};
ghost use Rattle.rg_code.specs.declared.op.Op.TheVariants as i;
ghost use Rattle.rg_frames.specs.Changes.{ended, with_slot};
ghost use Rattle.rg_stack.specs.Machine.{put_slot, slot_at, top_slots};
ghost use Rattle.rg_stack.specs.Needs.{loose, owned_once};
ghost use Rattle.rg_machine.specs.Acts.{Does};
ghost use Rattle.rg_machine.specs.Core.{Has, with_machine};
ghost use Rattle.rg_machine.specs.Inner.Ends.{MayEnd};
ghost use Rattle.rg_machine.specs.Effects.{Apart, AllLoose, emptied, ending, without};
ghost use Rattle.rg_machine.specs.Keeps.{SameBacks};
ghost use Rattle.rg_machine.specs.High.{NoneMade};
ghost use Rattle.rg_machine.specs.Parts.{machine_in, val_in};
ghost use Rattle.rg_machine.specs.Cores.{core_of};
ghost use Rattle.rg_machine.specs.Stands.{Leads};

use super::Machine;
use crate::next::Next;
use rg_base::Word;

impl Machine {
    /// The closed region into which a word leads goes, with all beneath it, if it leads into one.
    fn release(&mut self, w: Word)
        requires leads { Leads self.old.heap self.old.frames w }
        requires once { owned_once (machine_in self.old) ≡ true }
        requires loose { loose (machine_in self.old) (val_in self.old w) ≡ true }
        requires stack { Apart (core_of self.old) (val_in self.old w) }
        ensures gone { core_of self.new ≡ without (core_of self.old) (val_in self.old w ∷ []) }
        ensures words { self.new.words ≡ self.old.words }
        ensures frames { self.new.frames ≡ self.old.frames }
        ensures high { NoneMade self.old.heap self.new.heap }
    {
        self.heap.is_forest();
        if self.heap.owns(&self.frames, w) {
            self.heap.drop_iso(w);
            self.heap.is_forest();
        }
    }

    /// What a slot of the topmost frame owns goes, and the slot is nil.
    fn drop_slot(&mut self, s: u32)
        requires once { owned_once (machine_in self.old) ≡ true }
        requires stack { AllLoose (core_of self.old) }
        ensures gone { core_of self.new ≡ with_machine (core_of self.old)
            (put_slot (without (core_of self.old)
            (slot_at (machine_in self.old) s ∷ [])).machine s Nil) }
        ensures words { self.new.words ≡ self.old.words }
        ensures backs { SameBacks (machine_in self.old) (machine_in self.new) }
        ensures high { NoneMade self.old.heap self.new.heap }
    {
        self.heap.is_forest();
        let w = self.slot(s);
        self.set_slot(s, Word::Nil);
        self.release(w);
    }

    /// What a slot of the topmost frame owns goes, and the slot is nil, whatever its number.
    #[inline(never)]
    fn drop_nth(&mut self, k: usize)
        requires there { k < length (top_slots (machine_in self.old).frames) }
        requires once { owned_once (machine_in self.old) ≡ true }
        requires stack { AllLoose (core_of self.old) }
        ensures gone { core_of self.new ≡ with_machine (core_of self.old)
            (put_slot (without (core_of self.old)
            (slot_at (machine_in self.old) k ∷ [])).machine k Nil) }
        ensures words { self.new.words ≡ self.old.words }
        ensures backs { SameBacks (machine_in self.old) (machine_in self.new) }
        ensures high { NoneMade self.old.heap self.new.heap }
    {
        self.heap.is_forest();
        let w = self.frames.nth_word(k);
        self.frames.clear_word(k);
        self.release(w);
    }

    /// What a slot of the topmost frame owns goes, and the slot is nil then.
    #[inline]
    fn release_nth(&mut self, k: usize)
        requires there { k < length (top_slots (machine_in self.old).frames) }
        requires once { owned_once (machine_in self.old) ≡ true }
        requires stack { AllLoose (core_of self.old) }
        ensures gone { emptied (core_of self.new) k ≡ without (emptied (core_of self.old) k)
            (slot_at (machine_in self.old) k ∷ []) }
        ensures once { owned_once (machine_in self.new) ≡ true }
        ensures stack { AllLoose (core_of self.new) }
        ensures words { self.new.words ≡ self.old.words }
        ensures high { NoneMade self.old.heap self.new.heap }
    {
        self.heap.is_forest();
        let w = self.frames.nth_word(k);
        if self.heap.is_at_home(&self.frames, w) {
            return;
        }
        self.drop_nth(k);
    }

    /// What the slots of the topmost frame from one on own goes; they are to end.
    fn release_from(&mut self, s: u32)
        requires { MayEnd self.old }
        ensures ended { emptied (core_of self.new) s ≡ ending (core_of self.old) s }
        ensures words { self.new.words ≡ self.old.words }
        ensures backs { SameBacks (machine_in self.old) (machine_in self.new) }
        ensures high { NoneMade self.old.heap self.new.heap }
    {
        self.heap.is_forest();
        let mut left = self.frames.live();
        if left <= s as usize {
            return;
        }
        'slots: while left > s as usize {
            left -= 1;
            self.release_nth(left);
        }
    }

    /// Makes nil a slot of the topmost frame that owns nothing; answers whether that is known.
    #[inline(always)]
    fn end_nth(&mut self, k: usize) -> bool
        requires there { k < length (top_slots (machine_in self.old).frames) }
        ensures gone { result ≡ true → core_of self.new ≡ with_machine (core_of self.old)
            (put_slot (without (core_of self.old)
            (slot_at (machine_in self.old) k ∷ [])).machine k Nil) }
        ensures nil { result ≡ true → self.new.frames ≡ with_slot self.old.frames k NilWord }
        ensures words { self.new.words ≡ self.old.words }
        ensures heap { self.new.heap ≡ self.old.heap }
        ensures stays { result ≡ false → self.new ≡ self.old }
    {
        self.heap.is_forest();
        let w = self.frames.nth_word(k);
        if self.heap.is_at_home(&self.frames, w) {
            let _ = self.frames.take_word(k);
            return true;
        }
        false
    }

    /// What the slots of the topmost frame from one on own goes, and they are nil.
    #[inline]
    pub fn end_from(&mut self, s: u32)
        requires once { owned_once (machine_in self.old) ≡ true }
        requires stack { AllLoose (core_of self.old) }
        ensures ended { core_of self.new ≡ ending (core_of self.old) s }
        ensures words { self.new.words ≡ self.old.words }
        ensures backs { SameBacks (machine_in self.old) (machine_in self.new) }
        ensures high { NoneMade self.old.heap self.new.heap }
    {
        self.heap.is_forest();
        let live = self.frames.live();
        if live <= s as usize {
            return;
        }
        self.end_written(s, live);
    }

    /// The same, also where some of them were written: each is made nil as it is looked at, from
    /// the last one down to the first that may own something.
    #[inline(never)]
    fn end_written(&mut self, s: u32, live: usize)
        requires may { MayEnd self.old }
        requires some { s < live }
        requires nil { ended self.old.frames live ≡ self.old.frames }
        requires within { self.old.frames.first + live ≤ length self.old.frames.slots }
        ensures ended { core_of self.new ≡ ending (core_of self.old) s }
        ensures words { self.new.words ≡ self.old.words }
        ensures backs { SameBacks (machine_in self.old) (machine_in self.new) }
        ensures high { NoneMade self.old.heap self.new.heap }
    {
        self.heap.is_forest();
        let mut left = live;
        'slots: while left > s as usize {
            if !self.end_nth(left - 1) {
                self.heap.is_forest();
                self.end_owning(s);
                return;
            }
            left -= 1;
        }
        self.frames.settle(s);
    }

    /// The same, also where some of them own something: two looks at each.
    #[inline(never)]
    fn end_owning(&mut self, s: u32)
        requires { MayEnd self.old }
        ensures ended { core_of self.new ≡ ending (core_of self.old) s }
        ensures words { self.new.words ≡ self.old.words }
        ensures backs { SameBacks (machine_in self.old) (machine_in self.new) }
        ensures high { NoneMade self.old.heap self.new.heap }
    {
        self.release_from(s);
        self.frames.end_words(s);
    }

    /// `own s`
    pub fn own(&mut self, s: u32) -> Next
        requires given { Has (i.Own s) (core_of self.old) }
        ensures { Does (i.Own s) self.old self.new result }
    {
        let Some(_) = self.top() else {
            return Next::Lost;
        };
        self.drop_slot(s);
        match self.pop() {
            Some(w) => {
                self.set_slot(s, w);
                Next::On
            }
            None => Next::Lost,
        }
    }

    /// `end s`
    pub fn end(&mut self, s: u32) -> Next
        requires given { Has (i.End s) (core_of self.old) }
        ensures { Does (i.End s) self.old self.new result }
    {
        self.end_from(s);
        Next::On
    }

    /// `pop` and `drop`, which do the same.
    pub fn pop_top(&mut self) -> Next
        requires given { Has i.Pop (core_of self.old) }
        ensures { Does i.Pop self.old self.new result }
    {
        match self.pop() {
            Some(w) => {
                self.release(w);
                Next::On
            }
            None => Next::Lost,
        }
    }
}
