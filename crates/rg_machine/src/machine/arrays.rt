//! Arrays and their elements (docs/architecture.md, "The machine").

ghost use Rattle.std.specs.Prelude.{◌≡◌, ◌∷◌, [], IfErr, IfOk, IfSome, IfNone, Ok, Err, length};
ghost use Rattle.std.specs.Prelude.{replicate, true, false};
ghost use Rattle.rg_base.specs.declared.object.Seen.{Seen as Object};
ghost use Rattle.rg_rules.specs.Evaluation.{object_at};
ghost use Rattle.rg_code.specs.declared.op.Op.TheVariants as i;
ghost use Rattle.rg_stack.specs.Effects.{element_in, put_element};
ghost use Rattle.rg_machine.specs.Core.{Has, with_machine};
ghost use Rattle.rg_machine.specs.Cores.{core_of};
ghost use Rattle.rg_machine.specs.Among.{ElementIs, IsAmong};
ghost use Rattle.rg_machine.specs.High.{NoneMade};
ghost use Rattle.rg_machine.specs.Inner.Arrays.{place_behind};
ghost use Rattle.rg_machine.specs.Parts.{machine_in, val_in};
ghost use Rattle.rg_machine.specs.Stands.{Leads};

use super::Machine;
use crate::scalars::{number, place_among, place_of};
use rg_base::{Memory, Trap, Word};
use std::mem;

impl Machine {
    /// So many equal words, in the machine's buffer, which `keep_words` takes back.
    pub(crate) fn equal_words(&mut self, many: u32, word: Word) -> Result<Vec<Word>, Memory>
        ensures words { IfOk result (λ words. words.items ≡ replicate many word) }
        ensures same { self.new ≡ self.old }
    {
        let alloc = *self.equal.allocator();
        let mut words = mem::replace(&mut self.equal, Vec::new(alloc));
        words.clear();
        let Ok(()) = words.resize(many as usize, word) else {
            return Err(Memory);
        };
        Ok(words)
    }

    /// Takes the buffer of `equal_words` back.
    pub(crate) fn keep_words(&mut self, words: Vec<Word>)
        ensures { self.new ≡ self.old }
    {
        self.equal = words;
    }

    /// The number of fields of the object to which a word leads.
    #[inline]
    pub fn size(&self, r: Word) -> Result<u32, Trap>
        requires { Leads self.now.heap self.now.frames r }
        ensures ok { IfOk result (λ many. (o : Object)
            × (object_at (machine_in self.now).store (val_in self.now r) ≡ Ok o)
            × (many ≡ length o.fields)) }
        ensures err { IfErr result (λ t.
            object_at (machine_in self.now).store (val_in self.now r) ≡ Err t) }
    {
        self.heap.is_forest();
        match r {
            Word::Slot(slot) => Ok(self.heap.size(slot)),
            Word::Nil | Word::Int(_) | Word::Bool(_) => Err(Trap::Nil),
        }
    }

    /// The place of the element that a word names in the array to which another leads; nil traps,
    /// and so does an element that isn't there.
    #[inline]
    pub(crate) fn element_place(&self, r: Word, index: Word) -> Result<u32, Trap>
        requires { Leads self.now.heap self.now.frames r }
        ensures { result ≡ place_behind (machine_in self.now).store (val_in self.now r)
            (val_in self.now index) }
    {
        let many = match self.size(r) {
            Ok(many) => many,
            Err(kind) => return Err(kind),
        };
        match place_among(many, number(self, index)) {
            Some(place) => Ok(place),
            None => Err(Trap::Index),
        }
    }

    /// The word in the element that another names, of the array to which a third leads, if it is
    /// there.
    #[inline(always)]
    pub fn element_of(&self, r: Word, index: Word) -> Option<Word>
        requires leads { Leads self.now.heap self.now.frames r }
        requires given { IsAmong (machine_in self.now) (val_in self.now r) (val_in self.now index) →
            Has i.Element (record (core_of self.now) {
              stack = val_in self.now index ∷ val_in self.now r ∷ [];
            }) }
        ensures some { IfSome result (ElementIs self.now (val_in self.now r)
            (val_in self.now index)) }
        ensures none { IfNone result
            (IsAmong (machine_in self.now) (val_in self.now r) (val_in self.now index) → ⊥) }
    {
        let place = place_of(number(self, index));
        let Word::Slot(slot) = r else {
            return None;
        };
        self.heap.is_forest();
        // there are fewer than 2^32 elements, so a negative number names none
        self.heap.has_few_fields(slot);
        self.heap.element(slot, place)
    }

    /// Writes a word into the element that another names, of the array to which a third leads, if
    /// it is there; answers whether it is.
    #[inline(always)]
    pub fn put_into(&mut self, r: Word, index: Word, w: Word) -> bool
        requires object { Leads self.old.heap self.old.frames r }
        requires leads { Leads self.old.heap self.old.frames w }
        requires given { IsAmong (machine_in self.old) (val_in self.old r) (val_in self.old index) →
            Has i.PutElement (record (core_of self.old) {
              stack = val_in self.old w ∷ val_in self.old index ∷ val_in self.old r ∷ [];
            }) }
        ensures put { result ≡ true →
            IsAmong (machine_in self.old) (val_in self.old r) (val_in self.old index)
            × (core_of self.new ≡ with_machine (core_of self.old) (record (machine_in self.old) {
              store = put_element (machine_in self.old).store (val_in self.old r)
                  (val_in self.old index) (val_in self.old w);
            })) }
        ensures lacks { result ≡ false →
            (IsAmong (machine_in self.old) (val_in self.old r) (val_in self.old index) → ⊥)
            × (self.new ≡ self.old) }
        ensures high { NoneMade self.old.heap self.new.heap }
    {
        let place = place_of(number(self, index));
        let Word::Slot(slot) = r else {
            return false;
        };
        self.heap.is_forest();
        // there are fewer than 2^32 elements, so a negative number names none
        self.heap.has_few_fields(slot);
        if !self.heap.write_element(&self.frames, slot, place, w) {
            return false;
        }
        true
    }

    /// The word in the element that another names, of the array to which a third leads; nil where
    /// it isn't there.
    #[inline]
    pub fn element(&self, r: Word, index: Word) -> Word
        requires leads { Leads self.now.heap self.now.frames r }
        requires given { Has i.Element (record (core_of self.now) {
          stack = val_in self.now index ∷ val_in self.now r ∷ [];
        }) }
        ensures value { val_in self.now result ≡ element_in (machine_in self.now).store
            (val_in self.now r) (val_in self.now index) }
        ensures leads { Leads self.now.heap self.now.frames result }
    {
        match self.element_of(r, index) {
            Some(w) => w,
            None => Word::Nil,
        }
    }

    /// Writes the element that a word names in the array to which another leads, as `putelem` does.
    #[inline(always)]
    pub fn put_element(&mut self, r: Word, index: Word, w: Word)
        requires object { Leads self.old.heap self.old.frames r }
        requires leads { Leads self.old.heap self.old.frames w }
        requires given { Has i.PutElement (record (core_of self.old) {
          stack = val_in self.old w ∷ val_in self.old index ∷ val_in self.old r ∷ [];
        }) }
        ensures put { core_of self.new ≡ with_machine (core_of self.old)
            (record (machine_in self.old) {
              store = put_element (machine_in self.old).store (val_in self.old r)
                  (val_in self.old index) (val_in self.old w);
            }) }
        ensures high { NoneMade self.old.heap self.new.heap }
    {
        let _ = self.put_into(r, index, w);
    }
}
