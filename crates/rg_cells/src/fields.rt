//! The fields of a cell that has many (docs/architecture.md, "Cells").

ghost use Rattle.std.specs.Prelude.{◌≡◌, ◌<◌, ◌^◌, length, slice_get, slice_set, Some, IfOk};
ghost use Rattle.rg_cells.specs.Replacing.{ReplacesIn};

use rg_base::{Memory, Word};
use std::alloc::Global;
use std::marker::Model;

/// The fields of a cell, in the order of its class; contracts see the list.
#[derive(Drop)]
pub struct Fields {
    items: Vec<Word>,
}

impl Model for Fields {
    ghost use Rattle.std.specs.Prelude.{List, ◌<◌, ◌^◌, length};
    ghost use Rattle.rg_base.specs.declared.value.Word.{Word};

    ghost Value = { List Word };

    ghost view = { λ f. f.items.items };

    ghost invariant = { λ f. length f.items.items < 2 ^ 32 };
}

impl Fields {
    /// These words as fields. As many as 2^32 of them are want of memory, too.
    pub fn of(alloc: Global, words: &[Word]) -> Result<Fields, Memory>
        ensures { IfOk result (λ f. f ≡ words.now) }
    {
        if words.len() > 4_294_967_295 {
            return Err(Memory);
        }
        match Vec::from_slice(alloc, words) {
            Ok(items) => Ok(Fields { items }),
            Err(_) => Err(Memory),
        }
    }

    /// The number of fields.
    #[inline(always)]
    pub fn len(&self) -> u32
        ensures value { result ≡ length self.now }
        ensures within { length self.now < 2 ^ 32 }
    {
        self.items.len() as u32
    }

    /// A field by its number, counted from 0.
    #[inline(always)]
    pub fn get(&self, k: u32) -> Word
        requires { k < length self.now }
        ensures { slice_get self.now k ≡ Some result }
    {
        self.items[k as usize]
    }

    /// A field by its number, if there are so many.
    #[inline(always)]
    pub fn element(&self, index: usize) -> Option<Word>
        ensures { slice_get self.now index ≡ result }
    {
        if index < self.items.len() {
            Some(self.items[index])
        } else {
            None
        }
    }

    /// Writes a field, if there are so many and it led nowhere; answers whether it did.
    #[inline(always)]
    pub fn replace_plain(&mut self, index: usize, w: Word) -> bool
        ensures { ReplacesIn result self.old self.new index w }
    {
        if index >= self.items.len() {
            return false;
        }
        if let Word::Slot(_) = self.items[index] {
            return false;
        }
        self.items[index] = w;
        true
    }

    /// Writes a field.
    #[inline(always)]
    pub fn set(&mut self, k: u32, w: Word)
        requires { k < length self.old }
        ensures { self.new ≡ slice_set self.old k w }
    {
        self.items[k as usize] = w;
    }
}
