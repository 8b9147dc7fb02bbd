//! The table of names: each name once, with the numbers in the order in which they came
//! (docs/language.md, "The tree").

ghost use Rattle.std.specs.Prelude.{◌≡◌, ◌<◌, [], ◌∷◌, ◌++◌, length, None, Some, IfOk, IsOk};
ghost use Rattle.std.specs.Prelude.{IsSome, OnOk, OnErr, slice_get};
ghost use Rattle.rg_tree.specs.Rows.Tables.{number_of, with_name};

use crate::keyed::Keyed;
use crate::table::row_number;
use indexmap::IndexSet;
use rg_base::Memory;
use std::alloc::Global;
use std::marker::Model;

/// The names; contracts see the list of their bytes.
#[derive(Drop)]
pub struct Names {
    keys: IndexSet<Vec<u8>, Keyed>,
}

impl Model for Names {
    ghost use Rattle.std.specs.Prelude.{ℕ, ◌<◌, ◌^◌, List, length, map};

    ghost Value = { List (List ℕ) };

    ghost view = { λ n. map (λ key. key.items) n.keys.keys };

    ghost invariant = { λ n. length n.keys.keys < 2 ^ 32 };
}

impl Names {
    /// No names. The key chooses their hashes.
    pub fn new(alloc: Global, key: u64) -> Names
        ensures { result ≡ [] }
    {
        Names {
            keys: IndexSet::with_hasher(alloc, Keyed::new(key)),
        }
    }

    /// The name of a number.
    pub fn name(&self, i: u32) -> &[u8]
        requires { i < length self.now }
        ensures { slice_get self.now i ≡ Some result.now }
    {
        self.keys.as_slice()[i as usize].as_slice()
    }

    /// The number of a name, which goes last if it is new. A name that is there takes no memory.
    pub fn add(&mut self, bytes: &[u8]) -> Result<u32, Memory>
        ensures names { OnOk result (self.new ≡ with_name self.old bytes.now) }
        ensures number { IfOk result (λ i. number_of self.new bytes.now ≡ Some i) }
        ensures stored { IfOk result (λ i. slice_get self.new i ≡ Some bytes.now) }
        ensures known { IsSome (number_of self.old bytes.now) → IsOk result }
        ensures err { OnErr result (self.new ≡ self.old) }
    {
        match self.find(bytes) {
            Some(number) => Ok(number),
            None => self.push(bytes),
        }
    }

    // The number of a name, if it is there.
    fn find(&self, bytes: &[u8]) -> Option<u32>
        ensures { result ≡ number_of self.now bytes.now }
    {
        match self.keys.get_index_of(bytes) {
            Some(number) => Some(number as u32),
            None => None,
        }
    }

    // Puts a new name last.
    fn push(&mut self, bytes: &[u8]) -> Result<u32, Memory>
        requires new { number_of self.old bytes.now ≡ None }
        ensures names { OnOk result (self.new ≡ self.old ++ bytes.now ∷ []) }
        ensures number { IfOk result (λ i. number_of self.new bytes.now ≡ Some i) }
        ensures stored { IfOk result (λ i. slice_get self.new i ≡ Some bytes.now) }
        ensures err { OnErr result (self.new ≡ self.old) }
    {
        let number = row_number(self.keys.len())?;
        let alloc = *self.keys.allocator();
        let Ok(key) = bytes.to_vec(alloc) else {
            return Err(Memory);
        };
        let Ok(_) = self.keys.insert(key) else {
            return Err(Memory);
        };
        Ok(number)
    }
}
