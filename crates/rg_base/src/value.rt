//! Values, and lists of them (docs/language.md, "Values and their text").

ghost use Rattle.std.specs.Prelude.{◌≡◌, [], ◌∷◌, ◌++◌, length, slice_get, OnOk, OnErr};

use crate::fault::Memory;
use std::alloc::Global;
use std::marker::Model;

/// What a variable or a field holds. An object goes by its serial, which counts all objects made,
/// from 0.
#[derive(Clone, Copy, Debug, PartialEq, Eq)]
pub enum Val {
    /// `nil`
    Nil,
    /// `7`
    Int(i64),
    /// `true`
    Bool(bool),
    /// a reference to an object
    Obj(u64),
}

/// What a slot of a frame or a field of a cell holds. It shows the value of the same form; a cell
/// shows the object whose serial it has.
#[derive(Clone, Copy, Debug, Default, PartialEq, Eq)]
pub enum Word {
    /// `nil`
    #[default]
    Nil,
    /// `7`
    Int(i64),
    /// `true`
    Bool(bool),
    /// a reference to a cell, by its slot
    Slot(usize),
}

/// A list of values; contracts see the list.
#[derive(Debug, Drop)]
pub struct Vals {
    items: Vec<Val>,
}

impl Model for Vals {
    ghost use Rattle.std.specs.Prelude.{List};
    ghost use Rattle.rg_base.specs.declared.value.Val.{Val};

    ghost Value = { List Val };

    ghost view = { λ v. v.items.items };
}

/// The list of these values; takes no memory.
impl From<Vec<Val>> for Vals {
    ghost use Rattle.std.specs.Prelude.{◌≡◌};

    ghost from_gives = { λ values list. list ≡ values.items };

    fn from(items: Vec<Val>) -> Vals {
        Vals { items }
    }
}

/// The values of the list; takes no memory.
impl From<Vals> for Vec<Val> {
    ghost use Rattle.std.specs.Prelude.{◌≡◌};

    ghost from_gives = { λ list values. values.items ≡ list };

    fn from(list: Vals) -> Vec<Val> {
        list.items
    }
}

impl Vals {
    /// The empty list.
    pub fn new(alloc: Global) -> Vals
        ensures { result ≡ [] }
    {
        Vals {
            items: Vec::new(alloc),
        }
    }

    /// The number of values.
    pub fn len(&self) -> usize
        ensures { result ≡ length self.now }
    {
        self.items.len()
    }

    /// The value at a place, counted from 0; None past the last one.
    pub fn get(&self, k: usize) -> Option<Val>
        ensures { result ≡ slice_get self.now k }
    {
        self.items.get(k).copied()
    }

    /// Appends a value.
    pub fn push(&mut self, v: Val) -> Result<(), Memory>
        ensures ok { OnOk result (self.new ≡ self.old ++ v ∷ []) }
        ensures err { OnErr result (self.new ≡ self.old) }
    {
        match self.items.push(v) {
            Ok(()) => Ok(()),
            Err(_) => Err(Memory),
        }
    }
}
