//! Lists of types (docs/architecture.md, "Modules").

ghost use Rattle.std.specs.Prelude.{◌≡◌, [], ◌∷◌, ◌++◌, OnOk, OnErr};

use rg_base::{Memory, Ty};
use std::alloc::Global;
use std::marker::Model;

/// A list of types; contracts see the list.
#[derive(Drop)]
pub struct Tys {
    types: Vec<Ty>,
}

impl Model for Tys {
    ghost use Rattle.std.specs.Prelude.{List};
    ghost use Rattle.rg_base.specs.declared.ty.Ty.{Ty};

    ghost Value = { List Ty };

    ghost view = { λ t. t.types.items };
}

/// The list of these types; takes no memory.
impl From<Vec<Ty>> for Tys {
    ghost use Rattle.std.specs.Prelude.{◌≡◌};

    ghost from_gives = { λ types list. list ≡ types.items };

    fn from(types: Vec<Ty>) -> Tys {
        Tys { types }
    }
}

/// The types of the list; takes no memory.
impl From<Tys> for Vec<Ty> {
    ghost use Rattle.std.specs.Prelude.{◌≡◌};

    ghost from_gives = { λ list types. types.items ≡ list };

    fn from(list: Tys) -> Vec<Ty> {
        list.types
    }
}

impl Tys {
    /// The empty list.
    pub fn new(alloc: Global) -> Tys
        ensures { result ≡ [] }
    {
        Tys {
            types: Vec::new(alloc),
        }
    }

    /// Appends a type.
    pub fn push(&mut self, t: Ty) -> Result<(), Memory>
        ensures ok { OnOk result (self.new ≡ self.old ++ t ∷ []) }
        ensures err { OnErr result (self.new ≡ self.old) }
    {
        match self.types.push(t) {
            Ok(()) => Ok(()),
            Err(_) => Err(Memory),
        }
    }

    /// The types.
    pub fn items(&self) -> &[Ty]
        ensures { result.now ≡ self.now }
    {
        self.types.as_slice()
    }
}
