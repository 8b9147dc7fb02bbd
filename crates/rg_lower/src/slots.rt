//! The variables of a body in their slots. A body has at most 256 names, so that no search is
//! longer (docs/language.md, "Instructions and lowering").

ghost use Rattle.std.specs.Prelude.{◌≡◌, ◌<◌, ◌+◌, ◌^◌, ◌≤◌, [], ◌∷◌, ◌++◌, length, take};
ghost use Rattle.std.specs.Prelude.{IfSome, OnOk};
ghost use Rattle.rg_base.specs.declared.limits.TheConstants.{BODY_NAMES};
ghost use Rattle.rg_tree.specs.Rows.RowsExist.{IsNameIn};
ghost use Rattle.rg_rules.specs.Environment.{same_variable};
ghost use Rattle.rg_code.specs.Lowering.{slot_of, type_in};
ghost use Rattle.rg_lower.specs.Inner.Slots.{scope_of, variable_of, AreHeldIn};

use rg_base::{Memory, Ty};
use rg_names::Book;
use std::alloc::Global;
use std::marker::Model;

/// A variable with its declared type. The name None is `self`.
#[derive(Clone, Copy)]
pub struct Held {
    pub name: Option<u32>,
    pub ty: Ty,
}

/// A slot with the declared type of its variable.
#[derive(Clone, Copy)]
pub struct Found {
    pub slot: u32,
    pub ty: Ty,
}

/// The visible variables, each in the slot of its place: no more than the names of a body.
#[derive(Drop)]
pub struct Slots {
    held: Vec<Held>,
}

impl Model for Slots {
    ghost use Rattle.std.specs.Prelude.{◌≤◌, List, length};
    ghost use Rattle.rg_base.specs.declared.limits.TheConstants.{BODY_NAMES};
    ghost use Rattle.rg_lower.specs.declared.slots.Held.{Held};

    ghost Value = { List Held };

    ghost view = { λ s. s.held.items };

    ghost invariant = { λ s. length s.held.items ≤ BODY_NAMES };
}

impl Slots {
    /// No variables.
    pub fn new(alloc: Global) -> Slots
        ensures { result ≡ [] }
    {
        Slots {
            held: Vec::new(alloc),
        }
    }

    /// The number of variables, which is the next slot.
    pub fn next(&self) -> u32
        ensures is { result ≡ length self.now }
        ensures low { result + 1 < 2 ^ 32 }
    {
        self.held.len() as u32
    }

    /// One more variable, in the next slot.
    pub fn push(&mut self, name: Option<u32>, ty: Ty) -> Result<(), Memory>
        requires { length self.old < BODY_NAMES }
        ensures { OnOk result (self.new ≡ self.old ++ record { name = name; ty = ty } ∷ []) }
    {
        match self.held.push(Held { name, ty }) {
            Ok(()) => Ok(()),
            Err(_) => Err(Memory),
        }
    }

    /// The first variables, so many.
    pub fn keep(&mut self, count: u32)
        requires { count ≤ length self.old }
        ensures { self.new ≡ take count self.old }
    {
        self.held.truncate(count as usize);
    }

    /// The slot of a variable with its declared type; the next slot and `int` where it isn't there.
    pub fn find(&self, book: &Book, name: Option<u32>) -> Found
        requires held { AreHeldIn book.now.program self.now }
        requires name { IfSome name (IsNameIn book.now.program) }
        ensures slot { let t = book.now.program in
            result.slot ≡ slot_of (scope_of t self.now) (variable_of t name) }
        ensures ty { let t = book.now.program in
            result.ty ≡ type_in (scope_of t self.now) (variable_of t name) }
        ensures low { result.slot + 1 < 2 ^ 32 }
    {
        found_in(book, &self.held, name)
    }
}

// Whether two names are one.
fn is_same(book: &Book, a: Option<u32>, b: Option<u32>) -> bool
    requires a { IfSome a (IsNameIn book.now.program) }
    requires b { IfSome b (IsNameIn book.now.program) }
    ensures { let t = book.now.program in
        result ≡ same_variable (variable_of t a) (variable_of t b) }
{
    match (a, b) {
        (None, None) => true,
        (Some(x), Some(y)) => book.is_same(x, y),
        (None, Some(_)) | (Some(_), None) => false,
    }
}

// The place of the first variable of a name.
fn found_in(book: &Book, held: &[Held], name: Option<u32>) -> Found
    requires few { length held.now ≤ BODY_NAMES }
    requires held { AreHeldIn book.now.program held.now }
    requires name { IfSome name (IsNameIn book.now.program) }
    ensures slot { let t = book.now.program in
        result.slot ≡ slot_of (scope_of t held.now) (variable_of t name) }
    ensures ty { let t = book.now.program in
        result.ty ≡ type_in (scope_of t held.now) (variable_of t name) }
    ensures low { result.slot ≤ length held.now }
{
    let mut slot = 0;
    for one in held {
        if is_same(book, one.name, name) {
            return Found { slot, ty: one.ty };
        }
        slot += 1;
    }
    Found { slot, ty: Ty::Int }
}
