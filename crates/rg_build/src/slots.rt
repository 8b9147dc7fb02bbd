//! The variables of a body in their slots (docs/architecture.md, "Modules").

ghost use Rattle.std.specs.Prelude.{◌≡◌, ◌≤◌, [], ◌∷◌, ◌++◌, length, take, IfOk, IfSome, OnOk};
ghost use Rattle.rg_tree.specs.Rows.RowTrees.{variable_of};
ghost use Rattle.rg_tree.specs.Rows.RowsExist.{IsNameIn};
ghost use Rattle.rg_rules.specs.Environment.{same_variable};
ghost use Rattle.rg_code.specs.Lowering.{type_in};
ghost use Rattle.rg_build.specs.Inner.Slots.{scope_of, types_held, AreHeldIn};

use rg_base::{Memory, Ty};
use rg_module::Tys;
use rg_names::Book;
use std::alloc::Global;
use std::marker::Model;

/// A variable with its declared type. The name None is `self`.
#[derive(Clone, Copy)]
pub struct Held {
    pub name: Option<u32>,
    pub ty: Ty,
}

/// The visible variables, each in the slot of its place.
#[derive(Drop)]
pub struct Slots {
    alloc: Global,
    held: Vec<Held>,
}

impl Model for Slots {
    ghost use Rattle.std.specs.Prelude.{List};
    ghost use Rattle.rg_build.specs.declared.slots.Held.{Held};

    ghost Value = { List Held };

    ghost view = { λ s. s.held.items };
}

impl Slots {
    /// No variables.
    pub fn new(alloc: Global) -> Slots
        ensures { result ≡ [] }
    {
        Slots {
            alloc,
            held: Vec::new(alloc),
        }
    }

    /// The number of variables.
    pub fn count(&self) -> usize
        ensures { result ≡ length self.now }
    {
        self.held.len()
    }

    /// One more variable, in the next slot.
    pub fn push(&mut self, name: Option<u32>, ty: Ty) -> Result<(), Memory>
        ensures { OnOk result (self.new ≡ self.old ++ record { name = name; ty = ty } ∷ []) }
    {
        match self.held.push(Held { name, ty }) {
            Ok(()) => Ok(()),
            Err(_) => Err(Memory),
        }
    }

    /// The first variables, so many.
    pub fn keep(&mut self, count: usize)
        requires { count ≤ length self.old }
        ensures { self.new ≡ take count self.old }
    {
        self.held.truncate(count);
    }

    /// The types of the variables, in order.
    pub fn types(&self) -> Result<Tys, Memory>
        ensures { IfOk result (λ types. types ≡ types_held self.now) }
    {
        types_of(self.alloc, &self.held)
    }

    /// The declared type of a variable; `int` where it isn't there.
    pub fn find(&self, book: &Book, name: Option<u32>) -> Ty
        requires held { AreHeldIn book.now.program self.now }
        requires name { IfSome name (IsNameIn book.now.program) }
        ensures { let t = book.now.program in
            result ≡ type_in (scope_of t self.now) (variable_of t name) }
    {
        found_in(book, &self.held, name)
    }
}

// The types of variables, in order.
fn types_of(alloc: Global, held: &[Held]) -> Result<Tys, Memory>
    ensures { IfOk result (λ types. types ≡ types_held held.now) }
{
    let mut types = Tys::new(alloc);
    for one in held {
        types.push(one.ty)?;
    }
    Ok(types)
}

// Whether two names are one.
fn is_same(book: &Book, a: Option<u32>, b: Option<u32>) -> bool
    requires a { IfSome a (IsNameIn book.now.program) }
    requires b { IfSome b (IsNameIn book.now.program) }
    ensures { let t = book.now.program in
        result ≡ same_variable (variable_of t a) (variable_of t b) }
{
    match (a, b) {
        (None, None) => true,
        (Some(x), Some(y)) => book.is_same(x, y),
        (None, Some(_)) | (Some(_), None) => false,
    }
}

// The declared type of the first variable of a name.
fn found_in(book: &Book, held: &[Held], name: Option<u32>) -> Ty
    requires held { AreHeldIn book.now.program held.now }
    requires name { IfSome name (IsNameIn book.now.program) }
    ensures { let t = book.now.program in
        result ≡ type_in (scope_of t held.now) (variable_of t name) }
{
    for one in held {
        if is_same(book, one.name, name) {
            return one.ty;
        }
    }
    Ty::Int
}
