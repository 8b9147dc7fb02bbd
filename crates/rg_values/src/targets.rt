//! Where the value of a right side goes (docs/language.md, "Steps").

ghost use Rattle.std.specs.Prelude.{◌<◌, ◌≡◌, List, OnOk, length, ℕ};
ghost use Rattle.rg_tree.specs.Rows.RowsExist.{IsExprNumber, IsPathIn};
ghost use Rattle.rg_rules.specs.Steps.{put_element};
ghost use Rattle.rg_values.specs.Fits.{PartsFit};
ghost use Rattle.rg_values.specs.Rooms.{HasRoom};
ghost use Rattle.rg_values.specs.Spots.{AimFits, AimIs, LeftFits, use_of};
ghost use Rattle.rg_values.specs.Kept.{kept_of, plain_of};

use crate::state::items::At;
use crate::state::locals::set;
use crate::state::parts::Parts;
use crate::state::rows::LocalRow;
use crate::values::elements::element_spot;
use crate::values::paths::{Spot, spot_of};
use crate::values::types::written_type;
use rg_base::{Memory, Trap, Ty, Val};
use rg_names::Book;
use rg_store::{write_at, write_field};
use rg_tree::{Path, TypeRow};

/// What stands left of `=`.
#[derive(Clone, Copy)]
pub enum Left {
    /// `let x: T`
    Let { name: u32, ty: TypeRow },
    /// `x` or `q.f`
    Set(Path),
    /// `q[e]`
    SetAt { path: Path, index: u32 },
}

/// A statement without its right side: where it stands, and what stands left of `=`.
#[derive(Clone, Copy)]
pub struct Assignment {
    pub at: At,
    pub left: Left,
}

/// Where a value goes.
#[derive(Clone, Copy)]
pub enum Aim {
    /// into a new variable of a type
    Declares { name: u32, ty: Ty },
    /// into a variable that is there
    Assigns(Option<u32>),
    /// into the field of a name, in the object at a place
    Field { place: usize, name: u32 },
    /// into an element of the array at a place
    Element { place: usize, element: usize },
}

/// Where the value goes. In `q.f = r`, q is followed and tested, in `q[e] = r` e too.
pub fn aim_of(book: &Book, m: &Parts, left: Left) -> Result<Aim, Trap>
    requires fit { PartsFit book.now.program m.now }
    requires left { LeftFits book.now.program left }
    ensures { AimIs book.now.program (kept_of m.now) left result }
{
    match left {
        Left::Let { name, ty } => Ok(Aim::Declares {
            name,
            ty: written_type(book, ty),
        }),
        Left::Set(path) => match spot_of(book, &m.store, &m.frame.locals, path) {
            Ok(Spot::Variable(name)) => Ok(Aim::Assigns(name)),
            Ok(Spot::Field { place, name }) => Ok(Aim::Field { place, name }),
            Err(kind) => Err(kind),
        },
        Left::SetAt { path, index } => element_aim(book, m, path, index),
    }
}

/// The element of `q[e]`: q is followed and tested, then e is computed and tested.
fn element_aim(book: &Book, m: &Parts, path: Path, index: u32) -> Result<Aim, Trap>
    requires fit { PartsFit book.now.program m.now }
    requires path { IsPathIn book.now.program path }
    requires index { IsExprNumber book.now.program index }
    ensures { AimIs book.now.program (kept_of m.now) (Left.SetAt path index) result }
{
    let spot = element_spot(book, &m.store, &m.frame.locals, path, index)?;
    Ok(Aim::Element {
        place: spot.place,
        element: spot.element,
    })
}

/// Makes the room that a value needs.
pub fn make_room(book: &Book, m: &mut Parts, aim: Aim) -> Result<(), Memory>
    requires fit { PartsFit book.now.program m.old }
    ensures room { OnOk result (HasRoom m.new aim) }
    ensures kept { kept_of m.new ≡ kept_of m.old }
    ensures fit { PartsFit book.now.program m.new }
{
    match aim {
        Aim::Declares { .. } => {
            let Ok(()) = m.frame.locals.reserve(1) else {
                return Err(Memory);
            };
            Ok(())
        }
        Aim::Assigns(_) | Aim::Field { .. } | Aim::Element { .. } => Ok(()),
    }
}

/// Writes the field or the element at a place of an object, where there is one.
pub(crate) fn put_element(book: &Book, m: &mut Parts, place: usize, element: usize, v: Val)
    requires fit { PartsFit book.now.program m.old }
    requires there { place < length m.old.store.items }
    ensures put { (input : List ℕ) → plain_of book.now.program (kept_of m.new) input ≡ put_element
        (Val.Obj place) element (plain_of book.now.program (kept_of m.old) input) v }
    ensures fit { PartsFit book.now.program m.new }
{
    write_at(&mut m.store, place, element, v);
}

/// Puts a value where it goes.
pub fn put(book: &Book, m: &mut Parts, aim: Aim, v: Val)
    requires fit { PartsFit book.now.program m.old }
    requires aim { AimFits book.now.program (length m.old.store.items) aim }
    requires room { HasRoom m.old aim }
    ensures put { (input : List ℕ) → plain_of book.now.program (kept_of m.new) input
        ≡ use_of book.now.program aim (plain_of book.now.program (kept_of m.old) input) v }
    ensures fit { PartsFit book.now.program m.new }
{
    match aim {
        Aim::Declares { name, ty } => m.frame.locals.push_reserved(LocalRow {
            name: Some(name),
            ty,
            value: v,
        }),
        Aim::Assigns(name) => set(book, &mut m.frame.locals, name, v),
        Aim::Field { place, name } => {
            write_field(book, &mut m.store, place, name, v);
        }
        Aim::Element { place, element } => put_element(book, m, place, element, v),
    }
}
