//! The steps of `new C`, `new tmp C` and `new iso C in M`, and of each with a size
//! (docs/language.md, "Steps").

ghost use Rattle.std.specs.Prelude.{◌<◌, ◌≡◌, IfSome, List, OnOk, length, vec_capacity, ℕ};
ghost use Rattle.rg_tree.specs.Rows.RowTrees.{classes_of};
ghost use Rattle.rg_tree.specs.Rows.RowsExist.{IsExprNumber, IsNameIn};
ghost use Rattle.rg_rules.specs.RightSides.{array_size};
ghost use Rattle.rg_tree.specs.Rows.Tables.{Tables};
ghost use Rattle.rg_store.specs.Shown.{seen_of};
ghost use Rattle.rg_store.specs.Regions.{LabelFits};
ghost use Rattle.rg_values.specs.Fits.{PartsFit};
ghost use Rattle.rg_statements.specs.Inner.Makes.{HasRooms, ObjectIs, label_of, managers_with};
ghost use Rattle.rg_statements.specs.Assignments.{AssignStands};
ghost use Rattle.rg_statements.specs.Inner.Makes.{right_of, use_with, with_object};
ghost use Rattle.rg_values.specs.Spots.{AimFits};
ghost use Rattle.rg_values.specs.Steps.{Makes};
ghost use Rattle.rg_values.specs.Kept.{kept_of, plain_of};

use rg_base::{ARRAY_SIZE, Label, Manager, Memory, Trap, Val};
use rg_names::Book;
use rg_store::{ObjectRow, as_int, new_array, new_object};
use rg_values::{Aim, Assignment, Parts, Refusal, advance, aim_of, make_room, put, value};
use std::alloc::Global;

/// What is made.
#[derive(Clone, Copy)]
pub enum Kind {
    /// `new C`: an object of the active region
    Plain,
    /// `new tmp C`: a temporary of the topmost window
    Temporary,
    /// `new iso C in M`: the first object of a new region
    Owner(Manager),
}

/// What `new` says: the name of a class, the number of elements where it has one, and the form.
#[derive(Clone, Copy)]
pub struct Made {
    pub name: u32,
    pub size: Option<u32>,
    pub kind: Kind,
}

/// To what the new object belongs.
fn label(m: &Parts, kind: Kind) -> Label
    ensures { (t : Tables) (input : List ℕ) → let now = plain_of t (kept_of m.now) input in
        result ≡ label_of now.windows now.managers kind }
{
    match kind {
        Kind::Plain => Label::Region(m.window.region),
        Kind::Temporary => Label::Temp(m.window.number),
        Kind::Owner(_) => Label::Region(m.managers.len() as u64),
    }
}

/// Makes room for an object, a region, and the reference.
fn make_rooms(book: &Book, m: &mut Parts, aim: Aim) -> Result<(), Memory>
    requires fit { PartsFit book.now.program m.old }
    ensures rooms { OnOk result (HasRooms m.new aim) }
    ensures kept { kept_of m.new ≡ kept_of m.old }
    ensures fit { PartsFit book.now.program m.new }
{
    let Ok(()) = make_room(book, m, aim) else {
        return Err(Memory);
    };
    let Ok(()) = m.store.reserve(1) else {
        return Err(Memory);
    };
    let Ok(()) = m.managers.reserve(1) else {
        return Err(Memory);
    };
    Ok(())
}

/// Adds the manager of a new region where there is one.
fn add_region(managers: &mut Vec<Manager>, kind: Kind)
    requires { length managers.old.items < vec_capacity managers.old }
    ensures { managers.new.items ≡ managers_with kind managers.old.items }
{
    match kind {
        Kind::Plain | Kind::Temporary => {}
        Kind::Owner(manager) => managers.push_reserved(manager),
    }
}

/// Adds an object, and its region where it owns one, and puts the reference where it goes.
fn make(book: &Book, m: &mut Parts, aim: Aim, object: ObjectRow, kind: Kind)
    requires fit { PartsFit book.now.program m.old }
    requires aim { AimFits book.now.program (length m.old.store.items) aim }
    requires rooms { HasRooms m.old aim }
    requires class { object.class < length (classes_of book.now.program) }
    requires label { LabelFits (length (managers_with kind m.old.managers.items)) object.label }
    ensures made { (input : List ℕ) → let old = plain_of book.now.program (kept_of m.old) input in
        plain_of book.now.program (kept_of m.new) input ≡ use_with book.now.program aim kind
        (with_object old (seen_of object)) (Val.Obj (length old.store)) }
    ensures fit { PartsFit book.now.program m.new }
{
    let serial = m.store.len() as u64;
    m.store.push_reserved(object);
    add_region(&mut m.managers, kind);
    put(book, m, aim, Val::Obj(serial));
}

/// The number of elements that a value says, if an array can have so many.
fn array_size(v: Val) -> Result<u32, Trap>
    ensures { result ≡ array_size v }
{
    let number = as_int(v);
    if number < 0 {
        return Err(Trap::Size);
    }
    if number > i64::from(ARRAY_SIZE) {
        return Err(Trap::Size);
    }
    Ok(number as u32)
}

/// The new object of a class, or the new array, whose size is computed first.
fn object_of(
    alloc: Global,
    book: &Book,
    m: &Parts,
    class: u32,
    made: Made,
) -> Result<ObjectRow, Refusal>
    requires fit { PartsFit book.now.program m.now }
    requires class { class < length (classes_of book.now.program) }
    requires size { IfSome made.size (IsExprNumber book.now.program) }
    ensures { ObjectIs book.now.program (kept_of m.now) class made result }
{
    let label = label(m, made.kind);
    match made.size {
        None => {
            let object = new_object(alloc, book, class, label)?;
            Ok(object)
        }
        Some(e) => {
            let v = value(book, &m.store, &m.frame.locals, e)?;
            let size = array_size(v)?;
            let object = new_array(alloc, book, class, size, label)?;
            Ok(object)
        }
    }
}

/// Makes an object.
pub(crate) fn new_step(
    alloc: Global,
    book: &Book,
    m: &mut Parts,
    to: Assignment,
    made: Made,
) -> Result<(), Refusal>
    requires assigns { AssignStands book.now.program m.old to (right_of book.now.program made) }
    requires name { IsNameIn book.now.program made.name }
    requires size { IfSome made.size (IsExprNumber book.now.program) }
    ensures step { Makes book.now.program (kept_of m.old) (kept_of m.new) to.at.line result }
    ensures fit { PartsFit book.now.program m.new }
{
    let aim = aim_of(book, m, to.left)?;
    let Some(class) = book.class_of(made.name) else {
        advance(book, &mut m.items, to.at.span, to.at.number);
        return Ok(());
    };
    let object = object_of(alloc, book, m, class, made)?;
    make_rooms(book, m, aim)?;
    advance(book, &mut m.items, to.at.span, to.at.number);
    make(book, m, aim, object, made.kind);
    Ok(())
}
