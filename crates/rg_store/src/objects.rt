//! Objects: what a value leads to, and fields by their names and by their numbers, read and written
//! (docs/language.md, "Steps").

ghost use Rattle.std.specs.Prelude.{◌<◌, ◌≡◌, All, IfOk, IfSome, Some, length, map, slice_get};
ghost use Rattle.std.specs.Prelude.{slice_set, unwrap_or, ℕ};
ghost use Rattle.rg_base.specs.declared.object.Seen.{Seen};
ghost use Rattle.rg_tree.specs.Rows.RowTrees.{classes_of};
ghost use Rattle.rg_tree.specs.Rows.RowsExist.{IsNameIn};
ghost use Rattle.rg_tree.specs.Rows.Tables.{Tables, name_at};
ghost use Rattle.rg_rules.specs.Evaluation.{element_place, element_value, field_value};
ghost use Rattle.rg_rules.specs.Evaluation.{follow_fields, place_among, with_field};
ghost use Rattle.rg_store.specs.Read.{LeadsTo, field_behind, value_at, value_behind, with_value_at};
ghost use Rattle.rg_store.specs.Regions.{LabelsFit};
ghost use Rattle.rg_store.specs.Shown.{AreOfClasses, seen_of, store_of};

use crate::operators::as_int;
use rg_base::{Label, Trap, Val};
use rg_names::Book;

/// An object: the number of its class, its fields in order, and to what it belongs.
#[derive(Drop)]
pub struct ObjectRow {
    pub class: u32,
    pub fields: Vec<Val>,
    pub label: Label,
}

/// The place of the object to which a value leads; following nil traps.
pub fn object_place(store: &[ObjectRow], v: Val) -> Result<usize, Trap>
    ensures { LeadsTo store.now v result }
{
    match v {
        Val::Obj(serial) => {
            if serial < store.len() as u64 {
                Ok(serial as usize)
            } else {
                Err(Trap::Nil)
            }
        }
        Val::Nil | Val::Int(_) | Val::Bool(_) => Err(Trap::Nil),
    }
}

/// The value in the field of a number, or nil where there is none.
pub fn field_at(object: &ObjectRow, index: u32) -> Val
    ensures { result ≡ value_at (seen_of object.now) index }
{
    match object.fields.get(index as usize) {
        Some(value) => *value,
        None => Val::Nil,
    }
}

/// The value in the field of a number, of the object to which a value leads; following nil traps.
pub fn read_at(store: &[ObjectRow], v: Val, index: u32) -> Result<Val, Trap>
    ensures { result ≡ value_behind (store_of store.now) v index }
{
    let place = object_place(store, v)?;
    Ok(field_at(&store[place], index))
}

/// The place of the element that a value names; one that isn't there traps.
pub fn element_place(object: &ObjectRow, v: Val) -> Result<usize, Trap>
    ensures is { result ≡ element_place (seen_of object.now) v }
    ensures within { IfOk result (λ k. k < length object.now.fields.items) }
{
    match place_among(object.fields.len(), as_int(v)) {
        Some(place) => Ok(place),
        None => Err(Trap::Index),
    }
}

/// The place that a number names among so many.
fn place_among(many: usize, number: i64) -> Option<usize>
    ensures is { result ≡ place_among many number }
    ensures within { IfSome result (λ k. k < many) }
{
    if number < 0 {
        return None;
    }
    let place = number as usize;
    if place < many { Some(place) } else { None }
}

/// The value of the element that a value names; one that isn't there traps.
pub fn element_value(object: &ObjectRow, v: Val) -> Result<Val, Trap>
    ensures { result ≡ element_value (seen_of object.now) v }
{
    let place = element_place(object, v)?;
    Ok(object.fields[place])
}

/// The value in the field of a name, or nil where there is none.
pub fn field_value(book: &Book, object: &ObjectRow, name: u32) -> Val
    requires class { object.now.class < length (classes_of book.now.program) }
    requires name { IsNameIn book.now.program name }
    ensures { result ≡ field_value (classes_of book.now.program) (seen_of object.now) (name_at
        book.now.program name) }
{
    match book.field(object.class, name) {
        Some(field) => field_at(object, field.index),
        None => Val::Nil,
    }
}

/// The value in a field of the object to which a value leads.
fn behind(book: &Book, store: &[ObjectRow], value: Val, name: u32) -> Result<Val, Trap>
    requires objects { AreOfClasses book.now.program store.now }
    requires name { IsNameIn book.now.program name }
    ensures { result ≡ field_behind (classes_of book.now.program) (store_of store.now) value
        (name_at book.now.program name) }
{
    let place = object_place(store, value)?;
    Ok(field_value(book, &store[place], name))
}

/// The value behind fields in order.
pub fn follow(book: &Book, store: &[ObjectRow], from: Val, fields: &[u32]) -> Result<Val, Trap>
    requires objects { AreOfClasses book.now.program store.now }
    requires names { All (IsNameIn book.now.program) fields.now }
    ensures { result ≡ follow_fields (classes_of book.now.program) (store_of store.now) from
        (map (name_at book.now.program) fields.now) }
{
    let mut value = from;
    for name in fields {
        value = behind(book, store, value, *name)?;
    }
    Ok(value)
}

/// Writes the value at a place, where there is one.
fn set_value(fields: &mut [Val], place: usize, v: Val)
    ensures { fields.new ≡ slice_set fields.old place v }
{
    if place < fields.len() {
        fields[place] = v;
    }
}

/// Writes the field or the element of a number, where there is one.
fn set_field(object: &mut ObjectRow, index: usize, v: Val)
    ensures written { seen_of object.new ≡ with_value_at index v (seen_of object.old) }
    ensures class { object.new.class ≡ object.old.class }
    ensures label { object.new.label ≡ object.old.label }
{
    set_value(&mut object.fields, index, v);
}

/// Writes the field of a name, where there is one.
fn write(book: &Book, object: &mut ObjectRow, name: u32, v: Val)
    requires class { object.old.class < length (classes_of book.now.program) }
    requires name { IsNameIn book.now.program name }
    ensures written { seen_of object.new ≡ with_field (classes_of book.now.program) (name_at
        book.now.program name) v (seen_of object.old) }
    ensures class { object.new.class ≡ object.old.class }
    ensures label { object.new.label ≡ object.old.label }
{
    match book.field(object.class, name) {
        Some(field) => set_field(object, field.index as usize, v),
        None => {}
    }
}

/// Writes the field of a name, in the object at a place.
pub fn write_field(book: &Book, store: &mut [ObjectRow], place: usize, name: u32, v: Val)
    requires objects { AreOfClasses book.now.program store.old }
    requires there { place < length store.old }
    requires name { IsNameIn book.now.program name }
    ensures written { (o : Seen) → slice_get (store_of store.old) place ≡ Some o →
        store_of store.new ≡ slice_set (store_of store.old) place
        (with_field (classes_of book.now.program) (name_at book.now.program name) v o) }
    ensures objects { AreOfClasses book.now.program store.new }
    ensures labels { (count : ℕ) → LabelsFit count (store_of store.old) →
        LabelsFit count (store_of store.new) }
{
    let object = &mut store[place];
    write(book, object, name, v);
}

/// Writes the field or the element of a number, in the object at a place, where there is one.
pub fn write_at(store: &mut [ObjectRow], place: usize, index: usize, v: Val)
    requires there { place < length store.old }
    ensures written { (o : Seen) → slice_get (store_of store.old) place ≡ Some o →
        store_of store.new ≡ slice_set (store_of store.old) place (with_value_at index v o) }
    ensures objects { (t : Tables) → AreOfClasses t store.old → AreOfClasses t store.new }
    ensures labels { (count : ℕ) → LabelsFit count (store_of store.old) →
        LabelsFit count (store_of store.new) }
{
    let object = &mut store[place];
    set_field(object, index, v);
}
