//! New objects: of a class, whose fields start as 0, false and nil, or with fields that are given;
//! and new arrays, whose elements start so (docs/language.md, "Steps").

ghost use Rattle.std.specs.Prelude.{◌++◌, ◌<◌, ◌∷◌, ◌≡◌, [], IfOk, OnErr, OnOk, length, map};
ghost use Rattle.std.specs.Prelude.{option_map, ℕ};
ghost use Rattle.rg_tree.specs.Rows.RowTrees.{classes_of, type_of};
ghost use Rattle.rg_tree.specs.Rows.Tables.{Tables};
ghost use Rattle.rg_rules.specs.RightSides.{opening_element, opening_value};
ghost use Rattle.rg_rules.specs.Types.{fields_of};
ghost use Rattle.rg_store.specs.Regions.{LabelFits, LabelsFit};
ghost use Rattle.rg_store.specs.Shown.{array_as, object_of, opened_as, seen_of, store_of};

use crate::objects::ObjectRow;
use rg_base::{Label, Memory, Val};
use rg_names::Book;
use rg_tree::{MemberRow, TypeRow};
use std::alloc::Global;

/// The value with which a field of a type starts.
fn opening_value(ty: TypeRow) -> Val
    ensures { (t : Tables) → result ≡ opening_value (type_of t ty) }
{
    match ty {
        TypeRow::Int => Val::Int(0),
        TypeRow::Bool => Val::Bool(false),
        TypeRow::Ref { .. } => Val::Nil,
    }
}

/// The values with which the fields of a class start.
fn opening_fields(alloc: Global, book: &Book, class: u32) -> Result<Vec<Val>, Memory>
    requires class { class < length (classes_of book.now.program) }
    ensures { IfOk result (λ fields. fields.items
        ≡ map (λ f. opening_value f.ty) (fields_of (classes_of book.now.program) class)) }
{
    let mut fields = Vec::new(alloc);
    let row = book.class(class);
    let numbers = book.members_of(row);
    for member in numbers {
        match book.member(*member) {
            MemberRow::Field { ty, .. } => {
                let Ok(()) = fields.push(opening_value(ty)) else {
                    return Err(Memory);
                };
            }
            MemberRow::Method { .. } => {}
        }
    }
    Ok(fields)
}

/// A new object of a class.
pub fn new_object(alloc: Global, book: &Book, class: u32, label: Label) -> Result<ObjectRow, Memory>
    requires class { class < length (classes_of book.now.program) }
    ensures shown { IfOk result (λ o. seen_of o ≡ opened_as (classes_of book.now.program) class
        label) }
    ensures class { IfOk result (λ o. o.class ≡ class) }
{
    let fields = opening_fields(alloc, book, class)?;
    Ok(ObjectRow {
        class,
        fields,
        label,
    })
}

/// The value with which an element of a class starts, by its type.
fn opening_element(element: Option<TypeRow>) -> Val
    ensures { (t : Tables) → result ≡ opening_element (option_map (type_of t) element) }
{
    match element {
        None => Val::Nil,
        Some(ty) => opening_value(ty),
    }
}

/// A new array of a class, of so many elements.
pub fn new_array(
    alloc: Global,
    book: &Book,
    class: u32,
    size: u32,
    label: Label,
) -> Result<ObjectRow, Memory>
    requires class { class < length (classes_of book.now.program) }
    ensures shown { IfOk result (λ o. seen_of o ≡ array_as (classes_of book.now.program) class size
        label) }
    ensures class { IfOk result (λ o. o.class ≡ class) }
{
    let opening = opening_element(book.class(class).element);
    let Ok(fields) = vec![in alloc; opening; size as usize] else {
        return Err(Memory);
    };
    Ok(ObjectRow {
        class,
        fields,
        label,
    })
}
