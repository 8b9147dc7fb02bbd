//! The classes of a module (docs/architecture.md, "Modules").

ghost use Rattle.std.specs.Prelude.{◌≡◌, ◌+◌, ◌<◌, ◌≤◌, ◌^◌, ◌++◌, ◌∷◌, [], All, IfOk, OnOk};
ghost use Rattle.std.specs.Prelude.{length, map};
ghost use Rattle.rg_tree.specs.Rows.RowTrees as rows;
ghost use Rattle.rg_tree.specs.Rows.RowsExist.{IsClassIn, IsMemberIn};
ghost use Rattle.rg_spell.specs.Spelling.{Counted, FitsShape, FitsTy};
ghost use Rattle.std.specs.List.{AllByRecursion};
ghost use Rattle.rg_build.specs.ModuleOf.{field_types, shape_of, shapes_of};

use crate::types::{fit, type_if, type_of};
use rg_base::Memory;
use rg_module::{Module, Shape, Tys};
use rg_names::Book;
use rg_tree::{ClassRow, MemberRow};
use std::alloc::Global;

/// Appends the classes of a program to a module without classes.
pub fn add_classes(alloc: Global, book: &Book, module: &mut Module) -> Result<(), Memory>
    requires { «module».old.classes ≡ [] }
    ensures is { OnOk result («module».new ≡ record «module».old {
      classes = shapes_of (rows.classes_of book.now.program);
    }) }
    ensures fits { OnOk result (AllByRecursion FitsShape «module».new.classes) }
{
    for class in 0..book.class_count() {
        let found = shape(alloc, book, book.class(class))?;
        module.add_class(found)?;
    }
    Ok(())
}

// A class.
fn shape(alloc: Global, book: &Book, class: ClassRow) -> Result<Shape, Memory>
    requires { IsClassIn book.now.program class }
    ensures is { IfOk result (λ shape. let t = book.now.program in
        shape ≡ shape_of (rows.classes_of t) (rows.class_of t class)) }
    ensures fits { IfOk result FitsShape }
{
    bound(class.members.to);
    let fields = fields(alloc, book, book.members_of(class))?;
    let element = type_if(book, class.element);
    Ok(Shape {
        is_tmp: class.is_tmp,
        fields,
        element,
    })
}

// A number of 32 bits is below their end.
fn bound(n: u32)
    ensures { n < 2 ^ 32 }
{}

// The types of the fields among members, of which there are no more than a span holds.
fn fields(alloc: Global, book: &Book, these: &[u32]) -> Result<Tys, Memory>
    requires few { length these.now < 2 ^ 32 }
    requires below { All (λ k. k < length book.now.program.members) these.now }
    ensures is { IfOk result (λ types. let t = book.now.program in
        types ≡ field_types (rows.classes_of t) (map (rows.member_at t) these.now)) }
    ensures fits { IfOk result (Counted FitsTy) }
{
    let mut types = Tys::new(alloc);
    for k in these {
        add_field(book, book.member(*k), &mut types)?;
    }
    Ok(types)
}

// Appends the type of a member that is a field.
fn add_field(book: &Book, row: MemberRow, types: &mut Tys) -> Result<(), Memory>
    requires row { IsMemberIn book.now.program row }
    requires room { length types.old + 1 < 2 ^ 32 }
    requires fits { Counted FitsTy types.old }
    ensures is { OnOk result (let t = book.now.program in types.new
        ≡ types.old ++ field_types (rows.classes_of t) (rows.member_of t row ∷ [])) }
    ensures fits { OnOk result (Counted FitsTy types.new) }
    ensures longer { OnOk result (length types.new ≤ length types.old + 1) }
{
    match row {
        MemberRow::Field { ty, .. } => {
            let found = type_of(book, ty);
            fit(found);
            types.push(found)
        }
        MemberRow::Method { .. } => Ok(()),
    }
}
