//! The marks of the bodies of methods and of main (docs/architecture.md, "Modules").

ghost use Rattle.std.specs.Prelude.{◌≡◌, ◌<◌, ◌∷◌, [], All, OnOk, length, map};
ghost use Rattle.std.specs.Prelude.{option_map};
ghost use Rattle.rg_tree.specs.Rows.Tables.{Tables};
ghost use Rattle.rg_tree.specs.Rows.RowTrees as rows;
ghost use Rattle.rg_tree.specs.Rows.RowsExist.{IsBlockIn, IsMemberIn, IsSpanBelow};
ghost use Rattle.rg_code.specs.Lowering.{with_params};
ghost use Rattle.rg_build.specs.Maps.{is_end_marked, maps_of, members_maps, method_maps};
ghost use Rattle.rg_build.specs.Maps.{methods_maps};
ghost use Rattle.rg_build.specs.Inner.Slots.{scope_of, AreHeldIn};
ghost use Rattle.rg_build.specs.Inner.Laid.{IsOpen, Lays};

use crate::laying::Laying;
use crate::slots::Slots;
use crate::types::type_of;
use crate::walk::put_block;
use rg_base::{Memory, Ty};
use rg_names::Book;
use rg_tree::{MemberRow, MethodRow, TypeRow};
use std::alloc::Global;

/// The marks of a program get their maps: those of main, then those of the methods in order.
pub fn put_program(alloc: Global, book: &Book, laying: &mut Laying) -> Result<(), Memory>
    requires { IsOpen laying.old }
    ensures { OnOk result (Lays laying.old laying.new
        (maps_of (rows.program_of book.now.program))) }
{
    let mut slots = Slots::new(alloc);
    put_block(book, &mut slots, book.main_body(), true, laying)?;
    put_methods(alloc, book, laying)?;
    Ok(())
}

// The marks of the methods of all classes get their maps.
fn put_methods(alloc: Global, book: &Book, laying: &mut Laying) -> Result<(), Memory>
    requires { IsOpen laying.old }
    ensures { OnOk result (let all = rows.classes_of book.now.program in
        Lays laying.old laying.new (methods_maps all 0 all)) }
{
    for class in 0..book.class_count() {
        let members = book.members_of(book.class(class));
        put_members(alloc, book, class, members, laying)?;
    }
    Ok(())
}

// The marks of the methods among members get their maps.
fn put_members(
    alloc: Global,
    book: &Book,
    class: u32,
    these: &[u32],
    laying: &mut Laying,
) -> Result<(), Memory>
    requires these { All (λ k. k < length book.now.program.members) these.now }
    requires begun { IsOpen laying.old }
    ensures { OnOk result (let t = book.now.program in Lays laying.old laying.new
        (members_maps (rows.classes_of t) class (map (rows.member_at t) these.now))) }
{
    for k in these {
        put_member(alloc, book, class, book.member(*k), laying)?;
    }
    Ok(())
}

// The marks of a member get their maps: only a method has any.
fn put_member(
    alloc: Global,
    book: &Book,
    class: u32,
    row: MemberRow,
    laying: &mut Laying,
) -> Result<(), Memory>
    requires row { IsMemberIn book.now.program row }
    requires begun { IsOpen laying.old }
    ensures { OnOk result (let t = book.now.program in Lays laying.old laying.new
        (members_maps (rows.classes_of t) class (rows.member_of t row ∷ []))) }
{
    match row {
        MemberRow::Field { .. } => Ok(()),
        MemberRow::Method {
            cap,
            name,
            params,
            result,
            body,
            line,
        } => {
            let method = MethodRow {
                cap,
                name,
                params,
                result,
                body,
                line,
            };
            put_method(alloc, book, class, method, laying)?;
            Ok(())
        }
    }
}

// The marks of a method get their maps.
fn put_method(
    alloc: Global,
    book: &Book,
    class: u32,
    method: MethodRow,
    laying: &mut Laying,
) -> Result<(), Memory>
    requires params { IsSpanBelow book.now.program (length book.now.program.params) method.params }
    requires body { IsBlockIn book.now.program method.body }
    requires begun { IsOpen laying.old }
    ensures { OnOk result (let t = book.now.program in Lays laying.old laying.new
        (method_maps (rows.classes_of t) class (rows.method_of t method))) }
{
    let mut slots = Slots::new(alloc);
    let receiver = Ty::Ref {
        cap: method.cap,
        class,
    };
    slots.push(None, receiver)?;
    push_params(book, book.order(method.params), &mut slots)?;
    let marked = ends_marked(method.result);
    put_block(book, &mut slots, method.body, marked, laying)?;
    Ok(())
}

// Whether a mark stands at the end of a method with this result.
fn ends_marked(given: Option<TypeRow>) -> bool
    ensures { (t : Tables) → result ≡ is_end_marked (option_map (rows.type_of t) given) }
{
    match given {
        None => true,
        Some(_) => false,
    }
}

// Parameters in the next slots.
fn push_params(book: &Book, params: &[u32], slots: &mut Slots) -> Result<(), Memory>
    requires held { AreHeldIn book.now.program slots.old }
    requires params { All (λ k. k < length book.now.program.params) params.now }
    ensures scope { OnOk result (let t = book.now.program in scope_of t slots.new
        ≡ with_params (rows.classes_of t) (scope_of t slots.old)
        (map (rows.param_at t) params.now)) }
    ensures held { OnOk result (AreHeldIn book.now.program slots.new) }
{
    for param in params {
        let row = book.param(*param);
        slots.push(Some(row.name), type_of(book, row.ty))?;
    }
    Ok(())
}
