//! The heads of the methods of a module (docs/architecture.md, "Modules").

ghost use Rattle.std.specs.Prelude.{◌≡◌, ◌<◌, ◌++◌, ◌∷◌, [], All, IfOk, OnOk, length, map};
ghost use Rattle.rg_tree.specs.Rows.RowTrees as rows;
ghost use Rattle.rg_tree.specs.Rows.RowsExist.{IsMemberIn, IsSpanBelow, IsTypeIn};
ghost use Rattle.std.specs.Prelude.{IfSome};
ghost use Rattle.rg_rules.specs.Types as types;
ghost use Rattle.rg_build.specs.ModuleOf.{head_of, heads_of, member_heads};

use crate::types::{type_if, type_of};
use rg_base::Memory;
use rg_module::{Head, Module, Tys};
use rg_names::Book;
use rg_tree::{MemberRow, MethodRow};
use std::alloc::Global;

/// Appends the heads of the methods of a program to a module without methods.
pub fn add_heads(alloc: Global, book: &Book, module: &mut Module) -> Result<(), Memory>
    requires { «module».old.methods ≡ [] }
    ensures { OnOk result («module».new ≡ record «module».old {
      methods = heads_of (rows.classes_of book.now.program);
    }) }
{
    for class in 0..book.class_count() {
        let members = book.members_of(book.class(class));
        add_members(alloc, book, class, members, module)?;
    }
    Ok(())
}

// Appends the heads of the methods among members.
fn add_members(
    alloc: Global,
    book: &Book,
    class: u32,
    these: &[u32],
    module: &mut Module,
) -> Result<(), Memory>
    requires { All (λ k. k < length book.now.program.members) these.now }
    ensures { OnOk result (let t = book.now.program in «module».new ≡ record «module».old {
      methods = «module».old.methods
          ++ member_heads (rows.classes_of t) class (map (rows.member_at t) these.now);
    }) }
{
    for k in these {
        add_member(alloc, book, class, book.member(*k), module)?;
    }
    Ok(())
}

// Appends the head of a member that is a method.
fn add_member(
    alloc: Global,
    book: &Book,
    class: u32,
    row: MemberRow,
    module: &mut Module,
) -> Result<(), Memory>
    requires { IsMemberIn book.now.program row }
    ensures { OnOk result (let t = book.now.program in «module».new ≡ record «module».old {
      methods = «module».old.methods
          ++ member_heads (rows.classes_of t) class (rows.member_of t row ∷ []);
    }) }
{
    match row {
        MemberRow::Field { .. } => Ok(()),
        MemberRow::Method {
            cap,
            name,
            params,
            result,
            body,
            line,
        } => {
            let method = MethodRow {
                cap,
                name,
                params,
                result,
                body,
                line,
            };
            let head = head(alloc, book, class, method)?;
            module.add_head(head)
        }
    }
}

// The head of a method.
fn head(alloc: Global, book: &Book, class: u32, method: MethodRow) -> Result<Head, Memory>
    requires params { IsSpanBelow book.now.program (length book.now.program.params) method.params }
    requires result { IfSome method.result (IsTypeIn book.now.program) }
    ensures { IfOk result (λ head. let t = book.now.program in
        head ≡ head_of (rows.classes_of t) class (rows.method_of t method)) }
{
    let params = params(alloc, book, book.order(method.params))?;
    let result = type_if(book, method.result);
    Ok(Head {
        class,
        cap: method.cap,
        params,
        result,
    })
}

// The types of parameters.
fn params(alloc: Global, book: &Book, these: &[u32]) -> Result<Tys, Memory>
    requires { All (λ k. k < length book.now.program.params) these.now }
    ensures { IfOk result (λ found. let t = book.now.program in
        found ≡ map (λ p. types.type_of (rows.classes_of t) p.ty)
        (map (rows.param_at t) these.now)) }
{
    let mut types = Tys::new(alloc);
    for k in these {
        let row = book.param(*k);
        types.push(type_of(book, row.ty))?;
    }
    Ok(types)
}
