//! The code of all methods, and the openings of all classes (docs/language.md, "Instructions and
//! lowering").

ghost use Rattle.std.specs.Prelude.{◌≡◌, ℕ, ◌<◌, All, map, length, OnOk};
ghost use Rattle.rg_tree.specs.Rows.Tables.{Tables};
ghost use Rattle.rg_tree.specs.Rows.RowTrees as rows;
ghost use Rattle.rg_tree.specs.Rows.RowsExist.{IsClassIn};
ghost use Rattle.rg_rules.specs.Names.{FewNames, HasFewNames};
ghost use Rattle.rg_code.specs.Code.{with_opening};
ghost use Rattle.rg_code.specs.Lowering.{Methods, members_code, methods_code, opening_word};
ghost use Rattle.rg_code.specs.Lowering.{opening_of, opening_words};
ghost use Rattle.rg_lower.specs.Inner.Methods.{with_methods, with_openings};

use crate::bodies::write_member;
use crate::writer::Writer;
use rg_base::{Memory, Word};
use rg_names::Book;
use rg_tree::{ClassRow, MemberRow, TypeRow};
use std::alloc::Global;

/// Appends the code of the methods of each class in order, with their entries.
pub fn write_methods(alloc: Global, book: &Book, code: &mut Writer) -> Result<(), Memory>
    requires { FewNames (rows.program_of book.now.program) }
    ensures { OnOk result (let all = rows.classes_of book.now.program in
        code.new ≡ with_methods code.old (methods_code all (length code.old.ops) 0 all)) }
{
    for class in 0..book.class_count() {
        let members = book.members_of(book.class(class));
        write_members(alloc, book, class, members, code)?;
    }
    Ok(())
}

// Appends the code of the methods among the members of a class, whatever stands behind them.
fn write_members(
    alloc: Global,
    book: &Book,
    class: u32,
    these: &[u32],
    code: &mut Writer,
) -> Result<(), Memory>
    requires these { All (λ k. k < length book.now.program.members) these.now }
    requires names { All HasFewNames (map (rows.member_at book.now.program) these.now) }
    ensures { OnOk result ((go : ℕ → Methods) → let t = book.now.program in
        with_methods code.new (go (length code.new.ops))
        ≡ with_methods code.old (members_code (rows.classes_of t) (length code.old.ops) class
        (map (rows.member_at t) these.now) go)) }
{
    for k in these {
        write_member(alloc, book, class, book.member(*k), code)?;
    }
    Ok(())
}

/// Appends the opening of each class in order.
pub fn write_openings(alloc: Global, book: &Book, code: &mut Writer) -> Result<(), Memory>
    ensures { OnOk result (code.new
        ≡ with_openings code.old (rows.classes_of book.now.program)) }
{
    for class in 0..book.class_count() {
        write_opening(alloc, book, book.class(class), code)?;
    }
    Ok(())
}

// Appends the opening of a class: the words of its fields, or the one of each element.
fn write_opening(
    alloc: Global,
    book: &Book,
    class: ClassRow,
    code: &mut Writer,
) -> Result<(), Memory>
    requires { IsClassIn book.now.program class }
    ensures { OnOk result (let c = rows.class_of book.now.program class in
        code.new ≡ with_opening code.old (opening_of c.element c.members)) }
{
    match class.element {
        None => write_fields(alloc, book, book.order(class.members), code),
        Some(ty) => code.add_class(&[first_word(ty)]),
    }
}

// Appends the words with which the fields among members start.
fn write_fields(alloc: Global, book: &Book, these: &[u32], code: &mut Writer) -> Result<(), Memory>
    requires { All (λ k. k < length book.now.program.members) these.now }
    ensures { OnOk result (code.new ≡ with_opening code.old
        (opening_words (map (rows.member_at book.now.program) these.now))) }
{
    let mut words = Vec::new(alloc);
    for k in these {
        match book.member(*k) {
            MemberRow::Field { ty, .. } => {
                let Ok(()) = words.push(first_word(ty)) else {
                    return Err(Memory);
                };
            }
            MemberRow::Method { .. } => {}
        }
    }
    code.add_class(&words)
}

// The word with which a field or an element starts.
fn first_word(ty: TypeRow) -> Word
    ensures { (t : Tables) → result ≡ opening_word (rows.type_of t ty) }
{
    match ty {
        TypeRow::Int => Word::Int(0),
        TypeRow::Bool => Word::Bool(false),
        TypeRow::Ref { .. } => Word::Nil,
    }
}
