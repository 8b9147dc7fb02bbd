//! Classes and members by the names of a plan (docs/architecture.md, "Plans").

ghost use Rattle.std.specs.Prelude.{◌≡◌, ◌<◌, length, option_map, IfSome};
ghost use Rattle.rg_tree.specs.Rows.RowTrees.{class_of, classes_of};
ghost use Rattle.rg_plan.specs.Lines as rules;
ghost use Rattle.rg_plan.specs.Inner.Found as inner;

use crate::words::is;
use rg_names::Book;
use rg_tree::{ClassRow, MemberRow};

/// A class with its number.
#[derive(Clone, Copy)]
pub struct ClassAt {
    pub class: u32,
    pub row: ClassRow,
}

/// The ordinary class of a name.
pub fn ordinary_class(book: &Book<'_>, name: &[u8]) -> Option<ClassAt>
    ensures is { let t = book.now.program in
        option_map (λ c. class_of t c.row) result ≡ rules.ordinary_class (classes_of t) name.now }
    ensures found { IfSome result (inner.IsClassAt book.now.program name.now) }
{
    let Some(found) = find_class(book, name) else {
        return None;
    };
    if found.row.is_tmp {
        return None;
    }
    Some(found)
}

// The first class of a name.
fn find_class(book: &Book<'_>, name: &[u8]) -> Option<ClassAt>
    ensures { inner.ClassFound book.now.program name.now result }
{
    let program = book.program();
    for class in 0..book.class_count() {
        let row = book.class(class);
        if is(name, program.name(row.name)) {
            return Some(ClassAt { class, row });
        }
    }
    None
}

/// The number of a name, if a member of the class has it.
pub fn find_name(book: &Book<'_>, class: u32, name: &[u8]) -> Option<u32>
    requires { class < length (classes_of book.now.program) }
    ensures { inner.NameFound book.now.program class name.now result }
{
    let program = book.program();
    let members = book.members_of(book.class(class));
    for k in members {
        let number = name_of(book.member(*k));
        if is(name, program.name(number)) {
            return Some(number);
        }
    }
    None
}

// The number of a member's name.
fn name_of(row: MemberRow) -> u32
    ensures { result ≡ inner.name_of row }
{
    match row {
        MemberRow::Field { name, .. } => name,
        MemberRow::Method { name, .. } => name,
    }
}
