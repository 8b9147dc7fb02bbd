//! Methods by name. A class has at most 64 fields and 64 methods, so that no search is longer
//! (docs/language.md, "Steps").

ghost use Rattle.std.specs.Prelude.{◌<◌, length};
ghost use Rattle.rg_tree.specs.Rows.RowTrees.{classes_of, member_at};
ghost use Rattle.rg_tree.specs.Rows.RowsExist.{IsNameIn};
ghost use Rattle.rg_tree.specs.Rows.Tables.{name_at};
ghost use Rattle.rg_values.specs.Methods.{MemberIs, MethodIs};

use rg_names::Book;
use rg_tree::{MemberRow, MethodRow};

/// A member, where it is the method of a name.
fn as_method(book: &Book, member: u32, name: u32) -> Option<MethodRow>
    requires member { member < length book.now.program.members }
    requires name { IsNameIn book.now.program name }
    ensures { MemberIs book.now.program (name_at book.now.program name) (member_at book.now.program
        member) result }
{
    match book.member(member) {
        MemberRow::Field { .. } => None,
        MemberRow::Method {
            cap,
            name: found,
            params,
            result,
            body,
            line,
        } => {
            if book.is_same(found, name) {
                Some(MethodRow {
                    cap,
                    name: found,
                    params,
                    result,
                    body,
                    line,
                })
            } else {
                None
            }
        }
    }
}

/// The method of a name in a class.
pub fn method_of(book: &Book, class: u32, name: u32) -> Option<MethodRow>
    requires class { class < length (classes_of book.now.program) }
    requires name { IsNameIn book.now.program name }
    ensures { MethodIs book.now.program class (name_at book.now.program name) result }
{
    let row = book.class(class);
    let numbers = book.members_of(row);
    for member in numbers {
        if let Some(method) = as_method(book, *member, name) {
            return Some(method);
        }
    }
    None
}
