//! With what the fields of a behaviour's object begin (docs/architecture.md, "Worlds").

ghost use Rattle.std.specs.Prelude.{◌≡◌, ◌<◌, length, map, IfOk};
ghost use Rattle.rg_tree.specs.Rows.RowTrees.{classes_of};
ghost use Rattle.rg_rules.specs.Types.{fields_of};
ghost use Rattle.rg_sched_atomic.specs.Contents.{givens};
ghost use Rattle.rg_slots.specs.Slots.{content_in, first_given};

use crate::fields::{is_iso, opening_value};
use crate::slot::Slot;
use rg_base::{Memory, Val};
use rg_names::Book;
use rg_opening::Given;
use rg_tree::MemberRow;
use std::alloc::Global;

/// With what the fields of an object of a class begin: each `iso` field takes the next content, any
/// other is as in a new object.
pub fn given_fields(
    alloc: Global,
    book: &Book<'_>,
    class: u32,
    contents: Vec<Slot>,
) -> Result<Vec<Given>, Memory>
    requires { class < length (classes_of book.now.program) }
    ensures { IfOk result (λ given. given.items ≡ givens
        (fields_of (classes_of book.now.program) class) (map content_in contents.items)) }
{
    let mut rest = contents.into_iter();
    let mut given = Vec::new(alloc);
    let members = book.members_of(book.class(class));
    for k in members {
        match book.member(*k) {
            MemberRow::Field { ty, .. } => {
                let begins = if is_iso(ty) {
                    given_of(rest.next())
                } else {
                    Given::Start(opening_value(ty))
                };
                let Ok(()) = given.push(begins) else {
                    return Err(Memory);
                };
            }
            MemberRow::Method { .. } => {}
        }
    }
    Ok(given)
}

// With what an `iso` field begins that takes a content, if there is one.
fn given_of(content: Option<Slot>) -> Given
    ensures { result ≡ first_given content }
{
    match content {
        Some(Slot::Held(cargo)) => Given::Held(cargo),
        Some(Slot::Away) | Some(Slot::Empty) | None => Given::Start(Val::Nil),
    }
}
