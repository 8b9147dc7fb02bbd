//! What a path leads to: a variable or a field, its object, and whose method a call is of
//! (docs/language.md, "Steps").

ghost use Rattle.std.specs.Prelude.{◌<◌, ◌≡◌, All, IfOk, length, map};
ghost use Rattle.rg_tree.specs.Rows.RowTrees.{classes_of, path_of};
ghost use Rattle.rg_tree.specs.Rows.RowsExist.{IsNameIn, IsPathIn};
ghost use Rattle.rg_tree.specs.Rows.Tables.{name_at};
ghost use Rattle.rg_rules.specs.Evaluation.{path_value};
ghost use Rattle.rg_store.specs.Shown.{AreOfClasses, store_of};
ghost use Rattle.rg_values.specs.Receivers.{receiver_of};
ghost use Rattle.rg_values.specs.Spots.{ReceiverIs, SpotIs};
ghost use Rattle.rg_values.specs.Shown.{AreNamed, locals_of};

use crate::state::locals::variable;
use crate::state::rows::LocalRow;
use rg_base::{Trap, Val};
use rg_names::Book;
use rg_store::{ObjectRow, follow, object_place};
use rg_tree::Path;

/// The value of a path.
pub(crate) fn path_value(
    book: &Book,
    store: &[ObjectRow],
    locals: &[LocalRow],
    path: Path,
) -> Result<Val, Trap>
    requires objects { AreOfClasses book.now.program store.now }
    requires named { AreNamed book.now.program locals.now }
    requires path { IsPathIn book.now.program path }
    ensures { result ≡ path_value (classes_of book.now.program) (store_of store.now)
        (locals_of book.now.program locals.now) (path_of book.now.program path) }
{
    let from = variable(book, locals, path.base);
    follow(book, store, from, book.order(path.fields))
}

/// The value of `self`, and the number of its class.
#[derive(Clone, Copy)]
pub struct Receiver {
    pub value: Val,
    pub class: u32,
}

/// The receiver at the end of a path, which is followed and tested.
pub fn find_receiver(
    book: &Book,
    store: &[ObjectRow],
    locals: &[LocalRow],
    path: Path,
) -> Result<Receiver, Trap>
    requires objects { AreOfClasses book.now.program store.now }
    requires named { AreNamed book.now.program locals.now }
    requires path { IsPathIn book.now.program path }
    ensures receiver { result ≡ receiver_of (classes_of book.now.program) (store_of store.now)
        (locals_of book.now.program locals.now) (path_of book.now.program path) }
    ensures class { IfOk result (λ r. r.class < length (classes_of book.now.program)) }
{
    let value = path_value(book, store, locals, path)?;
    let place = object_place(store, value)?;
    Ok(Receiver {
        value,
        class: store[place].class,
    })
}

/// What a path names.
#[derive(Clone, Copy)]
pub enum Spot {
    /// the variable of a name
    Variable(Option<u32>),
    /// the field of a name, in the object at a place
    Field { place: usize, name: u32 },
}

/// The place of the object behind fields in order: they are followed, and what they lead to is
/// tested.
fn place_behind(book: &Book, store: &[ObjectRow], from: Val, fields: &[u32]) -> Result<usize, Trap>
    requires objects { AreOfClasses book.now.program store.now }
    requires names { All (IsNameIn book.now.program) fields.now }
    ensures { ReceiverIs (classes_of book.now.program) (store_of store.now) from
        (map (name_at book.now.program) fields.now) result }
{
    let at = follow(book, store, from, fields)?;
    object_place(store, at)
}

/// What a path names. All its fields but the last are followed, and what they lead to is tested.
pub fn spot_of(
    book: &Book,
    store: &[ObjectRow],
    locals: &[LocalRow],
    path: Path,
) -> Result<Spot, Trap>
    requires objects { AreOfClasses book.now.program store.now }
    requires named { AreNamed book.now.program locals.now }
    requires path { IsPathIn book.now.program path }
    ensures { SpotIs book.now.program (store_of store.now) (locals_of book.now.program locals.now)
        (path_of book.now.program path) result }
{
    match book.order(path.fields) {
        [] => Ok(Spot::Variable(path.base)),
        [front @ .., last] => {
            let from = variable(book, locals, path.base);
            match place_behind(book, store, from, front) {
                Ok(place) => Ok(Spot::Field { place, name: *last }),
                Err(kind) => Err(kind),
            }
        }
    }
}
