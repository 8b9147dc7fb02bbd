//! The elements that `q[e]` names (docs/language.md, "Steps").

ghost use Rattle.rg_tree.specs.Rows.RowTrees.{classes_of, expr_at, path_of};
ghost use Rattle.rg_tree.specs.Rows.RowsExist.{IsExprNumber, IsPathIn};
ghost use Rattle.rg_store.specs.Shown.{AreOfClasses, store_of};
ghost use Rattle.rg_values.specs.Spots.{ElementIs};
ghost use Rattle.rg_values.specs.Shown.{AreNamed, locals_of};

use crate::state::rows::LocalRow;
use crate::values::expressions::value;
use crate::values::paths::path_value;
use rg_base::Trap;
use rg_names::Book;
use rg_store::{ObjectRow, element_place, object_place};
use rg_tree::Path;

/// The place of an array in the store, and that of one of its elements.
#[derive(Clone, Copy)]
pub(crate) struct Indexed {
    pub(crate) place: usize,
    pub(crate) element: usize,
}

/// The element of `q[e]`: q is followed and tested, then e is computed and tested.
pub(crate) fn element_spot(
    book: &Book,
    store: &[ObjectRow],
    locals: &[LocalRow],
    path: Path,
    index: u32,
) -> Result<Indexed, Trap>
    requires objects { AreOfClasses book.now.program store.now }
    requires named { AreNamed book.now.program locals.now }
    requires path { IsPathIn book.now.program path }
    requires index { IsExprNumber book.now.program index }
    ensures { ElementIs (classes_of book.now.program) (store_of store.now)
        (locals_of book.now.program locals.now) (path_of book.now.program path)
        (expr_at book.now.program index) result }
{
    let v = path_value(book, store, locals, path)?;
    let place = object_place(store, v)?;
    let array = &store[place];
    let i = value(book, store, locals, index)?;
    let element = element_place(array, i)?;
    Ok(Indexed { place, element })
}
