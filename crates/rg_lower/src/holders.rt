//! The objects whose fields are written, exchanged and entered (docs/language.md, "Instructions
//! and lowering").

ghost use Rattle.std.specs.Prelude.{IfOk};
ghost use Rattle.rg_tree.specs.Rows.RowTrees.{classes_of, path_of};
ghost use Rattle.rg_tree.specs.Rows.RowsExist.{IsPathIn};
ghost use Rattle.rg_lower.specs.Inner.Slots.{scope_of, AreHeldIn};
ghost use Rattle.rg_lower.specs.Inner.Emitted.{HolderIs};

use crate::fields::field;
use crate::paths::write_walk;
use crate::slots::Slots;
use crate::writer::Writer;
use rg_base::Memory;
use rg_names::{Book, FieldAt};
use rg_tree::Path;

/// Appends the walk to the object that has the last field of a path; that field. None where there
/// is no field, and then nothing is appended.
pub fn write_holder(
    book: &Book,
    slots: &Slots,
    path: Path,
    code: &mut Writer,
) -> Result<Option<FieldAt>, Memory>
    requires held { AreHeldIn book.now.program slots.now }
    requires path { IsPathIn book.now.program path }
    ensures { IfOk result (λ found. let t = book.now.program in let p = path_of t path in
        HolderIs (classes_of t) (scope_of t slots.now) p.base p.fields code.old code.new found) }
{
    let Some((last, front)) = book.order(path.fields).split_last() else {
        return Ok(None);
    };
    let ty = write_walk(book, slots, path.base, front, code)?;
    Ok(Some(field(book, ty, *last)))
}
