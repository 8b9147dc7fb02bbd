//! What expressions use up is cleared (docs/language.md, "Instructions and lowering").

ghost use Rattle.std.specs.Prelude.{◌≡◌, OnOk};
ghost use Rattle.rg_tree.specs.Rows.RowTrees.{expr_at, path_of};
ghost use Rattle.rg_tree.specs.Rows.RowsExist.{IsExprNumber, IsPathIn};
ghost use Rattle.rg_code.specs.Lowering.{clears, used_path, used_slots};
ghost use Rattle.rg_lower.specs.Inner.Slots.{scope_of, AreHeldIn};
ghost use Rattle.rg_lower.specs.Inner.Emitted.{with_ops};

use crate::fields::is_iso;
use crate::slots::Slots;
use crate::writer::Writer;
use rg_base::Memory;
use rg_code::Op;
use rg_names::Book;
use rg_tree::{ExprRow, Path};

/// Clears what an expression uses up.
pub fn clear_used(book: &Book, slots: &Slots, e: u32, code: &mut Writer) -> Result<(), Memory>
    requires held { AreHeldIn book.now.program slots.now }
    requires e { IsExprNumber book.now.program e }
    ensures { OnOk result (let t = book.now.program in code.new ≡ with_ops code.old
        (clears (used_slots (scope_of t slots.now) (expr_at t e)))) }
{
    match book.expr(e) {
        ExprRow::Int(_) | ExprRow::Bool(_) | ExprRow::Nil => Ok(()),
        ExprRow::Path(path) => clear_path(book, slots, path, code),
        ExprRow::IsNil(_) => Ok(()),
        ExprRow::Neg(a) => clear_used(book, slots, a, code),
        ExprRow::Not(a) => clear_used(book, slots, a, code),
        ExprRow::Binary { left, right, .. } => {
            clear_used(book, slots, left, code)?;
            clear_used(book, slots, right, code)
        }
        ExprRow::Size(_) => Ok(()),
        ExprRow::At { index, .. } => clear_used(book, slots, index, code),
    }
}

// Clears the variable of a path without fields if it is `iso`.
fn clear_path(book: &Book, slots: &Slots, path: Path, code: &mut Writer) -> Result<(), Memory>
    requires held { AreHeldIn book.now.program slots.now }
    requires path { IsPathIn book.now.program path }
    ensures { OnOk result (let t = book.now.program in let p = path_of t path in code.new
        ≡ with_ops code.old (clears (used_path (scope_of t slots.now) p.base p.fields))) }
{
    match book.order(path.fields) {
        [] => {
            let found = slots.find(book, path.base);
            if is_iso(found.ty) {
                return code.push(Op::Clear { slot: found.slot });
            }
            Ok(())
        }
        [_, ..] => Ok(()),
    }
}
