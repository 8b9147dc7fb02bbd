//! The steps of statements (docs/language.md, "Steps"). Each computes its value first, which may
//! trap, then makes the room that it needs, and then changes the machine, which can't fail.

ghost use Rattle.std.specs.Prelude.{◌≡◌};
ghost use Rattle.rg_tree.specs.Rows.RowTrees.{expr_at, path_of};
ghost use Rattle.rg_tree.specs.Rows.RowsExist.{IsExprNumber, IsPathIn};
ghost use Rattle.rg_rules.specs.Evaluation.{cleared, uses, uses_path};
ghost use Rattle.rg_values.specs.Fits.{KeepsRoom, PartsFit, Spends};
ghost use Rattle.rg_values.specs.Steps.{IsAt};
ghost use Rattle.rg_values.specs.Kept.{kept_of};
ghost use Rattle.rg_values.specs.Shown.{AreNamed, locals_of};

use crate::state::items::{At, advance};
use crate::state::locals::{is_iso, set};
use crate::state::parts::Parts;
use crate::state::rows::LocalRow;
use rg_base::Val;
use rg_names::Book;
use rg_tree::{ExprRow, Path};

/// Uses an expression up, and takes its statement away.
pub fn spend(book: &Book, m: &mut Parts, at: At, e: u32)
    requires fit { PartsFit book.now.program m.old }
    requires at { IsAt book.now.program m.old.items.items at.span at.number }
    requires there { IsExprNumber book.now.program e }
    ensures spends { Spends book.now.program (kept_of m.old) (kept_of m.new) at.number e }
    ensures fit { PartsFit book.now.program m.new }
    ensures rooms { KeepsRoom m.old m.new }
{
    use_up(book, &mut m.frame.locals, e);
    advance(book, &mut m.items, at.span, at.number);
}

/// Clears what a path uses up as a value: an `iso` variable without fields behind it.
fn use_path(book: &Book, locals: &mut [LocalRow], path: Path)
    requires named { AreNamed book.now.program locals.old }
    requires path { IsPathIn book.now.program path }
    ensures cleared { let old = locals_of book.now.program locals.old in locals_of book.now.program
        locals.new ≡ cleared (uses_path old (path_of book.now.program path).base (path_of
        book.now.program path).fields) old }
    ensures named { AreNamed book.now.program locals.new }
{
    match book.order(path.fields) {
        [] => {
            if is_iso(book, locals, path.base) {
                set(book, locals, path.base, Val::Nil);
            }
        }
        [_, ..] => {}
    }
}

/// Clears what an expression uses up: the `iso` variables that stand in it as values.
pub fn use_up(book: &Book, locals: &mut [LocalRow], e: u32)
    requires named { AreNamed book.now.program locals.old }
    requires there { IsExprNumber book.now.program e }
    ensures cleared { let old = locals_of book.now.program locals.old in locals_of book.now.program
        locals.new ≡ cleared (uses old (expr_at book.now.program e)) old }
    ensures named { AreNamed book.now.program locals.new }
{
    match book.expr(e) {
        ExprRow::Int(_) | ExprRow::Bool(_) | ExprRow::Nil => {}
        ExprRow::IsNil(_) | ExprRow::Size(_) => {}
        ExprRow::Path(path) => use_path(book, locals, path),
        ExprRow::Neg(a) | ExprRow::Not(a) => use_up(book, locals, a),
        ExprRow::Binary { left, right, .. } => {
            use_up(book, locals, left);
            use_up(book, locals, right);
        }
        ExprRow::At { index, .. } => use_up(book, locals, index),
    }
}
