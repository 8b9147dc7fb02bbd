//! The step of `print` (docs/language.md, "Steps").

ghost use Rattle.rg_tree.specs.Rows.RowTrees.{expr_at};
ghost use Rattle.rg_tree.specs.Rows.RowsExist.{IsExprNumber};
ghost use Rattle.rg_tree.specs.Tree.{print};
ghost use Rattle.rg_values.specs.Fits.{PartsFit};
ghost use Rattle.rg_values.specs.Steps.{Prints, Stands};
ghost use Rattle.rg_values.specs.Kept.{kept_of};

use rg_base::Val;
use rg_names::Book;
use rg_values::{At, Parts, Refusal, spend, value};

/// Prints a value.
pub fn print_step(book: &Book, m: &mut Parts, at: At, e: u32) -> Result<Val, Refusal>
    requires stands { Stands book.now.program m.old at (print (expr_at book.now.program e)) }
    requires there { IsExprNumber book.now.program e }
    ensures step { Prints book.now.program (kept_of m.old) (kept_of m.new) at.line result }
    ensures fit { PartsFit book.now.program m.new }
{
    let v = value(book, &m.store, &m.frame.locals, e)?;
    m.output.push(v)?;
    spend(book, m, at, e);
    Ok(v)
}
