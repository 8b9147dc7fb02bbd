//! The steps of `if` and `while`, and of the end of a block (docs/language.md, "Steps").

ghost use Rattle.std.specs.Prelude.{◌++◌, ◌∷◌, ◌≡◌, [], IfSome, List, Option, false};
ghost use Rattle.rg_tree.specs.Rows.RowTrees.{block_of, else_over, expr_at, stmt_at};
ghost use Rattle.rg_tree.specs.Rows.RowsExist.{IsBlockIn, IsExprNumber};
ghost use Rattle.rg_tree.specs.Tree.{branch, while};
ghost use Rattle.rg_values.specs.Fits.{PartsFit};
ghost use Rattle.rg_values.specs.Steps.{GoesOn, Makes, Stands};
ghost use Rattle.rg_values.specs.Kept.{kept_of, shown};
ghost use Rattle.rg_values.specs.Printing.{first_prints};

use rg_names::Book;
use rg_store::as_bool;
use rg_tree::Span;
use rg_values::{At, ItemRow, Parts, Refusal, keep, open, pop_row, spend, use_up, value};

/// Chooses a block by its test.
pub fn branch_step(
    book: &Book,
    m: &mut Parts,
    at: At,
    test: u32,
    yes: Span,
    no: Option<Span>,
) -> Result<(), Refusal>
    requires stands { Stands book.now.program m.old at (branch (expr_at book.now.program test)
        (block_of book.now.program yes) (else_over book.now.program (stmt_at book.now.program)
        no)) }
    requires there { IsExprNumber book.now.program test }
    requires yes { IsBlockIn book.now.program yes }
    requires no { IfSome no (IsBlockIn book.now.program) }
    ensures step { Makes book.now.program (kept_of m.old) (kept_of m.new) at.line result }
    ensures fit { PartsFit book.now.program m.new }
{
    let test_is = as_bool(value(book, &m.store, &m.frame.locals, test)?);
    m.items.reserve(2)?;
    spend(book, m, at, test);
    let kept = m.frame.locals.len();
    if test_is {
        open(book, &mut m.items, kept, yes);
    } else if let Some(no) = no {
        open(book, &mut m.items, kept, no);
    }
    Ok(())
}

/// Makes a turn of a loop, or ends it, by its test.
pub fn while_step(book: &Book, m: &mut Parts, at: At, test: u32, body: Span) -> Result<(), Refusal>
    requires stands { Stands book.now.program m.old at (while (expr_at book.now.program test)
        (block_of book.now.program body)) }
    requires there { IsExprNumber book.now.program test }
    requires body { IsBlockIn book.now.program body }
    ensures step { Makes book.now.program (kept_of m.old) (kept_of m.new) at.line result }
    ensures fit { PartsFit book.now.program m.new }
{
    if !as_bool(value(book, &m.store, &m.frame.locals, test)?) {
        spend(book, m, at, test);
        return Ok(());
    }
    m.items.reserve(2)?;
    use_up(book, &mut m.frame.locals, test);
    let kept = m.frame.locals.len();
    open(book, &mut m.items, kept, body);
    Ok(())
}

/// Ends a block: so many variables stay.
pub fn end_step(book: &Book, m: &mut Parts, kept: usize)
    requires top { (below : List ItemRow) × (m.old.items.items ≡ below ++ ItemRow.EndAt kept ∷ []) }
    requires fit { PartsFit book.now.program m.old }
    ensures step { GoesOn book.now.program (kept_of m.old) (kept_of m.new) }
    ensures quiet { first_prints (shown book.now.program m.old.items.items) ≡ false }
    ensures fit { PartsFit book.now.program m.new }
{
    pop_row(book, &mut m.items, ItemRow::EndAt(kept));
    keep(book, &mut m.frame.locals, kept);
}
