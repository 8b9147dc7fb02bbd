//! The ends of methods, with and without a result (docs/language.md, "Steps").

ghost use Rattle.std.specs.Prelude.{◌++◌, ◌<◌, ◌∷◌, ◌≡◌, [], IfOk, List, OnErr, false, length, map};
ghost use Rattle.std.specs.Prelude.{vec_capacity};
ghost use Rattle.rg_tree.specs.Rows.RowTrees.{expr_at};
ghost use Rattle.rg_tree.specs.Rows.RowsExist.{IsExprNumber};
ghost use Rattle.rg_tree.specs.Rows.Tables.{Tables};
ghost use Rattle.rg_tree.specs.Tree.{return};
ghost use Rattle.rg_values.specs.Fits.{FrameFits, FramesFit, PartsFit, TargetFits};
ghost use Rattle.rg_statements.specs.Inner.Calls.{TakesFrame, delivered};
ghost use Rattle.rg_values.specs.Steps.{GoesOn, Makes, Stands};
ghost use Rattle.rg_values.specs.Kept.{kept_frame, kept_of, shown};
ghost use Rattle.rg_values.specs.Printing.{first_prints};
ghost use Rattle.rg_values.specs.Shown.{AreNamed, locals_of};

use rg_base::{Memory, Val};
use rg_names::Book;
use rg_values::{
    At, FrameRow, ItemRow, LocalRow, Parts, Refusal, TargetRow, advance, pop_row, set, value,
};
use std::mem;

/// Gives the result of a call to its target among the variables of the caller.
fn deliver(book: &Book, locals: &mut Vec<LocalRow>, to: TargetRow, v: Val)
    requires named { AreNamed book.now.program locals.old.items }
    requires to { TargetFits book.now.program to }
    requires room { length locals.old.items < vec_capacity locals.old }
    ensures given { locals_of book.now.program locals.new.items
        ≡ delivered book.now.program to v (locals_of book.now.program locals.old.items) }
    ensures named { AreNamed book.now.program locals.new.items }
{
    match to {
        TargetRow::Declares { name, ty } => locals.push_reserved(LocalRow {
            name: Some(name),
            ty,
            value: v,
        }),
        TargetRow::Assigns(name) => set(book, locals, name, v),
        TargetRow::Drops => {}
    }
}

/// Takes the topmost frame below, with room for one more variable.
fn pop_caller(below: &mut Vec<FrameRow>) -> Result<FrameRow, Memory>
    requires some { 0 < length below.old.items }
    ensures taken { IfOk result (λ f. TakesFrame below.old.items below.new.items f
        × ((t : Tables) → FramesFit t below.old.items → FrameFits t f)) }
    ensures room { IfOk result (λ f. length f.locals.items < vec_capacity f.locals) }
    ensures kept { OnErr result (map kept_frame below.new.items ≡ map kept_frame below.old.items) }
    ensures fit { (t : Tables) → FramesFit t below.old.items → FramesFit t below.new.items }
{
    let Some(mut caller) = below.pop() else {
        unreachable!();
    };
    match caller.locals.reserve(1) {
        Ok(()) => Ok(caller),
        Err(_) => {
            below.push_reserved(caller);
            Err(Memory)
        }
    }
}

/// Ends a method with a result; main goes on.
pub fn return_step(book: &Book, m: &mut Parts, at: At, e: u32) -> Result<(), Refusal>
    requires stands { Stands book.now.program m.old at (return (expr_at book.now.program e)) }
    requires there { IsExprNumber book.now.program e }
    ensures step { Makes book.now.program (kept_of m.old) (kept_of m.new) at.line result }
    ensures fit { PartsFit book.now.program m.new }
{
    if m.below.is_empty() {
        advance(book, &mut m.items, at.span, at.number);
        return Ok(());
    }
    let v = value(book, &m.store, &m.frame.locals, e)?;
    let caller = pop_caller(&mut m.below)?;
    advance(book, &mut m.items, at.span, at.number);
    let ended = mem::replace(&mut m.frame, caller);
    deliver(book, &mut m.frame.locals, ended.target, v);
    Ok(())
}

/// Ends a method without a result; main goes on.
pub fn back_step(book: &Book, m: &mut Parts)
    requires top { (below : List ItemRow) × (m.old.items.items ≡ below ++ ItemRow.Back ∷ []) }
    requires fit { PartsFit book.now.program m.old }
    ensures step { GoesOn book.now.program (kept_of m.old) (kept_of m.new) }
    ensures quiet { first_prints (shown book.now.program m.old.items.items) ≡ false }
    ensures fit { PartsFit book.now.program m.new }
{
    pop_row(book, &mut m.items, ItemRow::Back);
    let Some(caller) = m.below.pop() else {
        return;
    };
    m.frame = caller;
}
