//! The steps of `let`, `x = r`, `q.f = r` and `q[e] = r`, by their right sides (docs/language.md,
//! "Steps").

ghost use Rattle.std.specs.Prelude.{◌≡◌, false};
ghost use Rattle.rg_tree.specs.Rows.RowTrees.{expr_at, right_of};
ghost use Rattle.rg_tree.specs.Rows.RowsExist.{IsExprNumber, IsRightIn};
ghost use Rattle.rg_tree.specs.Tree.{value};
ghost use Rattle.rg_rules.specs.Outside.Inputs.{asks};
ghost use Rattle.rg_values.specs.Fits.{PartsFit};
ghost use Rattle.rg_statements.specs.Assignments.{AssignStands};
ghost use Rattle.rg_values.specs.Steps.{Makes};
ghost use Rattle.rg_values.specs.Kept.{kept_of};

use crate::call::result_step;
use crate::move_::{Move, move_step};
use crate::new::{Kind, Made, new_step};
use rg_names::Book;
use rg_tree::Right;
use rg_values::{Assignment, Parts, Refusal, aim_of, make_room, put, spend, value};
use std::alloc::Global;

/// Puts the value of an expression where it goes. What stands left of `=` is followed and tested
/// first.
pub(crate) fn value_step(
    book: &Book,
    m: &mut Parts,
    to: Assignment,
    right: u32,
) -> Result<(), Refusal>
    requires assigns { AssignStands book.now.program m.old to
        (value (expr_at book.now.program right)) }
    requires there { IsExprNumber book.now.program right }
    ensures step { Makes book.now.program (kept_of m.old) (kept_of m.new) to.at.line result }
    ensures fit { PartsFit book.now.program m.new }
{
    let aim = aim_of(book, m, to.left)?;
    let v = value(book, &m.store, &m.frame.locals, right)?;
    make_room(book, m, aim)?;
    spend(book, m, to.at, right);
    put(book, m, aim, v);
    Ok(())
}

/// Puts the value of a right side where it goes that asks for no input.
pub fn right_step(
    alloc: Global,
    book: &Book,
    m: &mut Parts,
    to: Assignment,
    right: Right,
) -> Result<(), Refusal>
    requires assigns { AssignStands book.now.program m.old to
        (right_of book.now.program right) }
    requires right { IsRightIn book.now.program right }
    requires asks_nothing { asks (right_of book.now.program right) ≡ false }
    ensures step { Makes book.now.program (kept_of m.old) (kept_of m.new) to.at.line result }
    ensures fit { PartsFit book.now.program m.new }
{
    match right {
        Right::Expr(e) => value_step(book, m, to, e),
        Right::New { name, size } => {
            let kind = Kind::Plain;
            new_step(alloc, book, m, to, Made { name, size, kind })
        }
        Right::NewTmp { name, size } => {
            let kind = Kind::Temporary;
            new_step(alloc, book, m, to, Made { name, size, kind })
        }
        Right::NewIso {
            name,
            size,
            manager,
        } => {
            let kind = Kind::Owner(manager);
            new_step(alloc, book, m, to, Made { name, size, kind })
        }
        Right::Call(row) => result_step(alloc, book, m, to, row),
        Right::Freeze(name) => move_step(alloc, book, m, to, name, Move::Freeze),
        Right::Merge(name) => move_step(alloc, book, m, to, name, Move::Merge),
        Right::Read | Right::More => unreachable!(),
    }
}
