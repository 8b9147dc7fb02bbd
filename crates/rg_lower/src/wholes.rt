//! The code of whole expressions: what one uses up is cleared behind it (docs/language.md,
//! "Instructions and lowering").

ghost use Rattle.std.specs.Prelude.{◌≡◌, ◌+◌, ◌<◌, ◌^◌, ◌++◌, ◌∷◌, [], length, IfOk, OnOk};
ghost use Rattle.rg_tree.specs.Rows.RowTrees.{classes_of, expr_at};
ghost use Rattle.rg_tree.specs.Rows.RowsExist.{IsExprNumber};
ghost use Rattle.rg_code.specs.Lowering.{above, whole_code};
ghost use Rattle.rg_lower.specs.Inner.Slots.{scope_of, AreHeldIn};
ghost use Rattle.rg_lower.specs.Inner.Emitted.{with_ops};
ghost use Rattle.rg_lower.specs.Inner.Statements.{test_code};

use crate::expressions::write_expr;
use crate::slots::Slots;
use crate::uses::clear_used;
use crate::writer::Writer;
use rg_base::Memory;
use rg_code::Op;
use rg_names::Book;

/// Appends the code of a whole expression, and then clears what it uses up.
pub fn write_whole(book: &Book, slots: &Slots, e: u32, code: &mut Writer) -> Result<(), Memory>
    requires held { AreHeldIn book.now.program slots.now }
    requires e { IsExprNumber book.now.program e }
    ensures { OnOk result (let t = book.now.program in code.new ≡ with_ops code.old
        (whole_code (classes_of t) (scope_of t slots.now) (length code.old.ops) (expr_at t e))) }
{
    write_expr(book, slots, e, code)?;
    clear_used(book, slots, e, code)
}

/// Appends a whole expression, and an instruction that takes its value.
pub fn write_then(
    book: &Book,
    slots: &Slots,
    e: u32,
    op: Op,
    code: &mut Writer,
) -> Result<(), Memory>
    requires held { AreHeldIn book.now.program slots.now }
    requires e { IsExprNumber book.now.program e }
    requires low { above op < 2 ^ 32 }
    ensures { OnOk result (let t = book.now.program in code.new ≡ with_ops code.old
        (whole_code (classes_of t) (scope_of t slots.now) (length code.old.ops) (expr_at t e)
        ++ op ∷ [])) }
{
    write_whole(book, slots, e, code)?;
    code.push(op)
}

/// Appends a test and a jump; where the jump stands, which is still to be set.
pub fn write_test(book: &Book, slots: &Slots, test: u32, code: &mut Writer) -> Result<usize, Memory>
    requires held { AreHeldIn book.now.program slots.now }
    requires test { IsExprNumber book.now.program test }
    ensures code { OnOk result (let t = book.now.program in code.new ≡ with_ops code.old
        (test_code (classes_of t) (scope_of t slots.now) (length code.old.ops) (expr_at t test)
        0)) }
    ensures at { IfOk result (λ at. let t = book.now.program in let front = length code.old.ops in
        at ≡ front + length (whole_code (classes_of t) (scope_of t slots.now) front
        (expr_at t test))) }
{
    write_whole(book, slots, test, code)?;
    let at = code.len();
    code.push(Op::JumpFalse { to: 0 })?;
    Ok(at)
}
