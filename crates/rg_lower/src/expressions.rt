//! The code of expressions (docs/language.md, "Instructions and lowering").

ghost use Rattle.std.specs.Prelude.{◌≡◌, ℕ, ◌<◌, ◌++◌, ◌∷◌, [], length, List};
ghost use Rattle.std.specs.Prelude.{OnOk, IfSome, IfNone};
ghost use Rattle.rg_tree.specs.Rows.RowTrees.{classes_of, expr_at, path_of};
ghost use Rattle.rg_tree.specs.Rows.RowsExist.{IsExprNumber, IsPathIn};
ghost use Rattle.rg_code.specs.Lowering.{above, expr_code, gap, operator_code};
ghost use Rattle.rg_code.specs.declared.op.Op.{Op};
ghost use Rattle.rg_lower.specs.Inner.Slots.{scope_of, AreHeldIn};
ghost use Rattle.rg_lower.specs.Inner.Emitted.{with_ops, behind_code, index_code};

use crate::paths::write_path;
use crate::slots::Slots;
use crate::writer::Writer;
use rg_base::Memory;
use rg_code::Op;
use rg_names::Book;
use rg_tree::{BinOp, ExprRow, Path};

// The instruction of an operator that doesn't jump; None for `and` and `or`.
fn operator(op: BinOp) -> Option<Op>
    ensures gap { IfSome result (λ o. gap op ≡ 0) }
    ensures code { IfSome result (λ o. (end : ℕ) (right : List Op)
        → operator_code op end right ≡ right ++ o ∷ []) }
    ensures none { IfNone result (gap op ≡ 1) }
    ensures low { IfSome result (λ o. above o ≡ 0) }
{
    match op {
        BinOp::Or | BinOp::And => None,
        BinOp::Eq => Some(Op::Eq),
        BinOp::Ne => Some(Op::Ne),
        BinOp::Lt => Some(Op::Lt),
        BinOp::Le => Some(Op::Le),
        BinOp::Gt => Some(Op::Gt),
        BinOp::Ge => Some(Op::Ge),
        BinOp::Add => Some(Op::Add),
        BinOp::Sub => Some(Op::Sub),
        BinOp::Mul => Some(Op::Mul),
        BinOp::Div => Some(Op::Div),
        BinOp::Rem => Some(Op::Rem),
    }
}

// The jump of `and` or `or`.
fn jump(op: BinOp, to: usize) -> Op
    requires { gap op ≡ 1 }
    ensures code { (right : List Op) → operator_code op to right ≡ result ∷ right }
    ensures low { above result ≡ 0 }
{
    match op {
        BinOp::Or => Op::Or { to },
        BinOp::And => Op::And { to },
        BinOp::Eq | BinOp::Ne | BinOp::Lt | BinOp::Le | BinOp::Gt | BinOp::Ge => unreachable!(),
        BinOp::Add | BinOp::Sub | BinOp::Mul | BinOp::Div | BinOp::Rem => unreachable!(),
    }
}

/// Appends the code of an expression.
#[cycle(expression)]
pub fn write_expr(book: &Book, slots: &Slots, e: u32, code: &mut Writer) -> Result<(), Memory>
    requires held { AreHeldIn book.now.program slots.now }
    requires e { IsExprNumber book.now.program e }
    ensures { OnOk result (let t = book.now.program in code.new ≡ with_ops code.old
        (expr_code (classes_of t) (scope_of t slots.now) (length code.old.ops) (expr_at t e))) }
{
    match book.expr(e) {
        ExprRow::Int(value) => code.push(Op::Int { value }),
        ExprRow::Bool(value) => code.push(Op::Bool { value }),
        ExprRow::Nil => code.push(Op::Nil),
        ExprRow::Path(path) => {
            write_path(book, slots, path, code)?;
            Ok(())
        }
        ExprRow::IsNil(path) => {
            write_path(book, slots, path, code)?;
            code.push(Op::IsNil)
        }
        ExprRow::Neg(a) => {
            write_expr(book, slots, a, code)?;
            code.push(Op::Neg)
        }
        ExprRow::Not(a) => {
            write_expr(book, slots, a, code)?;
            code.push(Op::Not)
        }
        ExprRow::Binary { op, left, right } => {
            write_expr(book, slots, left, code)?;
            write_behind(book, slots, op, right, code)
        }
        ExprRow::Size(path) => {
            write_path(book, slots, path, code)?;
            code.push(Op::Size)
        }
        ExprRow::At { path, index } => {
            write_index(book, slots, path, index, code)?;
            code.push(Op::Element)
        }
    }
}

/// Appends the array of `q[e]` and its index, both tested.
#[cycle(expression)]
pub fn write_index(
    book: &Book,
    slots: &Slots,
    path: Path,
    index: u32,
    code: &mut Writer,
) -> Result<(), Memory>
    requires held { AreHeldIn book.now.program slots.now }
    requires path { IsPathIn book.now.program path }
    requires index { IsExprNumber book.now.program index }
    ensures { OnOk result (let t = book.now.program in code.new ≡ with_ops code.old
        (index_code (classes_of t) (scope_of t slots.now) (length code.old.ops) (path_of t path)
        (expr_at t index))) }
{
    write_path(book, slots, path, code)?;
    code.push(Op::Check)?;
    write_expr(book, slots, index, code)?;
    code.push(Op::Bound)
}

// Appends what stands behind the left operand.
#[cycle(expression)]
fn write_behind(
    book: &Book,
    slots: &Slots,
    op: BinOp,
    right: u32,
    code: &mut Writer,
) -> Result<(), Memory>
    requires held { AreHeldIn book.now.program slots.now }
    requires right { IsExprNumber book.now.program right }
    ensures { OnOk result (let t = book.now.program in code.new ≡ with_ops code.old
        (behind_code (classes_of t) (scope_of t slots.now) (length code.old.ops) op
        (expr_at t right))) }
{
    match operator(op) {
        Some(instruction) => {
            write_expr(book, slots, right, code)?;
            code.push(instruction)
        }
        None => {
            let at = code.len();
            code.push(jump(op, 0))?;
            write_expr(book, slots, right, code)?;
            let end = code.len();
            code.set(at, jump(op, end));
            Ok(())
        }
    }
}
