//! How tight an expression binds, and which operands stand bare (docs/language.md, "Canonical
//! text").

ghost use Rattle.std.specs.Prelude.{◌≡◌};
ghost use Rattle.rg_tree.specs.Canonical.{level, op_level, left_level, right_level};
ghost use Rattle.rg_tree.specs.Rows.RowTrees.{expr_at};
ghost use Rattle.rg_tree.specs.Rows.RowsExist.{IsExprNumber};

use rg_tree::{BinOp, ExprRow, Program};

// The level of an expression with an operator.
fn own_level(op: BinOp) -> u8
    ensures { result ≡ op_level op }
{
    match op {
        BinOp::Or => 0,
        BinOp::And => 1,
        BinOp::Eq | BinOp::Ne | BinOp::Lt | BinOp::Le | BinOp::Gt | BinOp::Ge => 3,
        BinOp::Add | BinOp::Sub => 4,
        BinOp::Mul | BinOp::Div | BinOp::Rem => 5,
    }
}

/// The least level that stands bare on the left.
pub fn least_left(op: BinOp) -> u8
    ensures { result ≡ left_level op }
{
    match op {
        BinOp::Or => 0,
        BinOp::And => 1,
        BinOp::Eq | BinOp::Ne | BinOp::Lt | BinOp::Le | BinOp::Gt | BinOp::Ge => 4,
        BinOp::Add | BinOp::Sub => 4,
        BinOp::Mul | BinOp::Div | BinOp::Rem => 5,
    }
}

/// The least level that stands bare on the right.
pub fn least_right(op: BinOp) -> u8
    ensures { result ≡ right_level op }
{
    match op {
        BinOp::Or => 1,
        BinOp::And => 2,
        BinOp::Eq | BinOp::Ne | BinOp::Lt | BinOp::Le | BinOp::Gt | BinOp::Ge => 4,
        BinOp::Add | BinOp::Sub => 5,
        BinOp::Mul | BinOp::Div | BinOp::Rem => 6,
    }
}

/// The level of an expression.
pub fn level_of(program: &Program, e: u32) -> u8
    requires { IsExprNumber program.now e }
    ensures { result ≡ level (expr_at program.now e) }
{
    match program.expr(e) {
        ExprRow::Int(_) | ExprRow::Bool(_) | ExprRow::Nil => 7,
        ExprRow::Path(_) | ExprRow::IsNil(_) | ExprRow::Size(_) | ExprRow::At { .. } => 7,
        ExprRow::Neg(_) => 6,
        ExprRow::Not(_) => 2,
        ExprRow::Binary { op, .. } => own_level(op),
    }
}
